// The error locator of least degree, by elimination.
ghost use Rattle.std.specs.Prelude.{◌≡◌, ◌≢◌, ◌<◌, ◌≤◌, ◌+◌, ◌*◌, ℕ, ◌^◌, slice_index, IfNone, IfSome};
ghost use Rattle.bch_solver.specs.Rows.{AllBelow, SolvesKey, syndrome_at};

use crate::rows::{Row, first_row, first_value, reduce_all};
use binary_field::FieldProducts;

/// A monic polynomial over the field: coefficient l is that of x^l, and those above the degree are
/// 0.
#[derive(Clone, Copy)]
pub struct Locator {
    pub degree: usize,
    pub coefficients: [u16; 17],
}

// The polynomial of a row.
fn locator_of(row: &Row, degree: usize) -> Locator
    ensures degree { result.degree ≡ degree }
    ensures coefficients { (l : ℕ) → slice_index result.coefficients l
        ≡ slice_index row.now (16 + l) }
{
    let mut coefficients = [0u16; 17];
    for l in 0..17 {
        coefficients[l] = row[16 + l];
    }
    Locator {
        degree,
        coefficients,
    }
}

/// The monic polynomial of least degree, at most `count`, whose sums with the first `count` runs of
/// the syndromes are 0 (the key equation). The syndromes are counted from 1. None: there is no such
/// polynomial.
pub fn solve<F: FieldProducts>(count: usize, syndromes: &[u16; 32]) -> Option<Locator>
    requires room { count < 17 }
    requires small_syndromes { AllBelow (2 ^ F.DEGREE) syndromes.now }
    ensures solved { IfSome result (λ r. (r.degree ≤ count)
        × SolvesKey F.DEGREE F.MODULUS (syndrome_at syndromes.now) count r.degree
        (λ l. slice_index r.coefficients l)) }
    ensures least { IfSome result (λ r. (e : ℕ) (c : ℕ → ℕ) → e < r.degree
        → SolvesKey F.DEGREE F.MODULUS (syndrome_at syndromes.now) count e c → ⊥) }
    ensures none { IfNone result ((e : ℕ) (c : ℕ → ℕ) → e ≤ count
        → SolvesKey F.DEGREE F.MODULUS (syndrome_at syndromes.now) count e c → ⊥) }
{
    let mut rows = [[0u16; 33]; 17];
    let mut pivots = [0usize; 17];
    let mut inverses = [0u16; 17];
    for degree in 0..count + 1 {
        let mut row = first_row::<F>(syndromes, degree);
        reduce_all::<F>(&mut row, &rows, &pivots, &inverses, degree);
        match first_value(&row, count) {
            None => return Some(locator_of(&row, degree)),
            Some(place) => {
                inverses[degree] = F::inverse(row[place]);
                pivots[degree] = place;
                rows[degree] = row;
            }
        }
    }
    None
}
