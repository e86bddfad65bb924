// Rows of the elimination over the syndromes.
ghost use Rattle.std.specs.Prelude.{◌≡◌, ◌≢◌, ◌<◌, ◌≤◌, ◌+◌, ◌*◌, ℕ, ◌^◌, slice_index, IfNone, IfSome, List, [], slice_index_or};
ghost use Rattle.code_model.specs.Binary.{times};
ghost use Rattle.bch_solver.specs.Rows.{AllBelow, AddsScaled, Reduces, Holds, HasMonic, IsTable, syndrome_at};

use binary_field::FieldProducts;

/// A row: 16 values, and the 17 coefficients of the polynomial that they belong to.
pub type Row = [u16; 33];

// Adds a multiple of one row to another.
fn add_scaled<F: FieldProducts>(target: &mut Row, source: &Row, factor: u16)
    requires small_factor { factor < 2 ^ F.DEGREE }
    requires small_target { AllBelow (2 ^ F.DEGREE) target.old }
    requires small_source { AllBelow (2 ^ F.DEGREE) source.now }
    ensures sums { AddsScaled F.DEGREE F.MODULUS target.old target.new source.now factor }
    ensures small { AllBelow (2 ^ F.DEGREE) target.new }
{
    for i in 0..33 {
        target[i] ^= F::product(factor, source[i]);
    }
}

// Takes the value at `pivot` off by a multiple of the source, whose value there has the inverse
// `inverse`.
fn reduce<F: FieldProducts>(target: &mut Row, source: &Row, pivot: usize, inverse: u16)
    requires in_row { pivot < 33 }
    requires small_target { AllBelow (2 ^ F.DEGREE) target.old }
    requires small_source { AllBelow (2 ^ F.DEGREE) source.now }
    requires small_inverse { inverse < 2 ^ F.DEGREE }
    requires inverts { times F.DEGREE F.MODULUS inverse (slice_index source.now pivot) ≡ 1 }
    ensures sums { Reduces F.DEGREE F.MODULUS target.old target.new source.now }
    ensures gone { slice_index target.new pivot ≡ 0 }
    ensures small { AllBelow (2 ^ F.DEGREE) target.new }
{
    let factor = F::product(target[pivot], inverse);
    add_scaled::<F>(target, source, factor);
}

// Takes the first `count` rows off, so that the target is 0 at the place of each.
pub fn reduce_all<F: FieldProducts>(
    target: &mut Row,
    rows: &[Row; 17],
    pivots: &[usize; 17],
    inverses: &[u16; 17],
    count: usize,
)
    requires room { count < 17 }
    requires table { IsTable F.DEGREE F.MODULUS rows.now pivots.now inverses.now count }
    requires small_target { AllBelow (2 ^ F.DEGREE) target.old }
    requires monic_target { HasMonic count target.old }
    ensures small { AllBelow (2 ^ F.DEGREE) target.new }
    ensures monic { HasMonic count target.new }
    ensures gone { (k : ℕ) → k < count → slice_index target.new (slice_index pivots.now k) ≡ 0 }
    ensures kept { (s : ℕ → ℕ) (t : ℕ) → t < 17
        → ((k : ℕ) → k < count → Holds F.DEGREE F.MODULUS s t (slice_index_or rows.now k []))
        → Holds F.DEGREE F.MODULUS s t target.old → Holds F.DEGREE F.MODULUS s t target.new }
{
    for k in 0..count {
        reduce::<F>(target, &rows[k], pivots[k], inverses[k]);
    }
}

// The row of x^degree: the syndromes from there on.
pub fn first_row<F: FieldProducts>(syndromes: &[u16; 32], degree: usize) -> Row
    requires room { degree < 17 }
    requires small_syndromes { AllBelow (2 ^ F.DEGREE) syndromes.now }
    ensures small { AllBelow (2 ^ F.DEGREE) result }
    ensures monic { HasMonic degree result }
    ensures holds { Holds F.DEGREE F.MODULUS (syndrome_at syndromes.now) 16 result }
{
    let mut row = [0u16; 33];
    for j in 0..16 {
        row[j] = syndromes[degree + j];
    }
    row[16 + degree] = 1;
    row
}

// The first of the first `count` values that is not 0.
pub fn first_value(row: &Row, count: usize) -> Option<usize>
    requires room { count < 17 }
    ensures found { IfSome result (λ p. (p < count) × (slice_index row.now p ≢ 0)) }
    ensures none { IfNone result ((j : ℕ) → j < count → slice_index row.now j ≡ 0) }
{
    for j in 0..count {
        if row[j] != 0 {
            return Some(j);
        }
    }
    None
}
