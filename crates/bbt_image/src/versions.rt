// Which of two copies is used.
ghost use Rattle.std.specs.Prelude.{◌≡◌};
ghost use Rattle.chip_paths.specs.Copies.{choice_of, is_newer};

use nand_model::Choice;

/// Tells which copy of a table is used, by the versions of the copies that were found, and whether
/// the other one is written again.
///
/// It is the newer one, the primary where both are equal: the difference of the versions counts as
/// a signed 8-bit number (nand_bbt). The other copy is written again unless it has the same
/// version. `Neither` comes exactly where no copy was found. No memory is taken.
pub fn choose(primary: Option<u8>, mirror: Option<u8>) -> Choice
    ensures { result ≡ choice_of primary mirror }
{
    match (primary, mirror) {
        (Some(p), Some(m)) if p == m => Choice::Primary { rewrite: false },
        (Some(p), Some(m)) if is_newer(p, m) => Choice::Primary { rewrite: true },
        (Some(_), None) => Choice::Primary { rewrite: true },
        (_, Some(_)) => Choice::Mirror { rewrite: true },
        (None, None) => Choice::Neither,
    }
}

// The difference of two versions, as a signed 8-bit number, is above 0.
fn is_newer(p: u8, m: u8) -> bool
    ensures { result ≡ is_newer p m }
{
    matches!(p.wrapping_sub(m), 1..=127)
}
