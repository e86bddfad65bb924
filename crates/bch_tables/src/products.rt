// Products and inverses by tables.
ghost use Rattle.std.specs.Prelude.{◌≡◌, ◌<◌, ◌^◌};
ghost use Rattle.code_model.specs.Binary.{times};

use crate::powers::PowerTables;
use binary_field::{inverse, product};

/// The product of two elements, of degree below `F::DEGREE` each. Their logarithms are tested.
#[inline(always)]
pub fn product_by_tables<F: PowerTables>(a: u16, b: u16) -> u16
    requires left { a < 2 ^ F.DEGREE }
    requires right { b < 2 ^ F.DEGREE }
    ensures value { result ≡ times F.DEGREE F.MODULUS a b }
    ensures small { result < 2 ^ F.DEGREE }
{
    if a == 0 {
        return 0;
    }
    if b == 0 {
        return 0;
    }
    let i = F::likely_logarithm(a);
    let j = F::likely_logarithm(b);
    let first = F::power_of(i);
    let second = F::power_of(j);
    if first == a {
        if second == b {
            return F::power_of(i + j);
        }
    }
    product::<F>(a, b)
}

/// The inverse of an element other than 0, tested by a product.
pub fn inverse_by_tables<F: PowerTables>(a: u16) -> u16
    requires not_zero { 0 < a }
    requires small { a < 2 ^ F.DEGREE }
    ensures value { times F.DEGREE F.MODULUS a result ≡ 1 }
    ensures small { result < 2 ^ F.DEGREE }
{
    let i = F::likely_logarithm(a);
    let likely = F::power_of(F::SIZE - 1 - i);
    if (likely as usize) < F::SIZE {
        if product_by_tables::<F>(a, likely) == 1 {
            return likely;
        }
    }
    inverse::<F>(a)
}
