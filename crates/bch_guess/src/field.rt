// Arithmetic by tables of powers and logarithms.
ghost use Rattle.std.specs.Prelude.{◌<◌};

use bch_tables::PowerTables;

// The product of two elements.
pub(crate) fn product<F: PowerTables>(a: u16, b: u16) -> u16 {
    if a == 0 || b == 0 {
        return 0;
    }
    F::power_of(F::likely_logarithm(a) + F::likely_logarithm(b))
}

// The quotient of an element by one other than 0.
pub(crate) fn quotient<F: PowerTables>(a: u16, b: u16) -> u16 {
    if a == 0 {
        return 0;
    }
    F::power_of(F::likely_logarithm(a) + (F::SIZE - 1 - F::likely_logarithm(b)))
}

// The root of an element.
pub(crate) fn square_root<F: PowerTables>(a: u16) -> u16 {
    if a == 0 {
        return 0;
    }
    let n = F::likely_logarithm(a);
    if n % 2 == 0 {
        F::power_of(n / 2)
    } else {
        F::power_of((n + F::SIZE - 1) / 2)
    }
}
