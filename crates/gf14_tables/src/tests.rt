ghost use Rattle.std.specs.Prelude.{◌<◌};

use super::*;
use bch_tables::PowerTables;
use binary_field::FieldProducts;

// Products and inverses from outside, and each logarithm of the table.
#[test]
fn agrees_with_values_from_outside(rt: HostRuntime) {
    let products = [
        (0x3fff, 0x3fff, 0x2bfa),
        (0x2000, 0x0002, 0x002b),
        (0x211c, 0x31d7, 0x0ffa),
        (0x01ef, 0x2525, 0x1331),
        (0x322f, 0x1e67, 0x2ab6),
    ];
    for (a, b, product) in products {
        assert!(rt; a < 16384 && b < 16384, "in the field");
        assert_eq!(rt; Steps1024::product(a, b), product, "{a} times {b}");
    }
    for (a, inverse) in [(0x0001, 0x0001), (0x0002, 0x2015), (0x3fff, 0x3e60)] {
        assert!(rt; 0 < a && a < 16384, "in the field");
        assert_eq!(rt; Steps1024::inverse(a), inverse, "inverse of {a}");
    }
    for a in 1u16..16384 {
        let n = Steps1024::likely_logarithm(a);
        assert_eq!(rt; Steps1024::power_of(n), a, "logarithm of {a}");
    }
}
