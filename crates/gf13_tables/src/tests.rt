ghost use Rattle.std.specs.Prelude.{◌<◌};

use super::*;
use bch_tables::PowerTables;
use binary_field::FieldProducts;

// Products and inverses from outside, and each logarithm of the table.
#[test]
fn agrees_with_values_from_outside(rt: HostRuntime) {
    let products = [
        (0x0000, 0x1fff, 0x0000),
        (0x0001, 0x1234, 0x1234),
        (0x0002, 0x1000, 0x001b),
        (0x1fff, 0x1fff, 0x151a),
        (0x0e68, 0x1428, 0x0d8a),
        (0x077c, 0x1be3, 0x170c),
    ];
    for (a, b, product) in products {
        assert!(rt; a < 8192 && b < 8192, "in the field");
        assert_eq!(rt; Steps512::product(a, b), product, "{a} times {b}");
    }
    for (a, inverse) in [(0x0001, 0x0001), (0x0002, 0x100d), (0x1fff, 0x1741)] {
        assert!(rt; 0 < a && a < 8192, "in the field");
        assert_eq!(rt; Steps512::inverse(a), inverse, "inverse of {a}");
    }
    for a in 1u16..8192 {
        let n = Steps512::likely_logarithm(a);
        assert_eq!(rt; Steps512::power_of(n), a, "logarithm of {a}");
    }
}
