ghost use Rattle.code_model.proofs.Instances.{primitive_14};

use super::*;

// The field of 2^14 elements, modulo x^14 + x^5 + x^3 + x + 1.
struct Field14;

impl BinaryField for Field14 {
    ghost DEGREE = { 14 };

    ghost MODULUS = { 0x402b };

    const DEGREE: u32 = 14;

    const MODULUS: u16 = 0x402b;

    ghost primitive = { primitive_14 };

    ghost use Rattle.std.proofs.Common.{lit≤};

    ghost small = { lit≤ tt };
}

#[test]
fn agrees_with_values_from_outside(rt: HostRuntime) {
    let products = [
        (0x3fff, 0x3fff, 0x2bfa),
        (0x2000, 0x0002, 0x002b),
        (0x211c, 0x31d7, 0x0ffa),
        (0x01ef, 0x2525, 0x1331),
        (0x322f, 0x1e67, 0x2ab6),
    ];
    for (a, b, value) in products {
        assert!(rt; a < 16384 && b < 16384, "in the field");
        assert_eq!(rt; product::<Field14>(a, b), value, "{a} times {b}");
    }
    let inverses = [
        (0x0001, 0x0001, 0),
        (0x0002, 0x2015, 1),
        (0x3fff, 0x3e60, 13892),
        (0x0b5a, 0x1d44, 13099),
        (0x24b7, 0x3e86, 11987),
        (0x2ca8, 0x3828, 10592),
    ];
    for (a, value, exponent) in inverses {
        assert!(rt; 0 < a && a < 16384, "in the field");
        assert_eq!(rt; inverse::<Field14>(a), value, "inverse of {a}");
        assert_eq!(rt; logarithm::<Field14>(a), exponent, "logarithm of {a}");
        assert_eq!(rt; power_of_x::<Field14>(exponent + 16383), a, "a power of x");
    }
    assert_eq!(rt; doubled::<Field14>(0x2001), 0x0029);
}
