use super::*;

// The value of a polynomial over two elements, bit k being the coefficient of x^k.
fn value_at(polynomial: u16, x: Elem) -> Elem {
    let mut value = Elem::of(0);
    for k in 0u32..14u32 {
        value = value.mul(x).add(Elem::of((polynomial >> (13 - k)) & 1));
    }
    value
}

#[test]
fn agrees_with_values_from_outside(rt: HostRuntime) {
    let products = [
        (0x0000, 0x1fff, 0x0000),
        (0x0001, 0x1234, 0x1234),
        (0x0002, 0x1000, 0x001b),
        (0x1fff, 0x1fff, 0x151a),
        (0x0e68, 0x1428, 0x0d8a),
        (0x077c, 0x1be3, 0x170c),
        (0x1fc2, 0x1e0a, 0x1248),
        (0x0267, 0x1710, 0x1e45),
    ];
    for (a, b, product) in products {
        assert!(rt; a < 8192 && b < 8192, "in the field");
        assert_eq!(rt;
            Elem::of(a).mul(Elem::of(b)).bits(),
            product,
            "{a} times {b}"
        );
    }
    let inverses = [
        (0x0001, 0x0001, 0),
        (0x0002, 0x100d, 1),
        (0x0003, 0x1ff6, 934),
        (0x1000, 0x038f, 12),
        (0x1fff, 0x1741, 7351),
        (0x1b26, 0x0ecb, 7804),
        (0x0245, 0x1032, 7609),
        (0x1acc, 0x1fbb, 6498),
    ];
    for (a, inverse, logarithm) in inverses {
        assert!(rt; 0 < a && a < 8192, "in the field");
        let element = Elem::of(a);
        assert_eq!(rt; element.inv().bits(), inverse, "inverse of {a}");
        assert_eq!(rt; element.log(), logarithm, "logarithm of {a}");
        assert_eq!(rt; Elem::pow_alpha(logarithm + 8191), element, "a power of α");
    }
    assert_eq!(rt; Elem::of(0x1234).add(Elem::of(0x0ff0)).bits(), 0x1dc4);
    let minimal = [(0x201b, 1), (0x26b1, 3), (0x2993, 5), (0x274f, 7)];
    for (polynomial, exponent) in minimal {
        let mut power = Elem::pow_alpha(exponent);
        for _ in 0..13 {
            assert_eq!(rt; value_at(polynomial, power), Elem::of(0), "{polynomial}");
            power = power.mul(power);
        }
        assert_ne!(rt;
            value_at(polynomial, Elem::pow_alpha(exponent + 2)),
            Elem::of(0)
        );
    }
}
