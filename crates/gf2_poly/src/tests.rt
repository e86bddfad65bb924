use super::*;

// Values of lib/bch, the highest coefficient first.
#[test]
fn polynomials_of_lib_bch(rt: HostRuntime) {
    let first = minimal(1);
    let third = minimal(3);
    assert_eq!(rt; first, Poly::from_halves(0, 0x201b));
    assert_eq!(rt; third, Poly::from_halves(0, 0x26b1));
    assert_eq!(rt; minimal(5), Poly::from_halves(0, 0x2993));
    assert_eq!(rt; minimal(7), Poly::from_halves(0, 0x274f));
    assert_eq!(rt; generator(1), Poly::from_halves(0, 0x201b));
    assert_eq!(rt; generator(2), Poly::from_halves(0, 0x4d5154b));
    assert_eq!(rt; generator(3), Poly::from_halves(0, 0xbaf5b2bded));
    assert_eq!(rt; generator(4), Poly::from_halves(0, 0x14523043ab86ab));

    assert_eq!(rt; first.mul(&third), generator(2));
    assert_eq!(rt;
        Poly::from_halves(0, 0x4d5154a).remainder(&third),
        Poly::from_halves(0, 1)
    );
    assert_eq!(rt; generator(16).degree(), Some(208));
    assert!(rt; first.coefficient(13) && !first.coefficient(12) && !first.coefficient(300));
}
