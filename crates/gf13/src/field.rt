// The field as an instance of the binary fields.
ghost use Rattle.code_model.proofs.Instances.{primitive_13};

use binary_field::{BinaryField, FieldProducts};

/// The field of 2^13 elements, modulo x^13 + x^4 + x^3 + x + 1.
pub struct Field13;

impl BinaryField for Field13 {
    ghost DEGREE = { 13 };

    ghost MODULUS = { 0x201b };

    const DEGREE: u32 = 13;

    const MODULUS: u16 = 0x201b;

    ghost primitive = { primitive_13 };

    ghost use Rattle.std.proofs.Common.{lit≤};

    ghost small = { lit≤ tt };
}

impl FieldProducts for Field13 {
    fn product(a: u16, b: u16) -> u16 {
        binary_field::product::<Field13>(a, b)
    }

    fn inverse(a: u16) -> u16 {
        binary_field::inverse::<Field13>(a)
    }
}
