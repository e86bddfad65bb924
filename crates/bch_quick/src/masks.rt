// Masks over stored parities.
ghost use Rattle.std.specs.Prelude.{◌≡◌, length};
ghost use Rattle.code_model.specs.Bits.{xor_bytes};

/// Puts a mask on parity bytes, or takes it off them.
pub fn put_mask(parity: &mut [u8], mask: &[u8])
    requires { length mask.now ≡ length parity.old }
    ensures { parity.new ≡ xor_bytes parity.old mask.now }
{
    for i in 0..parity.len() {
        parity[i] ^= mask[i];
    }
}
