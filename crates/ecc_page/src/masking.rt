// The mask over stored parities.
ghost use Rattle.std.specs.Prelude.{◌≡◌, ◌<◌, ◌≤◌, length};
ghost use Rattle.code_model.specs.Code.{code_512, mask_of, parity_len};

use crate::masks::MASKS;

// The mask of the code that corrects t wrong bits, from 1 to 16, in (13 t + 7) / 8 bytes.
pub(crate) fn mask_of_code(t: u32) -> &'static [u8]
    requires { (0 < t) × (t ≤ 16) }
    ensures { result.now ≡ mask_of (code_512 t) }
{
    let len = ((13 * t + 7) / 8) as usize;
    &MASKS[(t - 1) as usize][..len]
}

/// Writes the mask of the code that corrects t wrong bits, from 1 to 16, into (13 t + 7) / 8 bytes:
/// the complement, padding bits too, of the parity of 512 bytes 0xFF. With it the stored parity of
/// an erased step is 0xFF, as in nand_ecc's software BCH.
pub fn mask(t: u32, out: &mut [u8])
    requires strength { (0 < t) × (t ≤ 16) }
    requires room { length out.old ≡ parity_len (code_512 t) }
    ensures { out.new ≡ mask_of (code_512 t) }
{
    out.copy_from_slice(mask_of_code(t));
}
