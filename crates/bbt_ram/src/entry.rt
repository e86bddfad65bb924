// The four entries of a byte, the first in the lowest bits.
ghost use Rattle.std.specs.Prelude.{◌≡◌, ◌<◌, slice_index, slice_set};
ghost use Rattle.nand_model.specs.Table.{entries_of};

// The entry at this place of a byte.
pub(crate) fn entry(byte: u8, place: u32) -> u8
    requires { place < 4 }
    ensures state { result ≡ slice_index (entries_of byte) place }
    ensures small { result < 4 }
{
    byte >> (2 * place) & 3
}

// The byte with another entry at this place.
pub(crate) fn with_entry(byte: u8, place: u32, state: u8) -> u8
    requires place { place < 4 }
    requires state { state < 4 }
    ensures { entries_of result ≡ slice_set (entries_of byte) place state }
{
    byte & !(3 << (2 * place)) | state << (2 * place)
}
