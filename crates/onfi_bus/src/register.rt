// The page register.
ghost use Rattle.std.specs.Prelude.{◌≡◌, ◌≤◌, ◌<◌, ℕ, take, replicate, slice_index, slice_set};
ghost use Rattle.nand_model.specs.Sizes.{page_count, raw_len};

use nand_iface::Flash;

/// The bytes of the largest page with its spare.
const REGISTER_LEN: usize = 4320;

/// The page register of a chip, of which a page with its spare takes the front.
#[derive(Drop)]
pub struct Register {
    bytes: [u8; 4320],
}

impl Register {
    ghost use Rattle.onfi_bus.specs.Registers.{front};

    /// A register with 0xFF throughout.
    pub fn new() -> Register
        ensures { (raw : ℕ) → raw ≤ 4320 → front raw result ≡ replicate raw 0xff }
    {
        Register {
            bytes: [0xff; REGISTER_LEN],
        }
    }

    /// Puts a byte at a column of a page of `raw` bytes.
    pub fn put(&mut self, column: u32, byte: u8)
        requires { column < 4320 }
        ensures { (raw : ℕ) → column < raw → raw ≤ 4320 →
            front raw self.new ≡ slice_set (front raw self.old) column byte }
    {
        self.bytes[column as usize] = byte;
    }

    /// The byte at a column.
    pub fn byte(&self, column: u32) -> u8
        requires { column < 4320 }
        ensures { (raw : ℕ) → column < raw → result ≡ slice_index (front raw self.now) column }
    {
        self.bytes[column as usize]
    }

    /// Lends the bytes of a page.
    pub fn page(&self, raw: u32) -> &[u8]
        requires { raw ≤ 4320 }
        ensures { result.now ≡ front raw self.now }
    {
        &self.bytes[..raw as usize]
    }

    /// Reads a page.
    pub fn read<F: Flash>(&mut self, flash: &F, page: u32, raw: u32)
        requires raw { raw ≡ raw_len (F.state flash.now).geometry }
        requires few { raw ≤ 4320 }
        requires page { page < page_count (F.state flash.now).geometry }
        ensures { front raw self.new ≡ ((F.state flash.now).pages page).cells }
    {
        flash.read_page(page, &mut self.bytes[..raw as usize]);
    }
}
