// A page with cells of its own.
ghost use Rattle.std.specs.Prelude.{◌≡◌, ◌*◌, ◌<◌, ◌&&◌, true, false, length, fold, All};
ghost use Rattle.nand_model.specs.Chip.{done_bits, programmed, torn_erased, torn_programmed};
ghost use Rattle.nand_model.specs.Flips.{with_bit_turned};

use nand_model::{BlockList, Bytes, Tear};

/// A page that was programmed or flipped since its last good erase.
#[derive(Drop)]
pub struct Page {
    /// The cells, spare area too.
    pub cells: Bytes,
    /// Whether the last program or erase was torn or failed.
    pub torn: bool,
    /// Whether a bit was flipped since the last good program or erase, or since the first torn or
    /// failed one after that.
    pub flipped_since: bool,
}

impl Page {
    /// ANDs an image into the cells.
    pub fn program(&mut self, image: &[u8])
        requires { length image.now ≡ length self.old.cells }
        ensures { self.new ≡ record
            { cells = programmed self.old.cells image.now; torn = false; flipped_since = false } }
    {
        and_into(self.cells.as_mut_slice(), image);
        self.torn = false;
        self.flipped_since = false;
    }

    /// ANDs those bits of an image into the cells that a tear did, in a page of `raw_len` bytes.
    pub fn tear_program(&mut self, image: &[u8], tear: &Tear, raw_len: u32)
        requires cells { length self.old.cells ≡ raw_len }
        requires image { length image.now ≡ raw_len }
        ensures { self.new ≡ record {
          cells = torn_programmed self.old.cells image.now (done_bits raw_len tear.now 0);
          torn = true;
          flipped_since = self.old.torn && self.old.flipped_since;
        } }
    {
        and_done(self.cells.as_mut_slice(), image, tear, raw_len);
        self.mark_torn();
    }

    /// Sets those bits of the cells that a tear did in this page of a block, in pages of `raw_len`
    /// bytes.
    pub fn tear_erase(&mut self, page_in_block: u32, tear: &Tear, raw_len: u32)
        requires { length self.old.cells ≡ raw_len }
        ensures { self.new ≡ record {
          cells = torn_erased self.old.cells (done_bits raw_len tear.now page_in_block);
          torn = true;
          flipped_since = self.old.torn && self.old.flipped_since;
        } }
    {
        or_done(self.cells.as_mut_slice(), page_in_block, tear, raw_len);
        self.mark_torn();
    }

    // Records a torn event. A flip since an earlier one stays on record.
    fn mark_torn(&mut self)
        ensures { self.new ≡ record self.old
            { torn = true; flipped_since = self.old.torn && self.old.flipped_since } }
    {
        self.flipped_since = self.torn && self.flipped_since;
        self.torn = true;
    }

    /// Turns these bits one after the other.
    pub fn flip(&mut self, bits: &BlockList)
        requires { All (λ bit. bit < 8 * length self.old.cells) bits.now }
        ensures { self.new ≡ record self.old
            { cells = fold with_bit_turned self.old.cells bits.now; flipped_since = true } }
    {
        turn_bits(self.cells.as_mut_slice(), bits);
        self.flipped_since = true;
    }
}

// ANDs an image into cells.
fn and_into(cells: &mut [u8], image: &[u8])
    requires { length image.now ≡ length cells.old }
    ensures { cells.new ≡ programmed cells.old image.now }
{
    for (i, cell) in cells.iter_mut().enumerate() {
        *cell &= image[i];
    }
}

// ANDs those bits of an image into the cells of a page that a tear did.
fn and_done(cells: &mut [u8], image: &[u8], tear: &Tear, raw_len: u32)
    requires cells { length cells.old ≡ raw_len }
    requires image { length image.now ≡ raw_len }
    ensures { cells.new ≡ torn_programmed cells.old image.now (done_bits raw_len tear.now 0) }
{
    for (i, cell) in cells.iter_mut().enumerate() {
        *cell &= image[i] | !tear.done(i as u32, 0, raw_len);
    }
}

// Sets those bits of the cells of a page that a tear did.
fn or_done(cells: &mut [u8], page_in_block: u32, tear: &Tear, raw_len: u32)
    requires { length cells.old ≡ raw_len }
    ensures { cells.new ≡ torn_erased cells.old (done_bits raw_len tear.now page_in_block) }
{
    for (i, cell) in cells.iter_mut().enumerate() {
        *cell |= tear.done(i as u32, page_in_block, raw_len);
    }
}

// Turns bits one after the other.
fn turn_bits(cells: &mut [u8], bits: &BlockList)
    requires { All (λ bit. bit < 8 * length cells.old) bits.now }
    ensures { cells.new ≡ fold with_bit_turned cells.old bits.now }
{
    for bit in bits {
        turn_bit(cells, *bit);
    }
}

// Turns one bit. Bit 0 is the highest of byte 0.
fn turn_bit(cells: &mut [u8], bit: u32)
    requires { bit < 8 * length cells.old }
    ensures { cells.new ≡ with_bit_turned cells.old bit }
{
    cells[bit as usize / 8] ^= 1 << (7 - bit % 8);
}
