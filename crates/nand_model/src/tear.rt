// Which bits of a torn program or erase were done.
ghost use Rattle.std.specs.Prelude.{◌≡◌};
ghost use Rattle.nand_model.specs.Seeds.{split_mix};

use crate::list::{SpanList, covers};

/// Which bits of a torn program or erase were done. It is this project's own.
#[derive(Drop)]
pub enum Tear {
    /// None.
    Nothing,
    /// All.
    Everything,
    /// In byte i of page q of a block, the seed byte of this seed at q times the bytes of a raw
    /// page, plus i.
    Seed(u64),
    /// All bits of the bytes in these spans, each from its first byte up to but not including its
    /// second, and none elsewhere.
    Spans(SpanList),
}

/// The number of a seed and an index: SplitMix64, modulo 2^64.
pub fn mix(seed: u64, index: u64) -> u64
    ensures { result ≡ split_mix seed index }
{
    let z = seed.wrapping_add(index.wrapping_add(1).wrapping_mul(0x9e3779b97f4a7c15));
    let z = (z ^ (z >> 30)).wrapping_mul(0xbf58476d1ce4e5b9);
    let z = (z ^ (z >> 27)).wrapping_mul(0x94d049bb133111eb);
    z ^ (z >> 31)
}

impl Tear {
    ghost use Rattle.nand_model.specs.Chip.{done_bits};

    /// The bits that were done in a byte: byte `offset` of page `page_in_block` of a block (0 for a
    /// program), in pages of `raw_len` bytes.
    pub fn done(&self, offset: u32, page_in_block: u32, raw_len: u32) -> u8
        ensures { result ≡ done_bits raw_len self.now page_in_block offset }
    {
        match self {
            Tear::Nothing => 0,
            Tear::Everything => 0xff,
            Tear::Seed(seed) => {
                let index = u64::from(page_in_block) * u64::from(raw_len) + u64::from(offset);
                (mix(*seed, index) & 0xff) as u8
            }
            Tear::Spans(spans) => { if covers(spans, offset) { 0xff } else { 0 } }
        }
    }
}
