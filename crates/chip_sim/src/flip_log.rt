// The flips that were made in a chip.
ghost use Rattle.std.specs.Prelude.{◌≡◌, ◌==◌, ◌&&◌, ◌<◌, ◌≤◌, ◌+◌, ◌-◌, ◌^◌, ℕ, min, nat_le, nat_lt, if◌then◌else◌, [], ◌∷◌, ◌++◌, length, slice_index_or, OnOk, IfOk, IfSome, None};
ghost use Rattle.nand_model.specs.Flips.{flips_between};
ghost use Rattle.chip_sim.specs.FlipLog.{LeadBack, bits_at, bits_up_to, flips_of};

use nand_model::BlockList;
use std::alloc::{AllocError, Global};
use std::marker::Model;

/// A flip of a bit, and the place of the flip before it in the same page.
#[derive(Clone, Copy)]
pub struct FlippedBit {
    bit: u32,
    before: Option<usize>,
}

/// The flips of each page since its last good erase, in the order in which they were made.
/// Contracts see them beside the room for more.
///
/// Each page leads to its last flip, and each flip to the one before it in its page, so that an
/// erase and a count reach the flips of their own pages alone. A flip that is forgotten keeps its
/// memory.
#[derive(Drop)]
pub struct FlipLog {
    flips: Vec<FlippedBit>,
    last: Vec<Option<usize>>,
}

impl Model for FlipLog {
    ghost use Rattle.std.specs.Prelude.{◌-◌, map, vec_len, vec_capacity};
    ghost use Rattle.chip_sim.specs.FlipLog.{AreLinked, FlipsAndRoom, bits_at, bits_up_to};

    ghost Value = { FlipsAndRoom };

    ghost view = { λ log. record {
      flips = map (bits_at (bits_up_to log.flips.items)) log.last.items;
      room = vec_capacity log.flips - vec_len log.flips;
    } };

    ghost invariant = { λ log. AreLinked log.flips.items log.last.items };
}

impl FlipLog {
    /// A log without flips, for a chip of so many pages.
    pub fn new(alloc: Global, pages: usize) -> Result<FlipLog, AllocError>
        ensures pages { IfOk result (λ log. length log.flips ≡ pages) }
        ensures flips { IfOk result (λ log. (p : ℕ) → flips_of log.flips p ≡ []) }
    {
        Ok(FlipLog {
            flips: Vec::new(alloc),
            last: vec![in alloc; None; pages]?,
        })
    }

    /// Makes the room at least `bits`. Where memory runs out, it is no less than before.
    pub fn reserve(&mut self, bits: usize) -> Result<(), AllocError>
        ensures room { OnOk result (bits ≤ self.new.room) }
        ensures no_less { self.old.room ≤ self.new.room }
        ensures flips { self.new.flips ≡ self.old.flips }
    {
        self.flips.reserve(bits)
    }

    /// Adds flips of these bits of a page, one after the other.
    pub fn add(&mut self, page: u32, bits: &BlockList)
        requires room { length bits.now ≤ self.old.room }
        requires page { page < length self.old.flips }
        ensures flips { (p : ℕ) → flips_of self.new.flips p
            ≡ (if p == page then flips_of self.old.flips p
            ++ bits.now else flips_of self.old.flips p) }
        ensures pages { length self.new.flips ≡ length self.old.flips }
        ensures room { self.old.room ≡ self.new.room + length bits.now }
    {
        for &bit in bits {
            self.put(page, bit);
        }
    }

    // Adds a flip of this bit of a page.
    fn put(&mut self, page: u32, bit: u32)
        requires room { 0 < self.old.room }
        requires page { page < length self.old.flips }
        ensures flips { (p : ℕ) → flips_of self.new.flips p
            ≡ (if p == page then flips_of self.old.flips p
            ++ bit ∷ [] else flips_of self.old.flips p) }
        ensures pages { length self.new.flips ≡ length self.old.flips }
        ensures room { self.old.room ≡ self.new.room + 1 }
    {
        let before = self.last[page as usize];
        self.last[page as usize] = Some(self.flips.len());
        self.flips.push_reserved(FlippedBit { bit, before });
    }

    /// Forgets the flips of the pages from `first` up to but not including `end`.
    pub fn forget(&mut self, first: u32, end: u32)
        requires order { first ≤ end }
        requires there { end ≤ length self.old.flips }
        ensures flips { (p : ℕ) → flips_of self.new.flips p
            ≡ (if nat_le first p && nat_lt p end then [] else flips_of self.old.flips p) }
        ensures pages { length self.new.flips ≡ length self.old.flips }
        ensures room { self.old.room ≤ self.new.room }
    {
        clear_places(&mut self.last, first as usize, end as usize);
    }

    /// The number of flips of a page in bits `from` up to but not including `to`; 2^32 - 1 where
    /// there are more.
    pub fn count(&self, page: u32, from: u32, to: u32) -> u32
        ensures { result ≡ min (flips_between (flips_of self.now.flips page) from to) (2 ^ 32 - 1) }
    {
        let last = place_at(&self.last, page as usize);
        count_flips(&self.flips, last, from, to)
    }
}

// The place at an index, where there is one.
fn place_at(places: &[Option<usize>], index: usize) -> Option<usize>
    ensures { result ≡ slice_index_or places.now index None }
{
    *places.get(index)?
}

// Clears the places from `first` up to but not including `end`.
fn clear_places(places: &mut [Option<usize>], first: usize, end: usize)
    requires order { first ≤ end }
    requires there { end ≤ length places.old }
    ensures { (index : ℕ) → slice_index_or places.new index None
        ≡ (if nat_le first index && nat_lt index end then None
        else slice_index_or places.old index None) }
{
    for index in first..end {
        places[index] = None;
    }
}

// How many of the flips from the last one of a page back are of bits `from` up to but not including
// `to`; 2^32 - 1 where there are more.
fn count_flips(flips: &[FlippedBit], last: Option<usize>, from: u32, to: u32) -> u32
    requires back { LeadBack flips.now }
    requires there { IfSome last (λ place. place < length flips.now) }
    ensures { result ≡ min (flips_between (bits_at (bits_up_to flips.now) last) from to)
        (2 ^ 32 - 1) }
{
    let mut count = 0u32;
    let mut next = last;
    while let Some(place) = next {
        let flip = flips[place];
        count = count_flip(count, flip, from, to);
        next = flip.before;
    }
    count
}

// The count with one more flip, if it is of a bit from `from` up to but not including `to`.
fn count_flip(count: u32, flip: FlippedBit, from: u32, to: u32) -> u32
    ensures { result ≡ min (count + (if nat_le from flip.bit && nat_lt flip.bit to then 1 else 0))
        (2 ^ 32 - 1) }
{
    if from <= flip.bit && flip.bit < to {
        count.saturating_add(1)
    } else {
        count
    }
}
