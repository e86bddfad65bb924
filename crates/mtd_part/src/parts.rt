// The partitions of one controller.
ghost use Rattle.std.specs.Prelude.{◌≡◌, ◌↔◌, ◌+◌, ◌-◌, ◌*◌, ◌^◌, ◌<◌, ◌≤◌, ◌++◌, ◌∷◌, [], length, Any, IsTrue, IsSome, IfSome, IfOk, OnOk, OnErr, false, SomeIff, option_copied};
ghost use Rattle.mtd_part.specs.Blocks.{SharesBlock, LeavesChip, AreApart, with_part};
ghost use Rattle.nand_model.specs.Partitions.{LiesWithin};

use nand_model::Part;
use std::alloc::{AllocFailed, Global};
use std::marker::Model;
use thiserror::Error;

/// The partitions of a controller by device number, from a first number on. No two of them share a
/// block (after Linux's mtdpart).
#[derive(Drop)]
pub struct Parts {
    lowest: u32,
    items: Vec<Part>,
}

/// Why a partition is refused.
#[derive(Clone, Copy, Debug, PartialEq, Eq, Error)]
pub enum PartError {
    /// The partition has no block, or passes the end of its chip.
    #[error("the partition leaves its chip")]
    OutOfChip,
    /// A block of it is in an earlier partition.
    #[error("the partition overlaps an earlier one")]
    Overlap,
    /// There is no memory for the partition.
    #[error("out of memory")]
    Memory,
}

impl<T: Drop> From<AllocFailed<T>> for PartError {
    ghost use Rattle.mtd_part.specs.declared.parts.PartError.TheVariants.{Memory};

    ghost from_gives = { λ _ e. e ≡ Memory };

    fn from(_e: AllocFailed<T>) -> PartError {
        PartError::Memory
    }
}

impl Model for Parts {
    ghost use Rattle.nand_model.specs.Partitions.{Partitions};
    ghost use Rattle.mtd_part.specs.Blocks.{ArePartitions};

    ghost Value = { Partitions };

    ghost view = { λ p. record { first = p.lowest; parts = p.items.items } };

    ghost invariant = { λ p. ArePartitions p.lowest p.items.items };
}

impl Parts {
    ghost use Rattle.nand_model.specs.Partitions.{part_of};

    /// No partition yet; the first one added gets the device number `first`. It takes no memory.
    pub fn new(alloc: Global, first: u32) -> Parts
        ensures { result ≡ record { first = first; parts = [] } }
    {
        Parts {
            lowest: first,
            items: Vec::new(alloc),
        }
    }

    /// Adds a partition of a chip that has so many blocks, and gives its device number. Where it is
    /// refused, the partitions are as before.
    pub fn add(&mut self, part: Part, blocks: u32) -> Result<u32, PartError>
        requires blocks { blocks ≤ 4096 }
        requires numbers { self.old.first + length self.old.parts < 2 ^ 32 - 1 }
        ensures out_of_chip { (result ≡ Err PartError.OutOfChip) ↔ LeavesChip blocks part }

        // A partition that leaves its chip is refused as such, also where it overlaps another.
        ensures overlap { (result ≡ Err PartError.Overlap)
            ↔ (LiesWithin blocks part × Any (SharesBlock part) self.old.parts) }
        ensures number { IfOk result (λ dev. dev ≡ self.old.first + length self.old.parts) }
        ensures added { OnOk result (self.new ≡ with_part self.old part) }
        ensures apart { AreApart self.new.parts }
        ensures refused { OnErr result (self.new ≡ self.old) }
    {
        let dev = self.lowest + self.items.len() as u32;
        if !lies_within(&part, blocks) {
            return Err(PartError::OutOfChip);
        }
        if overlaps(&self.items, &part) {
            return Err(PartError::Overlap);
        }
        self.items.push(part)?;
        Ok(dev)
    }

    /// The number of the first device.
    pub fn first(&self) -> u32
        ensures { result ≡ self.now.first }
    {
        self.lowest
    }

    /// The number of devices. Their numbers fit a `u32`.
    pub fn len(&self) -> usize
        ensures count { result ≡ length self.now.parts }
        ensures numbers { self.now.first + result < 2 ^ 32 }
    {
        self.items.len()
    }

    /// A device's partition. None comes exactly where there is no such device.
    pub fn get(&self, dev: u32) -> Option<&Part>
        ensures lent { option_copied result ≡ part_of self.now dev }
        ensures within { IfSome result (λ part. LiesWithin 4096 part.now) }
        ensures apart { AreApart self.now.parts }
    {
        if dev < self.lowest {
            return None;
        }
        self.items.get((dev - self.lowest) as usize)
    }

    /// The chip's block of a block of a device. None comes exactly where the number is not below
    /// the partition's.
    pub fn block(&self, dev: u32, block: u32) -> Option<u32>
        requires { IsSome (part_of self.now dev) }
        ensures { IfSome (part_of self.now dev)
            (λ part. SomeIff result (block < part.count) (part.start + block)) }
    {
        let part = self.part(dev);
        if block < part.count {
            Some(part.start + block)
        } else {
            None
        }
    }

    /// The chip's page of a page of a device. None comes exactly where the number is not below the
    /// partition's.
    pub fn page(&self, dev: u32, page: u32, pages_per_block: u32) -> Option<u32>
        requires device { IsSome (part_of self.now dev) }
        requires pages { pages_per_block ≤ 128 }
        ensures { IfSome (part_of self.now dev)
            (λ part. SomeIff result (page < part.count * pages_per_block)
            (part.start * pages_per_block + page)) }
    {
        let part = self.part(dev);
        if page < part.count * pages_per_block {
            Some(part.start * pages_per_block + page)
        } else {
            None
        }
    }

    // The partition of a device that is there.
    fn part(&self, dev: u32) -> &Part
        requires { IsSome (part_of self.now dev) }
        ensures lent { part_of self.now dev ≡ Some result.now }
        ensures within { LiesWithin 4096 result.now }
    {
        &self.items[(dev - self.lowest) as usize]
    }
}

// The partition has a block, and ends within a chip of so many blocks.
fn lies_within(part: &Part, blocks: u32) -> bool
    ensures within { IsTrue result → LiesWithin blocks part.now }
    ensures outside { (result ≡ false) → LeavesChip blocks part.now }
{
    part.count > 0 && u64::from(part.start) + u64::from(part.count) <= u64::from(blocks)
}

// Some block of this partition is in an earlier one.
fn overlaps(earlier: &[Part], part: &Part) -> bool
    ensures { IsTrue result ↔ Any (SharesBlock part.now) earlier.now }
{
    for other in earlier {
        if shares_block(part, other) {
            return true;
        }
    }
    false
}

// Some block is in both partitions.
fn shares_block(one: &Part, other: &Part) -> bool
    ensures { IsTrue result ↔ SharesBlock one.now other.now }
{
    let start = one.start.max(other.start);
    let one_end = u64::from(one.start) + u64::from(one.count);
    let other_end = u64::from(other.start) + u64::from(other.count);
    one.chip == other.chip && u64::from(start) < one_end.min(other_end)
}

#[cfg(test)]
mod tests {
    use super::*;
    use std::test::Fail;

    #[test]
    fn adds_and_translates(rt: HostRuntime) -> Result<(), Fail> {
        let mut parts = Parts::new(rt.alloc(), 3);
        let rows = [
            ((0, 0, 4), Ok(3)),
            ((0, 4, 12), Ok(4)),
            ((1, 4, 12), Ok(5)),
            ((0, 3, 2), Err(PartError::Overlap)),
            ((0, 15, 1), Err(PartError::Overlap)),
            ((1, 0, 4), Ok(6)),
            ((1, 16, 1), Err(PartError::OutOfChip)),
            ((1, 2, 0), Err(PartError::OutOfChip)),
        ];
        for ((chip, start, count), answer) in rows {
            let part = Part { chip, start, count };
            assert_eq!(rt; parts.add(part, 16), answer);
        }
        Ok(())
    }
}
