// What is kept of a boot's commands on one device.
ghost use Rattle.std.specs.Prelude.{◌≡◌, ◌-◌, ◌++◌, ◌∷◌, [], min, sum_by, IfOk, OnOk};
ghost use Rattle.plan_costs.specs.Room.{gaps_less, gaps_of, in_long, lost_of, more_lost, no_troubles, positive, troubles_with};
ghost use Rattle.plan_costs.specs.Kept.{troubles_at, troubles_of};

use plan_index::DeviceSize;
use std::alloc::{AllocError, Global};

/// What is kept of a boot's commands on one device.
#[derive(Drop)]
pub struct DeviceTroubles {
    /// How many sessions the boot had when the last of them came.
    pub sessions: usize,
    /// How many pages of a nandwrite of the last session the weak pages, and the marks of the
    /// sessions before it, may spoil.
    pub elsewhere: u32,
    /// The same with the marks of the last session.
    pub everywhere: u32,
    /// For the nandwrites of the sessions before the last, how many of their blocks nothing may
    /// spoil yet, where there are some.
    pub earlier: Vec<u32>,
    /// The same of the last session.
    pub here: Vec<u32>,
}

impl DeviceTroubles {
    /// Before any command. It takes no memory.
    pub fn new(alloc: Global, size: &DeviceSize, sessions: usize) -> DeviceTroubles
        ensures troubles { troubles_of result ≡ no_troubles size.now }
        ensures sessions { result.sessions ≡ sessions }
    {
        let weak = u32::try_from(size.weak).unwrap_or(u32::MAX);
        DeviceTroubles {
            sessions,
            elsewhere: weak,
            everywhere: weak,
            earlier: Vec::new(alloc),
            here: Vec::new(alloc),
        }
    }

    /// As they are where the boot has so many sessions.
    pub fn at(self, sessions: usize) -> Result<DeviceTroubles, AllocError>
        ensures troubles { IfOk result (λ kept. troubles_of kept ≡ troubles_at sessions self) }
        ensures sessions { IfOk result (λ kept. kept.sessions ≡ sessions) }
    {
        if self.sessions == sessions {
            return Ok(self);
        }
        let mut earlier = self.earlier;
        let mut here = self.here;
        earlier.append(&mut here)?;
        Ok(DeviceTroubles {
            sessions,
            elsewhere: self.everywhere,
            everywhere: self.everywhere,
            earlier,
            here,
        })
    }

    /// With one more command, which may mark so many blocks, and is a nandwrite of so many blocks;
    /// and how many more pages may be lost then, at most 2^64 - 1.
    pub fn with(
        self,
        alloc: Global,
        marks: u32,
        room: Option<u32>,
    ) -> Result<(DeviceTroubles, u64), AllocError>
        ensures troubles { IfOk result (λ found. troubles_of found.0
            ≡ troubles_with marks room (troubles_of self)) }
        ensures sessions { IfOk result (λ found. found.0.sessions ≡ self.sessions) }
        ensures lost { IfOk result (λ found. found.1
            ≡ in_long (more_lost marks room (troubles_of self))) }
    {
        let taken = taken_by(&self.earlier, marks);
        let lost = lost_of(room, self.elsewhere);
        let mut here = self.here;
        push_gap(&mut here, room, self.elsewhere)?;
        let kept = DeviceTroubles {
            sessions: self.sessions,
            elsewhere: self.elsewhere,
            everywhere: self.everywhere.saturating_add(marks),
            earlier: gaps_less(alloc, self.earlier, marks)?,
            here,
        };
        Ok((kept, taken.saturating_add(u64::from(lost))))
    }
}

// How much so many marks take from gaps, at most 2^64 - 1.
fn taken_by(gaps: &[u32], marks: u32) -> u64
    ensures { result ≡ in_long (sum_by (λ gap. min gap marks) gaps.now) }
{
    let mut taken = 0u64;
    if marks != 0 {
        for gap in gaps {
            taken = taken.saturating_add(u64::from((*gap).min(marks)));
        }
    }
    taken
}

// The gaps that so many marks leave.
fn gaps_less(alloc: Global, gaps: Vec<u32>, marks: u32) -> Result<Vec<u32>, AllocError>
    ensures { IfOk result (λ left. left.items ≡ gaps_less marks gaps.items) }
{
    if marks == 0 {
        return Ok(gaps);
    }
    let mut left = Vec::new(alloc);
    for gap in &gaps {
        push_positive(&mut left, gap.saturating_sub(marks))?;
    }
    Ok(left)
}

// Adds a number that is not zero.
fn push_positive(numbers: &mut Vec<u32>, n: u32) -> Result<(), AllocError>
    ensures { OnOk result (numbers.new.items ≡ numbers.old.items ++ positive (n ∷ [])) }
{
    if n != 0 {
        numbers.push(n)?;
    }
    Ok(())
}

// How many pages of a nandwrite of so many blocks may be lost.
fn lost_of(room: Option<u32>, spoilt: u32) -> u32
    ensures { result ≡ lost_of room spoilt }
{
    match room {
        Some(room) => room.min(spoilt),
        None => 0,
    }
}

// Adds the gap of a nandwrite of so many blocks.
fn push_gap(gaps: &mut Vec<u32>, room: Option<u32>, spoilt: u32) -> Result<(), AllocError>
    ensures { OnOk result (gaps.new.items
        ≡ gaps.old.items ++ positive (gaps_of room spoilt)) }
{
    match room {
        Some(room) => push_positive(gaps, room.saturating_sub(spoilt)),
        None => Ok(()),
    }
}
