// Which places of the chip whose lines may still come are taken.
ghost use Rattle.std.specs.Prelude.{◌≡◌, ◌∷◌, ◌++◌, ◌<◌, ◌≤◌, ◌||◌, ◌+◌, ◌-◌, ◌^◌, ◌==◌, if◌then◌else◌, [], ℕ, List, Ok, Err, true, false, length, count_by, slice_set, not, nat_lt, MatchResult, MatchOption, MatchBool, IfOk};
ghost use Rattle.std.specs.List.{list_all};
ghost use Rattle.std.specs.Bool.{OnTrue};
ghost use Rattle.plan_grammar.specs.Devices.{are_different, has_number};
ghost use Rattle.plan_grammar.specs.Hardware.{leaves_table_blocks, part_in_force};
ghost use Rattle.nand_model.specs.declared.words.Weak.{Weak as WeakPlace};
ghost use Rattle.nand_model.specs.declared.words.WeakKind.TheVariants.{Program, Erase};
ghost use Rattle.plan_grammar.specs.declared.lines.DetailLine.TheVariants.{Bad, Weak as WeakAt, Bus};
ghost use Rattle.plan_index.specs.Places.{Tells, flag_at, IsFreeRun, IsTakenRun, HasRun};
ghost use Rattle.plan_index.specs.Chip.{IsMarked, bad_rules, weak_rules, bus_rules, part_rules, with_detail_line, with_part_line};

use nand_model::{BlockList, Geometry, Weak, WeakKind};
use plan_grammar::{ChipLines, PartLine, PlanKind};
use std::alloc::{AllocError, Global};

/// What the lines of a chip have named: a flag for each block or page, and one for its bus.
#[derive(Drop)]
pub struct ChipMarks {
    /// Its bad blocks.
    pub bad: Vec<bool>,
    /// Its weak pages.
    pub programs: Vec<bool>,
    /// Its weak blocks.
    pub erases: Vec<bool>,
    /// The blocks of its partitions.
    pub used: Vec<bool>,
    /// How many weak pages it has.
    pub weak_programs: usize,
    /// Whether it is behind a bus.
    pub bus: bool,
}

impl ChipMarks {
    /// No marks, of no chip. It takes no memory.
    pub fn none(alloc: Global) -> ChipMarks {
        ChipMarks {
            bad: Vec::new(alloc),
            programs: Vec::new(alloc),
            erases: Vec::new(alloc),
            used: Vec::new(alloc),
            weak_programs: 0,
            bus: false,
        }
    }

    /// The marks of a chip of which no other line has told anything yet.
    pub fn new(alloc: Global, chip: &ChipLines) -> Result<ChipMarks, AllocError>
        requires details { chip.now.details ≡ [] }
        requires parts { chip.now.parts ≡ [] }
        ensures { IfOk result (λ marks. IsMarked chip.now marks) }
    {
        let blocks = chip.geometry.blocks as usize;
        let pages = blocks * chip.geometry.pages_per_block as usize;
        Ok(ChipMarks {
            bad: vec![in alloc; false; blocks]?,
            programs: vec![in alloc; false; pages]?,
            erases: vec![in alloc; false; blocks]?,
            used: vec![in alloc; false; blocks]?,
            weak_programs: 0,
            bus: false,
        })
    }

    /// Marks a line of bad blocks. `OutOfChip` comes exactly where a block is not the chip's,
    /// otherwise `TooFewTableBlocks` where too few of its last four are good, otherwise `Overlap`
    /// where one is bad twice.
    pub fn add_bad(self, chip: &ChipLines, blocks: &BlockList) -> Result<ChipMarks, PlanKind>
        requires { IsMarked chip.now self }
        ensures { MatchResult result
            (λ marks. (bad_rules chip.now blocks.now ≡ Ok tt)
            × IsMarked (with_detail_line (Bad blocks.now) chip.now) marks)
            (λ kind. bad_rules chip.now blocks.now ≡ Err kind) }
    {
        if !are_below(blocks, chip.geometry.blocks) {
            return Err(PlanKind::OutOfChip);
        }
        if !leaves_table_blocks(&chip.geometry, &self.bad, blocks) {
            return Err(PlanKind::TooFewTableBlocks);
        }
        match with_places(self.bad, blocks) {
            Some(bad) => Ok(ChipMarks { bad, ..self }),
            None => Err(PlanKind::Overlap),
        }
    }

    /// Marks a weak place. `OutOfChip` comes exactly where the page or block is not the chip's,
    /// otherwise `Overlap` where it is weak already.
    pub fn add_weak(self, chip: &ChipLines, weak: &Weak) -> Result<ChipMarks, PlanKind>
        requires { IsMarked chip.now self }
        ensures { MatchResult result (λ marks. (weak_rules chip.now weak.now ≡ Ok tt)
            × IsMarked (with_detail_line (WeakAt weak.now) chip.now) marks)
            (λ kind. weak_rules chip.now weak.now ≡ Err kind) }
    {
        match weak.kind {
            WeakKind::Program => self.add_weak_page(chip, weak.at),
            WeakKind::Erase => self.add_weak_block(chip, weak.at),
        }
    }

    // Marks a page whose program fails.
    fn add_weak_page(self, chip: &ChipLines, page: u32) -> Result<ChipMarks, PlanKind>
        requires { IsMarked chip.now self }
        ensures { (weak : WeakPlace) → weak.kind ≡ Program → weak.at ≡ page → MatchResult result
            (λ marks. (weak_rules chip.now weak ≡ Ok tt)
            × IsMarked (with_detail_line (WeakAt weak) chip.now) marks)
            (λ kind. weak_rules chip.now weak ≡ Err kind) }
    {
        if page as usize >= self.programs.len() {
            return Err(PlanKind::OutOfChip);
        }
        let mut programs = self.programs;
        if !take_place(&mut programs, page) {
            return Err(PlanKind::Overlap);
        }
        Ok(ChipMarks {
            programs,
            weak_programs: self.weak_programs + 1,
            ..self
        })
    }

    // Marks a block whose erase fails.
    fn add_weak_block(self, chip: &ChipLines, block: u32) -> Result<ChipMarks, PlanKind>
        requires { IsMarked chip.now self }
        ensures { (weak : WeakPlace) → weak.kind ≡ Erase → weak.at ≡ block → MatchResult result
            (λ marks. (weak_rules chip.now weak ≡ Ok tt)
            × IsMarked (with_detail_line (WeakAt weak) chip.now) marks)
            (λ kind. weak_rules chip.now weak ≡ Err kind) }
    {
        if block >= chip.geometry.blocks {
            return Err(PlanKind::OutOfChip);
        }
        let mut erases = self.erases;
        if !take_place(&mut erases, block) {
            return Err(PlanKind::Overlap);
        }
        Ok(ChipMarks { erases, ..self })
    }

    /// Marks the line of a bus. `BadWords` comes exactly where the chip has one already.
    pub fn add_bus(self, chip: &ChipLines) -> Result<ChipMarks, PlanKind>
        requires { IsMarked chip.now self }
        ensures { MatchResult result
            (λ marks. (bus_rules chip.now ≡ Ok tt) × IsMarked (with_detail_line Bus chip.now) marks)
            (λ kind. bus_rules chip.now ≡ Err kind) }
    {
        if self.bus {
            return Err(PlanKind::BadWords);
        }
        Ok(ChipMarks { bus: true, ..self })
    }

    /// Marks the blocks of a partition, of which a count of 0 means to the end, and gives it as it
    /// is in force. `OutOfChip` comes exactly where it begins or ends past the chip's end,
    /// otherwise `Overlap` where it shares a block with an earlier one.
    pub fn add_part(
        self,
        chip: &ChipLines,
        start: u32,
        count: u32,
    ) -> Result<(PartLine, ChipMarks), PlanKind>
        requires { IsMarked chip.now self }
        ensures { MatchResult result (λ made. (part_rules chip.now start count ≡ Ok tt)
            × (made.0 ≡ part_in_force chip.now start count)
            × IsMarked (with_part_line made.0 chip.now) made.1)
            (λ kind. part_rules chip.now start count ≡ Err kind) }
    {
        let all = chip.geometry.blocks;
        if start >= all || count > all - start {
            return Err(PlanKind::OutOfChip);
        }
        let count = count_in_force(all, start, count);
        match with_run(self.used, start, count) {
            Some(used) => Ok((PartLine { start, count }, ChipMarks { used, ..self })),
            None => Err(PlanKind::Overlap),
        }
    }
}

// A count of 0 means to the end.
fn count_in_force(all: u32, start: u32, count: u32) -> u32
    requires { start ≤ all }
    ensures { result ≡ (if count == 0 then all - start else count) }
{
    if count == 0 { all - start } else { count }
}

// Whether numbers are below a limit.
fn are_below(numbers: &BlockList, limit: u32) -> bool
    ensures { result ≡ list_all (λ n. nat_lt n limit) numbers.now }
{
    numbers.iter().all(|number| *number < limit)
}

// The flag of a place.
fn has_flag(flags: &[bool], place: u32) -> bool
    requires { place < length flags.now }
    ensures { result ≡ flag_at flags.now place }
{
    flags[place as usize]
}

// Whether a number is among these.
fn has_number(numbers: &BlockList, n: u32) -> bool
    ensures { result ≡ has_number numbers.now n }
{
    numbers.iter().any(|number| *number == n)
}

// Whether a chip has enough good blocks for its tables, with the bad ones of these flags and of
// these blocks.
fn leaves_table_blocks(g: &Geometry, flags: &[bool], blocks: &BlockList) -> bool
    requires { length flags.now ≡ g.now.blocks }
    ensures { (xs : List ℕ) → Tells flags.now g.now.blocks (has_number xs)
        → result ≡ leaves_table_blocks g.now (xs ++ blocks.now) }
{
    let first = g.blocks - 4;
    let last_four = [first, first + 1, first + 2, first + 3];
    let bad = last_four
        .iter()
        .filter(|block| has_flag(flags, **block) || has_number(blocks, **block))
        .count();
    g.bbt == 0 || bad <= 2
}

// Gives a place its flag, and tells whether it had none.
fn take_place(flags: &mut [bool], place: u32) -> bool
    requires { place < length flags.old }
    ensures free { result ≡ not (flag_at flags.old place) }
    ensures taken { flags.new ≡ slice_set flags.old place true }
{
    let flag = &mut flags[place as usize];
    let free = !*flag;
    *flag = true;
    free
}

// Gives these places their flags, up to the first that has its flag already, and tells whether none
// had.
fn take_places(flags: &mut [bool], places: &BlockList) -> bool
    requires { list_all (λ n. nat_lt n (length flags.old)) places.now ≡ true }
    ensures { (xs : List ℕ) → Tells flags.old (length flags.old) (has_number xs)
        → are_different xs ≡ true → (result ≡ are_different (xs ++ places.now))
        × OnTrue result (Tells flags.new (length flags.old) (has_number (xs ++ places.now))) }
{
    for place in places {
        if !take_place(flags, *place) {
            return false;
        }
    }
    true
}

// The flags with these places too; None exactly where one of them has its flag already, or comes
// twice.
fn with_places(flags: Vec<bool>, places: &BlockList) -> Option<Vec<bool>>
    requires { list_all (λ n. nat_lt n (length flags.items)) places.now ≡ true }
    ensures { (xs : List ℕ) → Tells flags.items (length flags.items) (has_number xs)
        → are_different xs ≡ true → MatchOption result (are_different (xs ++ places.now) ≡ false)
        (λ new. (are_different (xs ++ places.now) ≡ true)
        × Tells new.items (length flags.items) (has_number (xs ++ places.now))) }
{
    let mut flags = flags;
    if take_places(&mut flags, places) {
        Some(flags)
    } else {
        None
    }
}

// Gives so many places from one on their flags, up to the first that has its flag already, and
// tells whether none had.
fn take_run(flags: &mut [bool], start: u32, count: u32) -> bool
    requires within { start + count ≤ length flags.old }
    requires fits { start + count < 2 ^ 32 }
    ensures free { MatchBool result (IsFreeRun flags.old start count)
        (IsTakenRun flags.old start count) }
    ensures taken { OnTrue result (HasRun flags.old flags.new start (start + count)) }
    ensures len { length flags.new ≡ length flags.old }
{
    for place in start..start + count {
        if !take_place(flags, place) {
            return false;
        }
    }
    true
}

// The flags with so many places from one on too; None exactly where one of them has its flag
// already.
fn with_run(flags: Vec<bool>, start: u32, count: u32) -> Option<Vec<bool>>
    requires within { start + count ≤ length flags.items }
    requires fits { start + count < 2 ^ 32 }
    ensures { MatchOption result (IsTakenRun flags.items start count)
        (λ new. IsFreeRun flags.items start count × (length new.items ≡ length flags.items)
        × HasRun flags.items new.items start (start + count)) }
{
    let mut flags = flags;
    if take_run(&mut flags, start, count) {
        Some(flags)
    } else {
        None
    }
}
