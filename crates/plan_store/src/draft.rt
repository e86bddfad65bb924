// A plan to which line after line is added.
ghost use Rattle.std.specs.Prelude.{◌≡◌, ◌≤◌, ◌&&◌, ◌||◌, ◌==◌, ◌∷◌, ◌++◌, [], length, nat_lt, nat_le, OnOk};
ghost use Rattle.plan_grammar.specs.Limits.{most_chips, most_pages};
ghost use Rattle.plan_grammar.specs.Rules.{is_empty};
ghost use Rattle.plan_grammar.specs.Grammar.{no_lines};
ghost use Rattle.plan_grammar.specs.Hardware.{header_line, controller_line, chip_line, bad_line, weak_line, bus_line, part_line, is_version, is_hardware, has_chip};
ghost use Rattle.std.specs.Option.{option_copied, option_map};
ghost use Rattle.plan_grammar.specs.Devices.{data_named, device_at};
ghost use Rattle.plan_grammar.specs.Faults.{chip_at};
ghost use Rattle.plan_index.specs.Devices.{size_of};
ghost use Rattle.plan_words.specs.Answer.{Answers};

use crate::commands::size_at;
use crate::faults::{chip_at, page_count};
use crate::geometry::sizes;
use crate::hardware::HardwareIndex;
use crate::places::{has_chip, is_hardware, last_chip, last_chips, open_chip, rule};
use nand_model::{Geometry, ItemList, Weak};
use plan_costs::CostIndex;
use plan_grammar::{ChipLines, DataLine, DetailLine, PlanKind, PlanLines};
use plan_index::{ChipMarks, DataIndex, DeviceSize, add_chip, add_detail, add_part};
use plan_words::{
    LineError, Words, four_words, one_word, small_number, small_numbers, tear, two_words, weak_kind,
};
use std::alloc::{AllocError, Global};
use std::marker::Model;

/// A plan to which line after line is added. Contracts see it as its lines.
#[derive(Drop)]
pub struct PlanDraft {
    pub(crate) lines: PlanLines,
    pub(crate) hardware: HardwareIndex,
    pub(crate) flips: u32,
    pub(crate) data: DataIndex,
    pub(crate) costs: CostIndex,
}

impl Model for PlanDraft {
    ghost use Rattle.plan_grammar.specs.declared.lines.PlanLines.{PlanLines};

    ghost Value = { PlanLines };

    ghost use Rattle.plan_store.specs.InStep.{InStep};

    ghost view = { λ d. d.lines };

    ghost invariant = { λ d. InStep d };
}

impl PlanDraft {
    /// A plan without lines. It takes no memory.
    pub fn new(alloc: Global) -> PlanDraft
        ensures { result ≡ no_lines }
    {
        PlanDraft {
            lines: PlanLines {
                begun: false,
                controllers: ItemList::new(alloc),
                payloads: ItemList::new(alloc),
                boots: ItemList::new(alloc),
            },
            hardware: HardwareIndex::new(alloc),
            flips: 0,
            data: DataIndex::new(alloc),
            costs: CostIndex::new(alloc),
        }
    }

    /// Lends its lines.
    pub fn lines(&self) -> &PlanLines
        ensures { result.now ≡ self.now }
    {
        &self.lines
    }

    /// Its lines.
    pub fn into_lines(self) -> PlanLines
        ensures { result ≡ self }
    {
        self.lines
    }

    /// Lends the line of data of a NAME, which no list is searched for. None comes exactly where no
    /// line has it.
    pub fn payload(&self, name: &[u8]) -> Option<&DataLine>
        ensures { option_copied result ≡ data_named self.now name.now }
    {
        let at = self.data.find(name)?;
        Some(self.lines.payloads.get(at.place))
    }

    /// Lends the lines of a chip of a controller, both counted from 0. None comes exactly where there
    /// is no such chip.
    pub fn chip(&self, controller: u64, chip: u64) -> Option<&ChipLines>
        ensures { option_copied result ≡ chip_at self.now (controller, chip) }
    {
        chip_at(&self.lines, controller, chip)
    }

    /// Lends what commands need of the device of a number, counted from 0. None comes exactly where
    /// there is no such device.
    pub fn device(&self, dev: u64) -> Option<&DeviceSize>
        ensures { option_copied result ≡ option_map size_of (device_at self.now dev) }
    {
        size_at(&self.hardware.devices, dev)
    }

    /// The header, `nandlab 1`: the first line with words.
    #[tactic(auto, unfolding(plan_grammar::specs::Hardware::header_line))]
    pub fn header_line(self, words: Words<'_>) -> Result<PlanDraft, LineError>
        ensures { Answers result (header_line self words.entry) }
    {
        let mut draft = self;
        rule(!draft.lines.begun, PlanKind::WrongPlace)?;
        rule(is_version(words), PlanKind::BadWords)?;
        draft.lines.begun = true;
        Ok(draft)
    }

    /// `controller`, after the header or a controller that has a chip.
    #[tactic(auto, unfolding(plan_grammar::specs::Hardware::controller_line))]
    pub fn controller_line(self, alloc: Global, words: Words<'_>) -> Result<PlanDraft, LineError>
        ensures { Answers result (controller_line self words.entry) }
    {
        let mut draft = self;
        rule(may_begin_controller(&draft.lines), PlanKind::WrongPlace)?;
        rule(words.is_empty(), PlanKind::BadWords)?;
        rule(draft.lines.controllers.len() < 8, PlanKind::TooLarge)?;
        draft.lines.controllers.append(ItemList::new(alloc))?;
        Ok(draft)
    }

    /// `chip PAGE SPARE PPB BLOCKS T BBT` and optionally `THRESHOLD`, in a controller.
    #[tactic(auto, unfolding(plan_grammar::specs::Hardware::chip_line))]
    pub fn chip_line(self, alloc: Global, words: Words<'_>) -> Result<PlanDraft, LineError>
        ensures { Answers result (chip_line self words.entry) }
    {
        let PlanDraft {
            mut lines,
            mut hardware,
            flips,
            data,
            costs,
        } = self;
        rule(is_hardware(&lines), PlanKind::WrongPlace)?;
        let chips = last_chips(&lines)?.len();
        rule(has_chip_words(words.len()), PlanKind::BadWords)?;
        let numbers = small_numbers(alloc, words)?.into_vec();
        let geometry = sizes(&numbers)?;
        hardware.pages += page_count(&geometry);
        rule(chip_fits(chips, hardware.pages), PlanKind::TooLarge)?;
        let chip = ChipLines {
            geometry,
            details: ItemList::new(alloc),
            parts: ItemList::new(alloc),
        };
        hardware.marks = ChipMarks::new(alloc, &chip)?;
        add_chip(&mut lines, chip)?;
        Ok(PlanDraft {
            lines,
            hardware,
            flips,
            data,
            costs,
        })
    }

    /// `bad BLOCK` and further BLOCKs, after a chip, before its parts.
    #[tactic(auto, unfolding(plan_grammar::specs::Hardware::bad_line))]
    pub fn bad_line(self, alloc: Global, words: Words<'_>) -> Result<PlanDraft, LineError>
        ensures { Answers result (bad_line self words.entry) }
    {
        let PlanDraft {
            mut lines,
            mut hardware,
            flips,
            data,
            costs,
        } = self;
        let chip = open_chip(&lines)?;
        rule(!words.is_empty(), PlanKind::BadWords)?;
        let blocks = small_numbers(alloc, words)?;
        hardware.marks = hardware.marks.add_bad(chip, &blocks)?;
        add_detail(&mut lines, DetailLine::Bad(blocks))?;
        Ok(PlanDraft {
            lines,
            hardware,
            flips,
            data,
            costs,
        })
    }

    /// `weak program PAGE AFTER TEAR` or `weak erase BLOCK AFTER TEAR`, after a chip, before its
    /// parts.
    #[tactic(auto, unfolding(plan_grammar::specs::Hardware::weak_line, plan_grammar::specs::Hardware::weak_form, plan_grammar::specs::Hardware::weak_words))]
    pub fn weak_line(self, alloc: Global, words: Words<'_>) -> Result<PlanDraft, LineError>
        ensures { Answers result (weak_line self words.entry) }
    {
        let PlanDraft {
            mut lines,
            mut hardware,
            flips,
            data,
            costs,
        } = self;
        let chip = open_chip(&lines)?;
        let (kind, at, after, torn) = four_words(words)?;
        let weak = Weak {
            kind: weak_kind(kind).ok_or(PlanKind::BadWords)?,
            at: small_number(at)?,
            after: small_number(after)?,
            tear: tear(alloc, torn)?,
        };
        hardware.marks = hardware.marks.add_weak(chip, &weak)?;
        add_detail(&mut lines, DetailLine::Weak(weak))?;
        Ok(PlanDraft {
            lines,
            hardware,
            flips,
            data,
            costs,
        })
    }

    /// `bus`, after a chip, before its parts, at most once.
    #[tactic(auto, unfolding(plan_grammar::specs::Hardware::bus_line))]
    pub fn bus_line(self, words: Words<'_>) -> Result<PlanDraft, LineError>
        ensures { Answers result (bus_line self words.entry) }
    {
        let PlanDraft {
            mut lines,
            mut hardware,
            flips,
            data,
            costs,
        } = self;
        let chip = open_chip(&lines)?;
        rule(words.is_empty(), PlanKind::BadWords)?;
        hardware.marks = hardware.marks.add_bus(chip)?;
        add_detail(&mut lines, DetailLine::Bus)?;
        Ok(PlanDraft {
            lines,
            hardware,
            flips,
            data,
            costs,
        })
    }

    /// `part START COUNT`, after a chip.
    #[tactic(auto, unfolding(plan_grammar::specs::Hardware::part_line, plan_grammar::specs::Hardware::part_form, plan_grammar::specs::Hardware::part_words))]
    pub fn part_line(self, words: Words<'_>) -> Result<PlanDraft, LineError>
        ensures { Answers result (part_line self words.entry) }
    {
        let PlanDraft {
            mut lines,
            mut hardware,
            flips,
            data,
            costs,
        } = self;
        rule(is_hardware(&lines), PlanKind::WrongPlace)?;
        let chip = last_chip(&lines)?;
        let (start, count) = two_words(words)?;
        let start = small_number(start)?;
        let count = small_number(count)?;
        let (part, marks) = hardware.marks.add_part(chip, start, count)?;
        let device = DeviceSize {
            controller: lines.controllers.len() - 1,
            geometry: chip.geometry,
            blocks: part.count,
            weak: marks.weak_programs,
        };
        hardware.marks = marks;
        push_device(&mut hardware.devices, device)?;
        add_part(&mut lines, part)?;
        Ok(PlanDraft {
            lines,
            hardware,
            flips,
            data,
            costs,
        })
    }
}

/// The greatest number of pages of all chips.
const MOST_PAGES: u32 = 524_288;

// Adds a device.
fn push_device(devices: &mut Vec<DeviceSize>, device: DeviceSize) -> Result<(), AllocError>
    ensures { OnOk result (devices.new.items ≡ devices.old.items ++ device ∷ []) }
{
    devices.push(device)?;
    Ok(())
}

// A chip's line has six or seven words.
fn has_chip_words(count: usize) -> bool
    ensures { result ≡ (count == 6 || count == 7) }
{
    count == 6 || count == 7
}

// Whether a controller of so many chips has room for another one, with which all chips have so many
// pages.
fn chip_fits(chips: usize, pages: u32) -> bool
    ensures { result ≡ (nat_lt chips most_chips && nat_le pages most_pages) }
{
    chips < 8 && pages <= MOST_PAGES
}

// Whether a controller may begin.
fn may_begin_controller(lines: &PlanLines) -> bool
    ensures { result ≡ (lines.now.begun && is_hardware lines.now
        && (is_empty lines.now.controllers || has_chip lines.now)) }
{
    lines.begun && is_hardware(lines) && (lines.controllers.len() == 0 || has_chip(lines))
}

// The only word is a number of value 1.
#[tactic(auto, unfolding(plan_grammar::specs::Forms::one_word))]
fn is_version(words: Words<'_>) -> bool
    ensures { result ≡ is_version words.entry }
{
    match one_word(words) {
        Ok(word) => lab_text::number(word) == Some(1),
        Err(_) => false,
    }
}
