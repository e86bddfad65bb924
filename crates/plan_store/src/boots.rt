// The lines of boots, of their faults, sessions and schedules.
ghost use Rattle.std.specs.Prelude.{◌≡◌, ◌≤◌, nat_lt, true, IfOk, IsSome};
ghost use Rattle.std.specs.List.{list_all};
ghost use Rattle.plan_grammar.specs.Rules.{last_of};
ghost use Rattle.plan_grammar.specs.Faults.{boot_line, flip_line, cut_line};
ghost use Rattle.plan_grammar.specs.Sessions.{session_line, schedule_line};
ghost use Rattle.plan_store.specs.Flips.{flip_words};
ghost use Rattle.plan_store.specs.SessionCount.{session_numbers};
ghost use Rattle.plan_words.specs.Answer.{Answers};

use crate::draft::PlanDraft;
use crate::faults::{chip_at, has_bits, has_controller, has_cut};
use crate::places::{has_chip, open_boot, rule, running_boot};
use nand_model::{BlockList, CutAt, Flip, ItemList};
use plan_grammar::{BootLines, FaultLine, PlanKind, SessionLines};
use plan_index::{add_fault, add_session, set_schedule};
use plan_words::{
    LineError, Words, chip_numbers, number, numbers, one_word, positive_number, small_number,
    small_numbers, tear, three_words,
};
use std::alloc::{AllocError, Global};

/// The greatest number of flip lines.
const MOST_FLIPS: u32 = 65_536;

/// The numbers of a flip's line.
#[derive(Drop)]
pub struct FlipWords {
    pub controller: u64,
    pub chip: u64,
    pub page: u32,
    pub before: u32,
    pub bits: BlockList,
}

// The numbers of a flip's line.
#[tactic(auto, unfolding(crate::specs::Flips::flip_words))]
fn flip_words(alloc: Global, words: Words<'_>) -> Result<FlipWords, LineError>
    ensures { Answers result (flip_words words.entry) }
{
    let mut words = words;
    let chip = words.next().ok_or(PlanKind::BadWords)?;
    let page = words.next().ok_or(PlanKind::BadWords)?;
    let before = words.next().ok_or(PlanKind::BadWords)?;
    rule(!words.is_empty(), PlanKind::BadWords)?;
    let (controller, chip) = chip_numbers(chip).ok_or(PlanKind::BadWords)?;
    Ok(FlipWords {
        controller,
        chip,
        page: small_number(page)?,
        before: positive_number(before)?,
        bits: small_numbers(alloc, words)?,
    })
}

// Whether each of these numbers is the number of one of so many sessions.
fn are_sessions(numbers: &ItemList<u64>, count: usize) -> bool
    ensures { result ≡ list_all (λ s. nat_lt s count) numbers.now }
{
    numbers.iter().all(|number| *number < count as u64)
}

// The numbers of at most 64 sessions, in half the memory.
fn short_numbers(alloc: Global, numbers: &ItemList<u64>) -> Result<ItemList<u32>, AllocError>
    requires { list_all (λ s. nat_lt s 64) numbers.now ≡ true }
    ensures { IfOk result (λ short. short ≡ numbers.now) }
{
    let mut short = ItemList::new(alloc);
    for number in numbers {
        short.append(*number as u32)?;
    }
    Ok(short)
}

// The numbers of a schedule's words.
#[tactic(auto, unfolding(crate::specs::SessionCount::session_numbers))]
fn session_numbers(
    alloc: Global,
    words: Words<'_>,
    count: usize,
) -> Result<ItemList<u32>, LineError>
    requires { count ≤ 64 }
    ensures { Answers result (session_numbers count words.entry) }
{
    let numbers = numbers(alloc, words)?;
    rule(are_sessions(&numbers, count), PlanKind::OutOfChip)?;
    Ok(short_numbers(alloc, &numbers)?)
}

impl PlanDraft {
    ghost use Rattle.plan_store.specs.Flips.{flip_rules};

    /// `boot`, where the last controller has a chip.
    #[tactic(auto, unfolding(plan_grammar::specs::Faults::boot_line))]
    pub fn boot_line(self, alloc: Global, words: Words<'_>) -> Result<PlanDraft, LineError>
        ensures { Answers result (boot_line self words.entry) }
    {
        let PlanDraft {
            mut lines,
            hardware,
            flips,
            data,
            costs,
        } = self;
        rule(has_chip(&lines), PlanKind::WrongPlace)?;
        rule(words.is_empty(), PlanKind::BadWords)?;
        rule(lines.boots.len() < 64, PlanKind::TooLarge)?;
        let boot = BootLines {
            faults: ItemList::new(alloc),
            sessions: ItemList::new(alloc),
            schedule: ItemList::new(alloc),
        };
        lines.boots.append(boot)?;
        Ok(PlanDraft {
            lines,
            hardware,
            flips,
            data,
            costs: costs.with_boot(alloc),
        })
    }

    /// `session C`, in a boot.
    #[tactic(auto, unfolding(plan_grammar::specs::Sessions::session_line, plan_grammar::specs::Sessions::session_form))]
    pub fn session_line(self, alloc: Global, words: Words<'_>) -> Result<PlanDraft, LineError>
        ensures { Answers result (session_line self words.entry) }
    {
        let mut draft = self;
        let sessions = running_boot(&draft.lines)?.sessions.len();
        let controller = number(one_word(words)?)?;
        rule(
            has_controller(&draft.lines, controller),
            PlanKind::OutOfChip,
        )?;
        rule(sessions < 64, PlanKind::TooLarge)?;
        let session = SessionLines {
            controller: controller as u32,
            commands: ItemList::new(alloc),
        };
        add_session(&mut draft.lines, session)?;
        Ok(draft)
    }

    /// `flip C.K PAGE BEFORE BIT` and further BITs, in a boot, before its sessions.
    pub fn flip_line(self, alloc: Global, words: Words<'_>) -> Result<PlanDraft, LineError>
        ensures { Answers result (flip_line self words.entry) }
    {
        let _boot = open_boot(&self.lines)?;
        let flip = flip_words(alloc, words)?;
        self.add_flip(flip)
    }

    // Adds a flip by its numbers.
    fn add_flip(self, flip: FlipWords) -> Result<PlanDraft, LineError>
        requires { IsSome (last_of self.boots) }
        ensures { Answers result (flip_rules self flip) }
    {
        let mut draft = self;
        let FlipWords {
            controller,
            chip,
            page,
            before,
            bits,
        } = flip;
        let named = chip_at(&draft.lines, controller, chip).ok_or(PlanKind::OutOfChip)?;
        rule(has_bits(named, page, &bits), PlanKind::OutOfChip)?;
        rule(draft.flips < MOST_FLIPS, PlanKind::TooLarge)?;
        let flip = Flip {
            chip: chip as u32,
            page,
            before,
            bits,
        };
        let fault = FaultLine::Flip {
            controller: controller as u32,
            flip,
        };
        draft.flips += 1;
        add_fault(&mut draft.lines, fault)?;
        Ok(draft)
    }

    /// `cut C EVENT TEAR`, in a boot, before its sessions; a controller has at most one.
    #[tactic(auto, unfolding(plan_grammar::specs::Faults::cut_line, plan_grammar::specs::Faults::cut_form, plan_grammar::specs::Faults::cut_words))]
    pub fn cut_line(self, alloc: Global, words: Words<'_>) -> Result<PlanDraft, LineError>
        ensures { Answers result (cut_line self words.entry) }
    {
        let mut draft = self;
        let boot = open_boot(&draft.lines)?;
        let (controller, event, torn) = three_words(words)?;
        rule(!has_cut(boot, controller), PlanKind::BadWords)?;
        let controller = number(controller)?;
        let event = positive_number(event)?;
        let tear = tear(alloc, torn)?;
        rule(
            has_controller(&draft.lines, controller),
            PlanKind::OutOfChip,
        )?;
        let fault = FaultLine::Cut {
            controller: controller as u32,
            cut: CutAt { event, tear },
        };
        add_fault(&mut draft.lines, fault)?;
        Ok(draft)
    }

    /// `schedule S` and further Ss, in a boot, after its sessions, at most once.
    #[tactic(auto, unfolding(plan_grammar::specs::Sessions::schedule_line, crate::specs::SessionCount::session_numbers))]
    pub fn schedule_line(self, alloc: Global, words: Words<'_>) -> Result<PlanDraft, LineError>
        ensures { Answers result (schedule_line self words.entry) }
    {
        let mut draft = self;
        let sessions = running_boot(&draft.lines)?.sessions.len();
        rule(!words.is_empty(), PlanKind::BadWords)?;
        let schedule = session_numbers(alloc, words, sessions)?;
        set_schedule(&mut draft.lines, schedule);
        Ok(draft)
    }
}
