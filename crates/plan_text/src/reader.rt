// The reader of plans.
ghost use Rattle.std.specs.Prelude.{◌≡◌, ◌<◌, ◌≤◌, [], length, MatchOption, MatchResult, IfOk, IfErr};
ghost use Rattle.lab_text.specs.Text.{line_length, lines_of, longest_line};
ghost use Rattle.plan_grammar.specs.Grammar.{IsPlan, line, line_by_kind, line_words};
ghost use Rattle.plan_grammar.specs.Limits.{most_bytes};
ghost use Rattle.plan_grammar.specs.Meaning.{plan_of};
ghost use Rattle.plan_laws.specs.Within.{IsWithinLimits};
ghost use Rattle.plan_words.specs.Answer.{Answers};
ghost use Rattle.plan_text.specs.Reading.{IsFirstLine, IsReadUpTo, IsRefusalOf, LeadsOn, StopsFor, refusal};

use crate::error::PlanError;
use crate::plan::Plan;
use lab_text::line_end;
use plan_commands::line_kind;
use plan_grammar::{LineKind, PlanKind};
use plan_store::PlanDraft;
use plan_words::{LineError, Words, are_allowed};
use std::alloc::Global;

/// The greatest number of bytes of a plan.
const MOST_BYTES: usize = 16_777_216;

// What a line of a kind adds, by the words after the first.
fn add_kind(
    draft: PlanDraft,
    alloc: Global,
    kind: LineKind,
    words: Words<'_>,
) -> Result<PlanDraft, LineError>
    ensures { Answers result (line_by_kind kind draft words.entry) }
{
    match kind {
        LineKind::Header => draft.header_line(words),
        LineKind::Controller => draft.controller_line(alloc, words),
        LineKind::Chip => draft.chip_line(alloc, words),
        LineKind::Bad => draft.bad_line(alloc, words),
        LineKind::Weak => draft.weak_line(alloc, words),
        LineKind::Bus => draft.bus_line(words),
        LineKind::Part => draft.part_line(words),
        LineKind::Data => draft.data_line(alloc, words),
        LineKind::Boot => draft.boot_line(alloc, words),
        LineKind::Flip => draft.flip_line(alloc, words),
        LineKind::Cut => draft.cut_line(alloc, words),
        LineKind::Session => draft.session_line(alloc, words),
        LineKind::Schedule => draft.schedule_line(alloc, words),
        LineKind::FlashErase
        | LineKind::NandWrite
        | LineKind::NandDump
        | LineKind::NandTest
        | LineKind::MarkBad
        | LineKind::IsBad
        | LineKind::Stats => draft.command_line(alloc, kind, words),
    }
}

// What the words of a line add. A line without words is passed over.
#[tactic(auto, unfolding(plan_grammar::specs::Grammar::line_words))]
fn add_words(draft: PlanDraft, alloc: Global, words: Words<'_>) -> Result<PlanDraft, LineError>
    ensures { Answers result (line_words draft words.entry) }
{
    let mut words = words;
    let Some(first) = words.next() else {
        return Ok(draft);
    };
    let kind = line_kind(first).ok_or(PlanKind::UnknownWord)?;
    add_kind(draft, alloc, kind, words)
}

// What a line adds that is not too long.
#[tactic(auto, unfolding(plan_grammar::specs::Grammar::line))]
fn add_line(draft: PlanDraft, alloc: Global, bytes: &[u8]) -> Result<PlanDraft, LineError>
    requires { length bytes.now ≤ longest_line }
    ensures { Answers result (line draft bytes.now) }
{
    if !are_allowed(bytes) {
        return Err(LineError::Broken(PlanKind::BadByte));
    }
    add_words(draft, alloc, Words::of(bytes))
}

// The first line, and what follows its LF. None comes exactly where the line is too long.
fn first_line(bytes: &[u8]) -> Option<(&[u8], &[u8])>
    requires { 0 < length bytes.now }
    ensures { MatchOption result (longest_line < line_length bytes.now)
        (λ found. IsFirstLine bytes.now found.0.now found.1.now) }
{
    let Ok(end) = line_end(bytes, 0) else {
        return None;
    };
    if end < bytes.len() {
        Some((&bytes[..end], &bytes[end + 1..]))
    } else {
        Some((bytes, &[]))
    }
}

// What the first line adds, and what follows it.
fn take_line<'a>(
    draft: PlanDraft,
    alloc: Global,
    bytes: &'a [u8],
) -> Result<(PlanDraft, &'a [u8]), LineError>
    requires { 0 < length bytes.now }
    ensures { MatchResult result (λ found. LeadsOn draft bytes.now found.0 found.1.now)
        (StopsFor draft bytes.now) }
{
    let Some((line, later)) = first_line(bytes) else {
        return Err(LineError::Broken(PlanKind::LineTooLong));
    };
    let next = add_line(draft, alloc, line)?;
    Ok((next, later))
}

// Why bytes are refused at a line.
fn refusal(line: u32, error: LineError) -> PlanError
    ensures { result ≡ refusal line error }
{
    match error {
        LineError::Broken(kind) => PlanError::Refused { line, kind },
        LineError::OutOfMemory => PlanError::Memory,
    }
}

// The plan of the lines, and their number.
fn read_lines(alloc: Global, bytes: &[u8]) -> Result<(PlanDraft, u32), PlanError>
    requires { length bytes.now ≤ most_bytes }
    ensures { MatchResult result (λ found. IsReadUpTo bytes.now found.0 [] found.1)
        (IsRefusalOf bytes.now) }
{
    let mut draft = PlanDraft::new(alloc);
    let mut line = 0;
    let mut rest = bytes;
    while !rest.is_empty() {
        match take_line(draft, alloc, rest) {
            Ok((next, later)) => {
                draft = next;
                rest = later;
                line += 1;
            }
            Err(error) => return Err(refusal(line + 1, error)),
        }
    }
    Ok((draft, line))
}

/// The plan of these bytes. They are refused exactly where they are no plan: at line 0 where they
/// are more than 16,777,216 (`TooLong`), otherwise at the first line that breaks a rule, for the
/// first rule that it breaks, otherwise at the line after the last where there is no boot
/// (`Ended`). The rules are this project's own.
pub fn read_plan(alloc: Global, bytes: &[u8]) -> Result<Plan, PlanError>
    ensures plan { IfOk result (λ plan. IsPlan bytes.now plan) }
    ensures limits { IfOk result (λ plan. IsWithinLimits (plan_of plan)) }
    ensures refused { IfErr result (IsRefusalOf bytes.now) }
{
    if bytes.len() > MOST_BYTES {
        return Err(PlanError::Refused {
            line: 0,
            kind: PlanKind::TooLong,
        });
    }
    let (draft, lines) = read_lines(alloc, bytes)?;
    if draft.lines().boots.len() == 0 {
        return Err(PlanError::Refused {
            line: lines + 1,
            kind: PlanKind::Ended,
        });
    }
    Ok(Plan::of(alloc, draft)?)
}
