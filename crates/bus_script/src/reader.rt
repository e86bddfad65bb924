// The reader of scripts.
ghost use Rattle.std.specs.Prelude.{◌≡◌, ◌<◌, ◌≤◌, ◌+◌, Ok, length, IfErr, IfOk, MatchResult};
ghost use Rattle.lab_text.specs.Text.{lines_of, longest_line};
ghost use Rattle.plan_grammar.specs.Forms.{byte_of};
ghost use Rattle.plan_words.specs.Answer.{Answers};
ghost use Rattle.bus_script.specs.Answer.{IsReadingErrorOf};
ghost use Rattle.bus_script.specs.Script.{chip_line, cycle, cycle_in, cycles, cycles_line, line, line_words, lines_from, most_bytes, no_lines, reading, with_cycles};
ghost use Rattle.bus_script.specs.Reading.{BeginsTooLong, IsFirstLine, LeadsOn, StopsFor, refusal};

use crate::chip::chip_sizes;
use crate::error::ScriptError;
use crate::script::{Script, ScriptLines};
use lab_text::{LineTooLong, line_end};
use nand_model::{Geometry, ItemList};
use onfi_bus::Cycle;
use plan_grammar::PlanKind;
use plan_words::{LineError, Words, are_allowed};
use std::alloc::Global;

/// The greatest number of bytes of a script.
const MOST_BYTES: usize = 1_048_576;

// The byte of two hexadecimal digits of either case.
#[tactic(auto, unfolding(plan_grammar::specs::Forms::byte_of))]
fn byte_of(digits: &[u8]) -> Option<u8>
    ensures { result ≡ byte_of digits.now }
{
    let mut byte = [0u8; 1];
    hex::decode_to_slice(digits, &mut byte).ok()?;
    Some(byte[0])
}

// The cycle of a word. None comes exactly where the word is none.
#[tactic(auto, unfolding(crate::specs::Script::cycle_in, plan_grammar::specs::Forms::after_front))]
fn cycle_in(word: &[u8]) -> Option<Cycle>
    ensures { result ≡ cycle_in word.now }
{
    if word == b"r".as_slice() {
        return Some(Cycle::Out);
    }
    if let Some(digits) = word.strip_prefix(b"c") {
        return Some(Cycle::Command(byte_of(digits)?));
    }
    if let Some(digits) = word.strip_prefix(b"a") {
        return Some(Cycle::Address(byte_of(digits)?));
    }
    if let Some(digits) = word.strip_prefix(b"w") {
        return Some(Cycle::In(byte_of(digits)?));
    }
    None
}

// The cycle of a word. `BadWords` comes exactly where the word is none.
#[tactic(auto, unfolding(crate::specs::Script::cycle))]
fn cycle(word: &[u8]) -> Result<Cycle, PlanKind>
    ensures { result ≡ cycle word.now }
{
    cycle_in(word).ok_or(PlanKind::BadWords)
}

// The cycles so far, and those of words behind them.
fn add_cycles(so_far: ItemList<Cycle>, words: Words<'_>) -> Result<ItemList<Cycle>, LineError>
    ensures { Answers result (with_cycles so_far (cycles words.entry)) }
{
    let mut found = so_far;
    for word in words {
        found.append(cycle(word)?)?;
    }
    Ok(found)
}

// The chip's line, by its first word and the others.
#[tactic(auto, unfolding(crate::specs::Script::chip_line))]
fn chip_line(alloc: Global, first: &[u8], words: Words<'_>) -> Result<ScriptLines, LineError>
    ensures { Answers result (chip_line first.now words.entry) }
{
    if first != b"chip".as_slice() {
        return Err(LineError::Broken(PlanKind::UnknownWord));
    }
    let geometry = chip_sizes(alloc, words)?;
    Ok(ScriptLines {
        chip: Some(geometry),
        cycles: ItemList::new(alloc),
    })
}

// A line of cycles.
#[tactic(auto, unfolding(crate::specs::Script::cycles_line))]
fn cycles_line(
    geometry: Geometry,
    so_far: ItemList<Cycle>,
    words: Words<'_>,
) -> Result<ScriptLines, LineError>
    ensures { Answers result (cycles_line geometry so_far words.entry) }
{
    let cycles = add_cycles(so_far, words)?;
    Ok(ScriptLines {
        chip: Some(geometry),
        cycles,
    })
}

// What the words of a line add. A line without words is passed over.
#[tactic(auto, unfolding(crate::specs::Script::line_words))]
fn add_words(script: ScriptLines, alloc: Global, words: Words<'_>) -> Result<ScriptLines, LineError>
    ensures { Answers result (line_words script words.entry) }
{
    let mut others = words.iter();
    let Some(first) = others.next() else {
        return Ok(script);
    };
    match script.chip {
        None => chip_line(alloc, first, others),
        Some(geometry) => cycles_line(geometry, script.cycles, words),
    }
}

// What a line adds that is not too long.
#[tactic(auto, unfolding(crate::specs::Script::line))]
fn add_line(script: ScriptLines, alloc: Global, bytes: &[u8]) -> Result<ScriptLines, LineError>
    requires { length bytes.now ≤ longest_line }
    ensures { Answers result (line script bytes.now) }
{
    if !are_allowed(bytes) {
        return Err(LineError::Broken(PlanKind::BadByte));
    }
    add_words(script, alloc, Words::of(bytes))
}

// The first line, without its LF, and what follows the LF. `LineTooLong` comes exactly where the
// line has more than 65,536 bytes.
fn first_line(bytes: &[u8]) -> Result<(&[u8], &[u8]), LineTooLong>
    requires { 0 < length bytes.now }
    ensures { MatchResult result (λ found. IsFirstLine bytes.now found.0.now found.1.now)
        (λ _. BeginsTooLong bytes.now) }
{
    let Ok(end) = line_end(bytes, 0) else {
        return Err(LineTooLong);
    };
    if end < bytes.len() {
        Ok((&bytes[..end], &bytes[end + 1..]))
    } else {
        Ok((bytes, &[]))
    }
}

// What the first line adds, and what follows it.
fn take_line<'a>(
    script: ScriptLines,
    alloc: Global,
    bytes: &'a [u8],
) -> Result<(ScriptLines, &'a [u8]), LineError>
    requires { 0 < length bytes.now }
    ensures { MatchResult result (λ found. LeadsOn script bytes.now found.0 found.1.now)
        (StopsFor script bytes.now) }
{
    let Ok((line, later)) = first_line(bytes) else {
        return Err(LineError::Broken(PlanKind::LineTooLong));
    };
    let next = add_line(script, alloc, line)?;
    Ok((next, later))
}

// Why bytes are refused at a line.
fn refusal(line: u32, error: LineError) -> ScriptError
    ensures { result ≡ refusal line error }
{
    match error {
        LineError::Broken(kind) => ScriptError::Refused { line, kind },
        LineError::OutOfMemory => ScriptError::Memory,
    }
}

// What the lines say, and the number of the line after the last.
fn read_lines(alloc: Global, bytes: &[u8]) -> Result<(ScriptLines, u32), ScriptError>
    requires { length bytes.now ≤ most_bytes }
    ensures lines { IfOk result (λ found.
        lines_from 1 no_lines (lines_of bytes.now) ≡ Ok found.0) }
    ensures number { IfOk result (λ found. found.1 ≡ length (lines_of bytes.now) + 1) }
    ensures refused { IfErr result (IsReadingErrorOf bytes.now) }
{
    let mut script = ScriptLines {
        chip: None,
        cycles: ItemList::new(alloc),
    };
    let mut line = 1;
    let mut rest = bytes;
    while !rest.is_empty() {
        match take_line(script, alloc, rest) {
            Ok((next, later)) => {
                script = next;
                rest = later;
                line += 1;
            }
            Err(error) => return Err(refusal(line, error)),
        }
    }
    Ok((script, line))
}

/// The script of these bytes. They are refused exactly where they are none: at line 0 where they are
/// more than 1,048,576 (`TooLong`), otherwise at the first line that breaks a rule, for the first
/// rule that it breaks, otherwise at the line after the last where no line has words (`Ended`). The
/// rules are this project's own.
pub fn read_script(alloc: Global, bytes: &[u8]) -> Result<Script, ScriptError>
    ensures script { IfOk result (λ script. reading bytes.now ≡ Ok script) }
    ensures refused { IfErr result (IsReadingErrorOf bytes.now) }
{
    if bytes.len() > MOST_BYTES {
        return Err(ScriptError::Refused {
            line: 0,
            kind: PlanKind::TooLong,
        });
    }
    let (script, line) = read_lines(alloc, bytes)?;
    match script.chip {
        Some(geometry) => Ok(Script {
            geometry,
            cycles: script.cycles,
        }),
        None => Err(ScriptError::Refused {
            line,
            kind: PlanKind::Ended,
        }),
    }
}
