// The words of commands.
ghost use Rattle.std.specs.Prelude.{◌≡◌};
ghost use Rattle.plan_grammar.specs.Commands.{command_words, device_and_block, device_word, flash_erase_words, nanddump_words, nandtest_words, nandwrite_words, passes_of, stats_words, value_or};
ghost use Rattle.plan_words.specs.Answer.{Answers};

use crate::options::options_from;
use nand_model::{BadMode, Bytes};
use plan_grammar::{CommandLine, LineKind, Options, PlanKind};
use plan_words::{
    LineError, Words, device_number, is_name, one_word, small_number, three_words, two_words,
};
use std::alloc::Global;

// The value of an option, or its default.
#[tactic(auto, unfolding(plan_grammar::specs::Commands::value_or))]
fn value_or(default: u64, value: Option<Option<u64>>) -> Result<u64, PlanKind>
    ensures { result ≡ value_or default value }
{
    match value {
        None => Ok(default),
        Some(number) => number.ok_or(PlanKind::BadNumber),
    }
}

// The number of a device.
#[tactic(auto, unfolding(plan_grammar::specs::Commands::device_word))]
fn device_word(word: &[u8]) -> Result<u64, PlanKind>
    ensures { result ≡ device_word word.now }
{
    device_number(word).ok_or(PlanKind::BadWords)
}

// A flash_erase: DEV START COUNT.
#[tactic(auto, unfolding(plan_grammar::specs::Commands::flash_erase_words))]
fn flash_erase(options: &Options, words: Words<'_>) -> Result<CommandLine, PlanKind>
    ensures { result ≡ flash_erase_words options.now words.entry }
{
    let (dev, start, count) = three_words(words)?;
    let dev = device_word(dev)?;
    let start = small_number(start)?;
    let count = small_number(count)?;
    let no_scan = options.no_scan;
    Ok(CommandLine::FlashErase {
        dev,
        no_scan,
        start,
        count,
    })
}

// A nandwrite: DEV NAME.
#[tactic(auto, unfolding(plan_grammar::specs::Commands::nandwrite_words))]
fn nandwrite(alloc: Global, options: &Options, words: Words<'_>) -> Result<CommandLine, LineError>
    ensures { Answers result (nandwrite_words options.now words.entry) }
{
    let (dev, name) = two_words(words)?;
    let dev = device_word(dev)?;
    if !is_name(name) {
        return Err(LineError::Broken(PlanKind::BadWords));
    }
    let off = value_or(0, options.offset)?;
    let name = Bytes::from_slice(alloc, name)?;
    Ok(CommandLine::NandWrite {
        dev,
        mark: options.mark,
        raw: options.raw,
        oob: options.oob,
        pad: options.pad,
        off,
        name,
    })
}

// A nanddump: DEV.
#[tactic(auto, unfolding(plan_grammar::specs::Commands::nanddump_words))]
fn nanddump(options: &Options, words: Words<'_>) -> Result<CommandLine, PlanKind>
    ensures { result ≡ nanddump_words options.now words.entry }
{
    let dev = device_word(one_word(words)?)?;
    let off = value_or(0, options.offset)?;
    let len = value_or(0, options.length)?;
    Ok(CommandLine::NandDump {
        dev,
        off,
        len,
        raw: options.raw,
        oob: options.oob,
        bad: options.bad.unwrap_or(BadMode::PadBad),
    })
}

// The number of passes: from 1 to 2^32 - 1.
#[tactic(auto, unfolding(plan_grammar::specs::Commands::passes_of))]
fn passes_of(options: &Options) -> Result<u32, PlanKind>
    ensures { result ≡ passes_of options.now }
{
    let passes = value_or(1, options.passes)?;
    if passes < 1 || passes > u64::from(u32::MAX) {
        return Err(PlanKind::BadNumber);
    }
    Ok(passes as u32)
}

// A nandtest: DEV.
#[tactic(auto, unfolding(plan_grammar::specs::Commands::nandtest_words))]
fn nandtest(options: &Options, words: Words<'_>) -> Result<CommandLine, PlanKind>
    ensures { result ≡ nandtest_words options.now words.entry }
{
    let dev = device_word(one_word(words)?)?;
    let seed = value_or(0, options.seed)?;
    let passes = passes_of(options)?;
    let off = value_or(0, options.offset)?;
    let len = value_or(0, options.length)?;
    Ok(CommandLine::NandTest {
        dev,
        keep: options.keep,
        mark: options.mark,
        seed,
        passes,
        off,
        len,
    })
}

// A device and a block.
#[tactic(auto, unfolding(plan_grammar::specs::Commands::device_and_block))]
fn device_and_block(words: Words<'_>) -> Result<(u64, u32), PlanKind>
    ensures { result ≡ device_and_block words.entry }
{
    let (dev, block) = two_words(words)?;
    let dev = device_word(dev)?;
    let block = small_number(block)?;
    Ok((dev, block))
}

// A stats: DEV.
#[tactic(auto, unfolding(plan_grammar::specs::Commands::stats_words))]
fn stats(words: Words<'_>) -> Result<CommandLine, PlanKind>
    ensures { result ≡ stats_words words.entry }
{
    let dev = device_word(one_word(words)?)?;
    Ok(CommandLine::Stats { dev })
}

/// The words of a command after its first word (mtd-utils), by the kind of its line. `BadWords`
/// comes exactly where they have not its form, and otherwise `BadNumber` exactly where a number of
/// theirs is none or does not fit.
#[tactic(auto, unfolding(plan_grammar::specs::Commands::command_words))]
pub fn command_words(
    alloc: Global,
    kind: LineKind,
    words: Words<'_>,
) -> Result<CommandLine, LineError>
    ensures { Answers result (command_words kind words.entry) }
{
    match kind {
        LineKind::FlashErase => {
            let (options, rest) = options_from(kind, words)?;
            Ok(flash_erase(&options, rest)?)
        }
        LineKind::NandWrite => {
            let (options, rest) = options_from(kind, words)?;
            nandwrite(alloc, &options, rest)
        }
        LineKind::NandDump => {
            let (options, rest) = options_from(kind, words)?;
            Ok(nanddump(&options, rest)?)
        }
        LineKind::NandTest => {
            let (options, rest) = options_from(kind, words)?;
            Ok(nandtest(&options, rest)?)
        }
        LineKind::MarkBad => {
            let (dev, block) = device_and_block(words)?;
            Ok(CommandLine::MarkBad { dev, block })
        }
        LineKind::IsBad => {
            let (dev, block) = device_and_block(words)?;
            Ok(CommandLine::IsBad { dev, block })
        }
        LineKind::Stats => Ok(stats(words)?),
        _ => Err(LineError::Broken(PlanKind::BadWords)),
    }
}
