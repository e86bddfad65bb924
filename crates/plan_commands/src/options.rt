// The options of commands.
ghost use Rattle.std.specs.Prelude.{◌≡◌};
ghost use Rattle.plan_grammar.specs.Options.{bad_options, begins_with_dash, meaning_in, no_options, option_word, options_from, options_of};
ghost use Rattle.plan_commands.specs.Taken.{take_option};

use crate::given::{has_value, no_options, with_option};
use lab_text::number;
use nand_model::BadMode;
use plan_grammar::{LineKind, OptionKind, Options, PlanKind};
use plan_words::Words;

// What an option of a nandwrite stands for.
fn write_option(word: &[u8]) -> Option<OptionKind>
    ensures { result ≡ meaning_in (options_of LineKind.NandWrite) word.now }
{
    if word == b"-m".as_slice() {
        Some(OptionKind::Mark)
    } else if word == b"-n".as_slice() {
        Some(OptionKind::Raw)
    } else if word == b"-o".as_slice() {
        Some(OptionKind::Oob)
    } else if word == b"-p".as_slice() {
        Some(OptionKind::Pad)
    } else if word == b"-s".as_slice() {
        Some(OptionKind::Offset)
    } else {
        None
    }
}

// What an option for bad blocks stands for.
fn bad_option(word: &[u8]) -> Option<OptionKind>
    ensures { result ≡ meaning_in bad_options word.now }
{
    if word == b"--bb=padbad".as_slice() {
        Some(OptionKind::Bad(BadMode::PadBad))
    } else if word == b"--bb=dumpbad".as_slice() {
        Some(OptionKind::Bad(BadMode::DumpBad))
    } else if word == b"--bb=skipbad".as_slice() {
        Some(OptionKind::Bad(BadMode::SkipBad))
    } else {
        None
    }
}

// What an option of a nanddump stands for.
fn dump_option(word: &[u8]) -> Option<OptionKind>
    ensures { result ≡ meaning_in (options_of LineKind.NandDump) word.now }
{
    if word == b"-s".as_slice() {
        Some(OptionKind::Offset)
    } else if word == b"-l".as_slice() {
        Some(OptionKind::Length)
    } else if word == b"-n".as_slice() {
        Some(OptionKind::Raw)
    } else if word == b"-o".as_slice() {
        Some(OptionKind::Oob)
    } else {
        bad_option(word)
    }
}

// What an option of a nandtest stands for.
fn test_option(word: &[u8]) -> Option<OptionKind>
    ensures { result ≡ meaning_in (options_of LineKind.NandTest) word.now }
{
    if word == b"-k".as_slice() {
        Some(OptionKind::Keep)
    } else if word == b"-m".as_slice() {
        Some(OptionKind::Mark)
    } else if word == b"-s".as_slice() {
        Some(OptionKind::Seed)
    } else if word == b"-p".as_slice() {
        Some(OptionKind::Passes)
    } else if word == b"-o".as_slice() {
        Some(OptionKind::Offset)
    } else if word == b"-l".as_slice() {
        Some(OptionKind::Length)
    } else {
        None
    }
}

// What an option of a flash_erase stands for.
fn erase_option(word: &[u8]) -> Option<OptionKind>
    ensures { result ≡ meaning_in (options_of LineKind.FlashErase) word.now }
{
    if word == b"-N".as_slice() {
        Some(OptionKind::NoScan)
    } else {
        None
    }
}

// An option of a command.
#[tactic(auto, unfolding(plan_grammar::specs::Options::option_word))]
fn option_word(kind: LineKind, word: &[u8]) -> Result<OptionKind, PlanKind>
    ensures { result ≡ option_word kind word.now }
{
    let option = match kind {
        LineKind::FlashErase => erase_option(word),
        LineKind::NandWrite => write_option(word),
        LineKind::NandDump => dump_option(word),
        LineKind::NandTest => test_option(word),
        _ => None,
    };
    option.ok_or(PlanKind::BadWords)
}

// Whether a word is an option.
fn begins_with_dash(word: &[u8]) -> bool
    ensures { result ≡ begins_with_dash word.now }
{
    word.starts_with(b"-")
}

// The options with one more, whose value is the next word where it has one, and the words after it.
#[tactic(auto, unfolding(crate::specs::Taken::take_option))]
fn take_option<'a>(
    options: Options,
    option: OptionKind,
    words: Words<'a>,
) -> Result<(Options, Words<'a>), PlanKind>
    ensures { result ≡ take_option options option words.entry }
{
    if !has_value(option) {
        return Ok((with_option(options, option, None)?, words));
    }
    let mut rest = words;
    let next = rest.next().ok_or(PlanKind::BadWords)?;
    Ok((with_option(options, option, number(next))?, rest))
}

/// The options of a command, and the words after them. `BadWords` comes exactly where an option is
/// none of the command's, is given twice, or has no value where it has one.
pub fn options_from<'a>(kind: LineKind, words: Words<'a>) -> Result<(Options, Words<'a>), PlanKind>
    ensures { result ≡ options_from kind no_options words.entry }
{
    let mut options = no_options();
    let mut rest = words;
    loop {
        let mut next = rest.iter();
        let Some(word) = next.next() else {
            return Ok((options, rest));
        };
        if !begins_with_dash(word) {
            return Ok((options, rest));
        }
        let option = option_word(kind, word)?;
        let (more, others) = take_option(options, option, next)?;
        options = more;
        rest = others;
    }
}
