// The kinds of lines.
ghost use Rattle.std.specs.Prelude.{◌≡◌, drop};
ghost use Rattle.plan_grammar.specs.Options.{meaning_in};
ghost use Rattle.plan_grammar.specs.Grammar.{first_words};

use plan_grammar::LineKind;

// The kind of a command's line: one of the last seven of the table.
fn command_kind(word: &[u8]) -> Option<LineKind>
    ensures { result ≡ meaning_in (drop 13 first_words) word.now }
{
    if word == b"flash_erase".as_slice() {
        Some(LineKind::FlashErase)
    } else if word == b"nandwrite".as_slice() {
        Some(LineKind::NandWrite)
    } else if word == b"nanddump".as_slice() {
        Some(LineKind::NandDump)
    } else if word == b"nandtest".as_slice() {
        Some(LineKind::NandTest)
    } else if word == b"markbad".as_slice() {
        Some(LineKind::MarkBad)
    } else if word == b"isbad".as_slice() {
        Some(LineKind::IsBad)
    } else if word == b"stats".as_slice() {
        Some(LineKind::Stats)
    } else {
        None
    }
}

// The kind of a line from the first data on: one behind the first seven of the table.
fn kind_from_data(word: &[u8]) -> Option<LineKind>
    ensures { result ≡ meaning_in (drop 7 first_words) word.now }
{
    if word == b"data".as_slice() {
        Some(LineKind::Data)
    } else if word == b"boot".as_slice() {
        Some(LineKind::Boot)
    } else if word == b"flip".as_slice() {
        Some(LineKind::Flip)
    } else if word == b"cut".as_slice() {
        Some(LineKind::Cut)
    } else if word == b"session".as_slice() {
        Some(LineKind::Session)
    } else if word == b"schedule".as_slice() {
        Some(LineKind::Schedule)
    } else {
        command_kind(word)
    }
}

/// The kind of a line by its first word. None comes exactly where no line begins with the word.
pub fn line_kind(word: &[u8]) -> Option<LineKind>
    ensures { result ≡ meaning_in first_words word.now }
{
    if word == b"nandlab".as_slice() {
        Some(LineKind::Header)
    } else if word == b"controller".as_slice() {
        Some(LineKind::Controller)
    } else if word == b"chip".as_slice() {
        Some(LineKind::Chip)
    } else if word == b"bad".as_slice() {
        Some(LineKind::Bad)
    } else if word == b"weak".as_slice() {
        Some(LineKind::Weak)
    } else if word == b"bus".as_slice() {
        Some(LineKind::Bus)
    } else if word == b"part".as_slice() {
        Some(LineKind::Part)
    } else {
        kind_from_data(word)
    }
}
