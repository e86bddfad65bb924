// Bytes, numbers, and texts around separators.
ghost use Rattle.std.specs.Prelude.{◌≡◌, ◌==◌, ◌∷◌, [], MatchOption, position};
ghost use Rattle.std.specs.List.{list_all};
ghost use Rattle.plan_grammar.specs.Forms.{is_allowed, number, small_number, positive_number, parts_between, halves};

use plan_grammar::PlanKind;

/// Whether each byte of a line is TAB or from 0x20 to 0x7e, or LF.
pub fn are_allowed(line: &[u8]) -> bool
    ensures { result ≡ list_all is_allowed line.now }
{
    line.iter().all(|byte| *byte == b'\n' || *byte == b'\t' || (b' ' <= *byte && *byte <= b'~'))
}

/// The number of a word, from 0 to 2^64 - 1. `BadNumber` comes exactly where it is none.
#[tactic(auto, unfolding(plan_grammar::specs::Forms::number))]
pub fn number(word: &[u8]) -> Result<u64, PlanKind>
    ensures { result ≡ number word.now }
{
    lab_text::number(word).ok_or(PlanKind::BadNumber)
}

/// A page, a block, a count, a bit or an event: a number from 0 to 2^32 - 1. `BadNumber` comes
/// exactly where the word is none.
#[tactic(auto, unfolding(plan_grammar::specs::Forms::small_number))]
pub fn small_number(word: &[u8]) -> Result<u32, PlanKind>
    ensures { result ≡ small_number word.now }
{
    u32::try_from(number(word)?).map_err(|_| PlanKind::BadNumber)
}

/// Such a number from 1 on. `BadNumber` comes exactly where the word is none.
#[tactic(auto, unfolding(plan_grammar::specs::Forms::positive_number))]
pub fn positive_number(word: &[u8]) -> Result<u32, PlanKind>
    ensures { result ≡ positive_number word.now }
{
    match small_number(word)? {
        0 => Err(PlanKind::BadNumber),
        n => Ok(n),
    }
}

// The place of the first such byte.
fn place_of(text: &[u8], byte: u8) -> Option<usize>
    ensures { result ≡ position (λ b. b == byte) text.now }
{
    text.iter().position(|b| *b == byte)
}

/// The text before the first separator, and the text after it. None comes exactly where there is no
/// separator.
pub fn split_once(text: &[u8], separator: u8) -> Option<(&[u8], &[u8])>
    ensures { MatchOption result (parts_between separator text.now ≡ text.now ∷ [])
        (λ found. parts_between separator text.now
        ≡ found.0.now ∷ parts_between separator found.1.now) }
{
    let place = place_of(text, separator)?;
    Some((&text[..place], &text[place + 1..]))
}

/// The two texts around the only separator. None comes exactly where there is none or another one.
#[tactic(auto, unfolding(plan_grammar::specs::Forms::halves))]
pub fn halves(text: &[u8], separator: u8) -> Option<(&[u8], &[u8])>
    ensures { MatchOption result (halves separator text.now ≡ None)
        (λ found. halves separator text.now ≡ Some (found.0.now, found.1.now)) }
{
    let (first, second) = split_once(text, separator)?;
    match split_once(second, separator) {
        None => Some((first, second)),
        Some(_) => None,
    }
}
