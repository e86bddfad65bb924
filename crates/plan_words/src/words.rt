// The words of a line, one after the other.
ghost use Rattle.std.specs.Prelude.{◌≡◌, Ok, Err, MatchResult, length};
ghost use Rattle.std.specs.Iterator.{YieldsFirstRef, item_count};
ghost use Rattle.lab_text.specs.Text.{words_of};
ghost use Rattle.plan_grammar.specs.Rules.{is_empty};
ghost use Rattle.plan_grammar.specs.Forms.{one_word, two_words, three_words, four_words};

use lab_text::word;
use plan_grammar::PlanKind;
use std::marker::Model;

// How many words a line has.
fn word_count(line: &[u8]) -> usize
    ensures { result ≡ length (words_of line.now) }
{
    Words::of(line).count()
}

/// The words of a line that are left, which contracts see as a list of texts. It holds the rest of
/// the line.
#[derive(Drop)]
pub struct Words<'a> {
    rest: &'a [u8],
}

impl<'a> Model for Words<'a> {
    ghost use Rattle.std.specs.Prelude.{List, ℕ};
    ghost use Rattle.lab_text.specs.Text.{words_of};

    ghost Value = { List (List ℕ) };

    ghost view = { λ w. words_of w.rest.now };
}

impl<'a> Words<'a> {
    /// The words of a line, without its LF.
    pub fn of(line: &'a [u8]) -> Words<'a>
        ensures { result ≡ words_of line.now }
    {
        Words { rest: line }
    }

    /// Goes through the words that are left once more.
    pub fn iter(&self) -> Words<'a>
        ensures { result ≡ self.now }
    {
        Words { rest: self.rest }
    }

    /// Whether no word is left.
    pub fn is_empty(&self) -> bool
        ensures { result ≡ is_empty self.now }
    {
        word(self.rest, 0).is_none()
    }

    /// How many words are left. It goes through them.
    pub fn len(&self) -> usize
        ensures { result ≡ length self.now }
    {
        word_count(self.rest)
    }
}

impl<'a> Iterator for Words<'a> {
    type Item = &'a [u8];

    ghost next_gives = { YieldsFirstRef (λ words. words) };

    ghost remaining = { item_count (λ words. words) };

    fn next(&mut self) -> Option<&'a [u8]> {
        let (start, end) = word(self.rest, 0)?;
        let found = &self.rest[start..end];
        self.rest = &self.rest[end..];
        Some(found)
    }
}

/// The only word. `BadWords` comes exactly where there is none or another one.
#[tactic(auto, unfolding(plan_grammar::specs::Forms::one_word))]
pub fn one_word<'a>(mut words: Words<'a>) -> Result<&'a [u8], PlanKind>
    ensures { MatchResult result (λ word. one_word words.entry ≡ Ok word.now)
        (λ kind. one_word words.entry ≡ Err kind) }
{
    let first = words.next().ok_or(PlanKind::BadWords)?;
    if !words.is_empty() {
        return Err(PlanKind::BadWords);
    }
    Ok(first)
}

/// The two words. `BadWords` comes exactly where there are fewer or more.
#[tactic(auto, unfolding(plan_grammar::specs::Forms::two_words, plan_grammar::specs::Forms::one_word))]
pub fn two_words<'a>(mut words: Words<'a>) -> Result<(&'a [u8], &'a [u8]), PlanKind>
    ensures { MatchResult result (λ found. two_words words.entry ≡ Ok (found.0.now, found.1.now))
        (λ kind. two_words words.entry ≡ Err kind) }
{
    let first = words.next().ok_or(PlanKind::BadWords)?;
    let second = one_word(words)?;
    Ok((first, second))
}

/// The three words. `BadWords` comes exactly where there are fewer or more.
#[tactic(auto, unfolding(plan_grammar::specs::Forms::three_words, plan_grammar::specs::Forms::two_words))]
pub fn three_words<'a>(mut words: Words<'a>) -> Result<(&'a [u8], &'a [u8], &'a [u8]), PlanKind>
    ensures { MatchResult result
        (λ found. three_words words.entry ≡ Ok (found.0.now, found.1.now, found.2.now))
        (λ kind. three_words words.entry ≡ Err kind) }
{
    let first = words.next().ok_or(PlanKind::BadWords)?;
    let (second, third) = two_words(words)?;
    Ok((first, second, third))
}

/// The four words. `BadWords` comes exactly where there are fewer or more.
#[tactic(auto, unfolding(plan_grammar::specs::Forms::four_words, plan_grammar::specs::Forms::three_words))]
pub fn four_words<'a>(
    mut words: Words<'a>,
) -> Result<(&'a [u8], &'a [u8], &'a [u8], &'a [u8]), PlanKind>
    ensures { MatchResult result
        (λ found. four_words words.entry ≡ Ok (found.0.now, found.1.now, found.2.now, found.3.now))
        (λ kind. four_words words.entry ≡ Err kind) }
{
    let first = words.next().ok_or(PlanKind::BadWords)?;
    let (second, third, fourth) = three_words(words)?;
    Ok((first, second, third, fourth))
}
