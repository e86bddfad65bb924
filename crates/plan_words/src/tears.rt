// Tears.
ghost use Rattle.std.specs.Prelude.{◌≡◌};
ghost use Rattle.plan_grammar.specs.Forms.{parts_between, span_from, spans_from, tear};
ghost use Rattle.plan_words.specs.Answer.{Answers};

use crate::forms::{halves, split_once};
use crate::{LineError, number};
use nand_model::{ItemList, SpanList, Tear};
use plan_grammar::PlanKind;
use std::alloc::Global;

/// The greatest end of a span: the bytes of the largest page with its spare.
const LONGEST_PAGE: u64 = 4320;

// A span `A-B`, which begins at or after the end of the one before.
#[tactic(auto, unfolding(plan_grammar::specs::Forms::span_from))]
fn span_from(end: u32, text: &[u8]) -> Result<(u32, u32), PlanKind>
    ensures { result ≡ span_from end text.now }
{
    let (first, last) = halves(text, b'-').ok_or(PlanKind::BadNumber)?;
    let first = number(first)?;
    let last = number(last)?;
    if first < u64::from(end) || last <= first || last > LONGEST_PAGE {
        return Err(PlanKind::BadNumber);
    }
    Ok((first as u32, last as u32))
}

// Spans with commas between them.
fn spans(alloc: Global, text: &[u8]) -> Result<SpanList, LineError>
    ensures { Answers result (spans_from 0 (parts_between 44 text.now)) }
{
    let mut found = ItemList::new(alloc);
    let mut end = 0;
    let mut rest = text;
    while let Some((first, others)) = split_once(rest, b',') {
        let span = span_from(end, first)?;
        end = span.1;
        found.append(span)?;
        rest = others;
    }
    found.append(span_from(end, rest)?)?;
    Ok(found)
}

/// A tear: `none`, `all`, `seed:N`, or `spans:A-B,C-D` and further spans of bytes, ascending, each
/// from A up to but not including B, which share no byte and end within 4,320. `BadNumber` comes
/// exactly where the word is none.
#[tactic(auto, unfolding(plan_grammar::specs::Forms::tear, plan_grammar::specs::Forms::after_front))]
pub fn tear(alloc: Global, word: &[u8]) -> Result<Tear, LineError>
    ensures { Answers result (tear word.now) }
{
    if word == b"none".as_slice() {
        return Ok(Tear::Nothing);
    }
    if word == b"all".as_slice() {
        return Ok(Tear::Everything);
    }
    if let Some(text) = word.strip_prefix(b"seed:") {
        return Ok(Tear::Seed(number(text)?));
    }
    if let Some(text) = word.strip_prefix(b"spans:") {
        return Ok(Tear::Spans(spans(alloc, text)?));
    }
    Err(LineError::Broken(PlanKind::BadNumber))
}
