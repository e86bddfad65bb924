// The forms of all words that are left.
ghost use Rattle.plan_grammar.specs.Forms.{numbers, small_numbers, pieces};
ghost use Rattle.plan_words.specs.Answer.{Answers};

use crate::{LineError, Words, number, piece, small_number};
use nand_model::ItemList;
use plan_grammar::Piece;
use std::alloc::Global;

/// The numbers of all words. `BadNumber` comes exactly where one of them is none.
pub fn numbers(alloc: Global, words: Words<'_>) -> Result<ItemList<u64>, LineError>
    ensures { Answers result (numbers words.entry) }
{
    let mut found = ItemList::new(alloc);
    for word in words {
        found.append(number(word)?)?;
    }
    Ok(found)
}

/// The pages, blocks, counts, bits or events of all words: numbers from 0 to 2^32 - 1. `BadNumber`
/// comes exactly where one of them is none.
pub fn small_numbers(alloc: Global, words: Words<'_>) -> Result<ItemList<u32>, LineError>
    ensures { Answers result (small_numbers words.entry) }
{
    let mut found = ItemList::new(alloc);
    for word in words {
        found.append(small_number(word)?)?;
    }
    Ok(found)
}

/// The pieces of all words. `BadNumber` comes exactly where one of them is none.
pub fn pieces(alloc: Global, words: Words<'_>) -> Result<ItemList<Piece>, LineError>
    ensures { Answers result (pieces words.entry) }
{
    let mut found = ItemList::new(alloc);
    for word in words {
        found.append(piece(alloc, word)?)?;
    }
    Ok(found)
}
