// The lines of data.
ghost use Rattle.std.specs.Prelude.{◌≡◌, ◌&&◌, ◌+◌, nat_le, not, is_some, List};
ghost use Rattle.std.specs.Option.{option_map};
ghost use Rattle.plan_grammar.specs.declared.lines.PlanLines.{PlanLines as Plan};
ghost use Rattle.plan_grammar.specs.declared.lines.Piece.{Piece as SomePiece};
ghost use Rattle.plan_grammar.specs.Limits.{most_data};
ghost use Rattle.plan_index.specs.Data.{AreData};
ghost use Rattle.plan_grammar.specs.Devices.{all_data, data_length, data_named, pieces_length};
ghost use Rattle.plan_grammar.specs.Forms.{piece_length};
ghost use Rattle.plan_grammar.specs.Hardware.{has_chip};
ghost use Rattle.plan_grammar.specs.Rules.{is_empty};
ghost use Rattle.plan_grammar.specs.Payloads.{data_line};
ghost use Rattle.plan_costs.specs.Room.{in_long};
ghost use Rattle.plan_words.specs.Answer.{Answers};

use crate::draft::PlanDraft;
use crate::places::{has_chip, rule};
use nand_model::{Bytes, ItemList};
use plan_grammar::{DataLine, Piece, PlanKind, PlanLines};
use plan_index::{DataIndex, DataPlace};
use plan_words::{LineError, Words, is_name, pieces};
use std::alloc::Global;

/// The greatest number of bytes of all data.
const MOST_DATA: u64 = 16_777_216;

impl PlanDraft {
    /// `data NAME PIECE` and further PIECEs, after the last controller, which has a chip, before the
    /// first boot.
    #[tactic(auto, unfolding(plan_grammar::specs::Payloads::data_line, plan_grammar::specs::Payloads::data_form, plan_grammar::specs::Payloads::data_words))]
    pub fn data_line(self, alloc: Global, words: Words<'_>) -> Result<PlanDraft, LineError>
        ensures { Answers result (data_line self words.entry) }
    {
        let mut draft = self;
        let mut words = words;
        rule(may_have_data(&draft.lines), PlanKind::WrongPlace)?;
        let name = words.next().ok_or(PlanKind::BadWords)?;
        rule(is_name(name) && !words.is_empty(), PlanKind::BadWords)?;
        let pieces = pieces(alloc, words)?;
        rule(is_new(&draft.data, name), PlanKind::Overlap)?;
        let len = pieces_len(&pieces);
        rule(has_room(&draft.data, len), PlanKind::TooLarge)?;
        let at = DataPlace {
            place: draft.lines.payloads.len(),
            len: len as u32,
        };
        draft.data.add(alloc, name, at)?;
        let payload = DataLine {
            name: Bytes::from_slice(alloc, name)?,
            pieces,
        };
        draft.lines.payloads.append(payload)?;
        Ok(draft)
    }
}

// Whether there is a controller, the last one has a chip, and there is no boot.
fn may_have_data(lines: &PlanLines) -> bool
    ensures { result ≡ (has_chip lines.now && is_empty lines.now.boots) }
{
    has_chip(lines) && lines.boots.len() == 0
}

/// How many bytes the data of a NAME are. None comes exactly where there are none.
pub fn data_len(data: &DataIndex, name: &[u8]) -> Option<u32>
    ensures { (plan : Plan) → AreData plan.payloads data.now
        → result ≡ option_map data_length (data_named plan name.now) }
{
    let at = data.find(name)?;
    Some(at.len)
}

// Whether no data have this NAME.
fn is_new(data: &DataIndex, name: &[u8]) -> bool
    ensures { (plan : Plan) → AreData plan.payloads data.now
        → result ≡ not (is_some (data_named plan name.now)) }
{
    data_len(data, name).is_none()
}

// Whether there is room for so many further bytes of data.
fn has_room(data: &DataIndex, len: u64) -> bool
    ensures { (plan : Plan) (pieces : List SomePiece) → AreData plan.payloads data.now
        → len ≡ in_long (pieces_length pieces)
        → result ≡ nat_le (all_data plan + pieces_length pieces) most_data }
{
    u64::from(data.total).saturating_add(len) <= MOST_DATA
}

// How many bytes a piece is.
fn piece_len(piece: &Piece) -> u64
    ensures { result ≡ piece_length piece.now }
{
    match piece {
        Piece::Fill { len, .. } | Piece::Seed { len, .. } => *len,
        Piece::Hex(bytes) => bytes.as_slice().len() as u64,
    }
}

// How many bytes pieces are, at most 2^64 - 1.
fn pieces_len(pieces: &ItemList<Piece>) -> u64
    ensures { result ≡ in_long (pieces_length pieces.now) }
{
    let mut len = 0u64;
    for piece in pieces {
        len = len.saturating_add(piece_len(piece));
    }
    len
}
