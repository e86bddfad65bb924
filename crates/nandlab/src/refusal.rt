// The lines that refuse a call.
ghost use Rattle.std.specs.Prelude.{◌≡◌};
ghost use Rattle.nandlab.specs.Refusal.{input_kind, kind_name};
ghost use Rattle.nandlab.specs.declared.refusal.Refusal.TheVariants.{Memory};

use code_words::InputRefusal;
use nand_model::Bytes;
use plan_text::PlanKind;
use std::alloc::AllocError;

/// Why a request is not served.
#[derive(Drop)]
pub enum Refusal {
    /// The bytes are refused, by this line.
    Text(Bytes),
    /// Memory ran out.
    Memory,
}

impl From<AllocError> for Refusal {
    ghost from_gives = { λ _ e. e ≡ Memory };

    fn from(_: AllocError) -> Refusal {
        Refusal::Memory
    }
}

/// What is written for words that are not accepted.
pub const USAGE: &[u8] =
    b"usage: nandlab check or replay or run or make N or bus or encode14 T or decode14 T\n";

/// What is written for more bytes than a request may be given.
pub const TOO_LONG: &[u8] = b"line 0: TooLong\n";

/// The name of a kind.
pub fn kind_name(kind: PlanKind) -> &'static str
    ensures { result.now ≡ kind_name kind }
{
    match kind {
        PlanKind::LineTooLong => "LineTooLong",
        PlanKind::BadByte => "BadByte",
        PlanKind::UnknownWord => "UnknownWord",
        PlanKind::WrongPlace => "WrongPlace",
        PlanKind::BadWords => "BadWords",
        PlanKind::BadNumber => "BadNumber",
        PlanKind::BadSize => "BadSize",
        PlanKind::SpareTooSmall => "SpareTooSmall",
        PlanKind::OutOfChip => "OutOfChip",
        PlanKind::TooFewTableBlocks => "TooFewTableBlocks",
        PlanKind::Overlap => "Overlap",
        PlanKind::UnknownDevice => "UnknownDevice",
        PlanKind::UnknownName => "UnknownName",
        PlanKind::NotMultiple => "NotMultiple",
        PlanKind::TooLarge => "TooLarge",
        PlanKind::Ended => "Ended",
        PlanKind::TooLong => "TooLong",
    }
}

/// The kind by which an input of steps or units is refused.
pub fn input_kind(why: InputRefusal) -> PlanKind
    ensures { result ≡ input_kind why }
{
    match why {
        InputRefusal::TooLong => PlanKind::TooLong,
        InputRefusal::NotMultiple => PlanKind::NotMultiple,
    }
}
