// Why a plan is refused.
use thiserror::Error;

/// The rules of a plan, in the order in which a line is tried by them. The first broken one is the
/// kind of the refusal. They are this project's own.
#[derive(Clone, Copy, Debug, PartialEq, Eq, Error)]
pub enum PlanKind {
    /// The line has more than 65,536 bytes.
    #[error("LineTooLong")]
    LineTooLong,
    /// A byte is none of LF, TAB and 0x20 to 0x7e.
    #[error("BadByte")]
    BadByte,
    /// The first word begins no line.
    #[error("UnknownWord")]
    UnknownWord,
    /// The line may not stand here.
    #[error("WrongPlace")]
    WrongPlace,
    /// Words are missing, too many or not of the stated form, an option is unknown or repeated, a
    /// controller has a second cut in one boot, or the header's number is not 1.
    #[error("BadWords")]
    BadWords,
    /// A number, a tear or a piece is not well formed or does not fit.
    #[error("BadNumber")]
    BadNumber,
    /// A chip cannot have these sizes.
    #[error("BadSize")]
    BadSize,
    /// The spare area does not hold the layout.
    #[error("SpareTooSmall")]
    SpareTooSmall,
    /// A block, page, bit, chip, controller or session that the line names does not exist, or a
    /// range passes the end of its chip or device.
    #[error("OutOfChip")]
    OutOfChip,
    /// A chip with tables on flash has more than two bad ones among its last four blocks.
    #[error("TooFewTableBlocks")]
    TooFewTableBlocks,
    /// A partition shares a block with an earlier one, or a bad block, a weak place or a NAME is
    /// given twice.
    #[error("Overlap")]
    Overlap,
    /// The device does not exist or is of another controller than the session.
    #[error("UnknownDevice")]
    UnknownDevice,
    /// No data line has this NAME.
    #[error("UnknownName")]
    UnknownName,
    /// An offset, a length or the length of data is not the multiple that the command needs.
    #[error("NotMultiple")]
    NotMultiple,
    /// A limit of plans is passed.
    #[error("TooLarge")]
    TooLarge,
    /// All lines are good, and there is no boot.
    #[error("Ended")]
    Ended,
    /// The plan has more than 16,777,216 bytes.
    #[error("TooLong")]
    TooLong,
}
