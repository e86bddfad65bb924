// The words with which lines begin, and the options of commands.
use nand_model::BadMode;

/// The kind of a line, which its first word tells.
#[derive(Clone, Copy)]
pub enum LineKind {
    Header,
    Controller,
    Chip,
    Bad,
    Weak,
    Bus,
    Part,
    Data,
    Boot,
    Flip,
    Cut,
    Session,
    Schedule,
    FlashErase,
    NandWrite,
    NandDump,
    NandTest,
    MarkBad,
    IsBad,
    Stats,
}

/// An option of a command (mtd-utils). Which of them a command has, and under which letter, is its
/// own.
#[derive(Clone, Copy)]
pub enum OptionKind {
    /// Erases without asking for the state of blocks.
    NoScan,
    /// Marks blocks that fail.
    Mark,
    /// Reads and writes without the code.
    Raw,
    /// The data have the spare area too.
    Oob,
    /// The last unit is filled up.
    Pad,
    /// What the blocks held is written back.
    Keep,
    /// What is done with bad blocks.
    Bad(BadMode),
    /// The offset in bytes.
    Offset,
    /// The length in bytes.
    Length,
    /// The seed.
    Seed,
    /// The number of passes.
    Passes,
}

/// The options of a command as they were read. A number is the option's value, which may be no
/// number.
#[derive(Clone, Copy)]
pub struct Options {
    pub no_scan: bool,
    pub mark: bool,
    pub raw: bool,
    pub oob: bool,
    pub pad: bool,
    pub keep: bool,
    pub bad: Option<BadMode>,
    pub offset: Option<Option<u64>>,
    pub length: Option<Option<u64>>,
    pub seed: Option<Option<u64>>,
    pub passes: Option<Option<u64>>,
}
