// How far a phrase has come, and what each of its cycles does.
ghost use Rattle.std.specs.Prelude.{◌≡◌, ◌≤◌, IfSome};
ghost use Rattle.nand_model.specs.Sizes.{page_count};

use crate::cycle::{BusEvent, Cycle};
use nand_model::Geometry;

/// What a column of two address cycles is for.
#[derive(Clone, Copy)]
pub enum ColumnUse {
    /// It begins the address of a read.
    ToRead,
    /// It begins the address of a program.
    ToProgram,
    /// The bytes out of a read go on there.
    MoveRead,
    /// The bytes in for this page go on there.
    MoveLoad(u32),
}

/// What a page of three address cycles is for.
#[derive(Clone, Copy)]
pub enum RowUse {
    /// It is read from this column on.
    ReadAt(u32),
    /// It is programmed, with bytes in from this column on.
    ProgramAt(u32),
    /// Its block is erased.
    ToErase,
}

/// How far the phrase under way has come. Numbers of which some bytes are missing are those of the
/// bytes so far.
#[derive(Clone, Copy)]
pub enum Phase {
    /// No phrase is under way, and there is nothing to give.
    Idle,
    /// The low byte of a column comes next.
    ColumnLow(ColumnUse),
    /// The high byte of a column comes next.
    ColumnHigh(ColumnUse, u32),
    /// The low byte of a page's number comes next.
    RowLow(RowUse),
    /// The middle byte of a page's number comes next.
    RowMiddle(RowUse, u32),
    /// The high byte of a page's number comes next.
    RowHigh(RowUse, u32),
    /// The column and the page of a read are there.
    ReadConfirm(u32, u32),
    /// The page register gives its bytes, from this column on.
    Reading(u32),
    /// The column at which the bytes of a read go on is there.
    MoveConfirm(u32),
    /// The page register takes bytes for this page, from this column on.
    Loading(u32, u32),
    /// The page of an erase is there.
    EraseConfirm(u32),
    /// The status is given.
    Status,
}

/// What a cycle does beside leading on.
#[derive(Clone, Copy)]
pub enum Act {
    /// Nothing.
    Wait,
    /// The page register becomes 0xFF throughout.
    Clear,
    /// At this column of the page register this byte is put.
    Put(u32, u8),
    /// The event read of this page, into the page register.
    ReadPage(u32),
    /// The event program of the page register into this page.
    ProgramPage(u32),
    /// The event erase of this block.
    EraseBlock(u32),
    /// The byte of the page register at this column is given.
    GiveByte(u32),
    /// The status is given.
    GiveStatus,
    /// The fail bit is cleared.
    Reset,
}

impl Phase {
    ghost use Rattle.onfi_bus.specs.Moves.{ActFits, PhaseFits, addressed, commanded, given, loaded, step_of};

    /// What a cycle leads to and what it does; None where it is illegal.
    pub fn step(self, g: &Geometry, cycle: Cycle) -> Option<(Phase, Act)>
        requires { PhaseFits g.now self }
        ensures step { result ≡ step_of g.now self cycle }
        ensures phase { IfSome result (λ step. PhaseFits g.now step.0) }
        ensures act { IfSome result (λ step. ActFits g.now cycle step.1) }
    {
        match cycle {
            Cycle::Command(byte) => self.command(g, byte),
            Cycle::Address(byte) => self.address(g, u32::from(byte)),
            Cycle::In(byte) => self.load(g, byte),
            Cycle::Out => self.give(g),
        }
    }

    // A command cycle.
    fn command(self, g: &Geometry, byte: u8) -> Option<(Phase, Act)>
        ensures { result ≡ commanded g.now self byte }
    {
        match self {
            Phase::Idle => open(byte),
            Phase::Status => open(byte),
            Phase::Reading(_) => {
                if byte == 0x05 {
                    Some((Phase::ColumnLow(ColumnUse::MoveRead), Act::Wait))
                } else {
                    open(byte)
                }
            }
            Phase::ReadConfirm(column, page) => {
                confirm(byte, 0x30, Phase::Reading(column), Act::ReadPage(page))
            }
            Phase::MoveConfirm(column) => confirm(byte, 0xe0, Phase::Reading(column), Act::Wait),
            Phase::Loading(page, _) => {
                if byte == 0x85 {
                    Some((Phase::ColumnLow(ColumnUse::MoveLoad(page)), Act::Wait))
                } else {
                    confirm(byte, 0x10, Phase::Idle, Act::ProgramPage(page))
                }
            }
            Phase::EraseConfirm(page) => {
                let block = page / g.pages_per_block;
                confirm(byte, 0xd0, Phase::Idle, Act::EraseBlock(block))
            }
            Phase::ColumnLow(_) => reset(byte),
            Phase::ColumnHigh(_, _) => reset(byte),
            Phase::RowLow(_) => reset(byte),
            Phase::RowMiddle(_, _) => reset(byte),
            Phase::RowHigh(_, _) => reset(byte),
        }
    }

    // An address cycle.
    fn address(self, g: &Geometry, byte: u32) -> Option<(Phase, Act)>
        requires fits { PhaseFits g.now self }
        requires byte { byte ≤ 255 }
        ensures { result ≡ addressed g.now self byte }
    {
        match self {
            Phase::ColumnLow(to) => below(byte, g.raw_len(), Phase::ColumnHigh(to, byte)),
            Phase::ColumnHigh(to, low) => {
                let column = low + 256 * byte;
                below(column, g.raw_len(), to.at(column))
            }
            Phase::RowLow(to) => below(byte, pages_of(g), Phase::RowMiddle(to, byte)),
            Phase::RowMiddle(to, low) => {
                let row = low + 256 * byte;
                below(row, pages_of(g), Phase::RowHigh(to, row))
            }
            Phase::RowHigh(to, low) => {
                let row = low + 65536 * byte;
                below(row, pages_of(g), to.at(row))
            }
            _ => None,
        }
    }

    // A byte in.
    fn load(self, g: &Geometry, byte: u8) -> Option<(Phase, Act)>
        requires { PhaseFits g.now self }
        ensures { result ≡ loaded g.now self byte }
    {
        match self {
            Phase::Loading(page, column) => {
                if column < g.raw_len() {
                    Some((Phase::Loading(page, column + 1), Act::Put(column, byte)))
                } else {
                    None
                }
            }
            _ => None,
        }
    }

    // A byte out.
    fn give(self, g: &Geometry) -> Option<(Phase, Act)>
        requires { PhaseFits g.now self }
        ensures { result ≡ given g.now self }
    {
        match self {
            Phase::Reading(column) => {
                if column < g.raw_len() {
                    Some((Phase::Reading(column + 1), Act::GiveByte(column)))
                } else {
                    None
                }
            }
            Phase::Status => Some((Phase::Status, Act::GiveStatus)),
            _ => None,
        }
    }
}

impl Act {
    ghost use Rattle.onfi_bus.specs.Runs.{event_of};

    /// The event that it is; None where it is none.
    pub fn event(self) -> Option<BusEvent>
        ensures { result ≡ event_of self }
    {
        match self {
            Act::ReadPage(page) => Some(BusEvent::Read(page)),
            Act::ProgramPage(page) => Some(BusEvent::Program(page)),
            Act::EraseBlock(block) => Some(BusEvent::Erase(block)),
            _ => None,
        }
    }
}

impl ColumnUse {
    ghost use Rattle.onfi_bus.specs.Moves.{with_column};

    // What a column that is there leads to.
    fn at(self, column: u32) -> Phase
        ensures { result ≡ with_column self column }
    {
        match self {
            ColumnUse::ToRead => Phase::RowLow(RowUse::ReadAt(column)),
            ColumnUse::ToProgram => Phase::RowLow(RowUse::ProgramAt(column)),
            ColumnUse::MoveRead => Phase::MoveConfirm(column),
            ColumnUse::MoveLoad(page) => Phase::Loading(page, column),
        }
    }
}

impl RowUse {
    ghost use Rattle.onfi_bus.specs.Moves.{with_row};

    // What a page that is there leads to.
    fn at(self, page: u32) -> Phase
        ensures { result ≡ with_row self page }
    {
        match self {
            RowUse::ReadAt(column) => Phase::ReadConfirm(column, page),
            RowUse::ProgramAt(column) => Phase::Loading(page, column),
            RowUse::ToErase => Phase::EraseConfirm(page),
        }
    }
}

ghost use Rattle.onfi_bus.specs.Moves.{confirmed, led_below, opened, or_reset};

// A command that opens a phrase, or a reset.
fn open(byte: u8) -> Option<(Phase, Act)>
    ensures { result ≡ opened byte }
{
    match byte {
        0x00 => Some((Phase::ColumnLow(ColumnUse::ToRead), Act::Wait)),
        0x80 => Some((Phase::ColumnLow(ColumnUse::ToProgram), Act::Clear)),
        0x60 => Some((Phase::RowLow(RowUse::ToErase), Act::Wait)),
        0x70 => Some((Phase::Status, Act::Wait)),
        _ => reset(byte),
    }
}

// A reset, which may stand at any place.
fn reset(byte: u8) -> Option<(Phase, Act)>
    ensures { result ≡ or_reset byte }
{
    if byte == 0xff {
        Some((Phase::Idle, Act::Reset))
    } else {
        None
    }
}

// Leads on where a number of an address is below its limit.
fn below(number: u32, limit: u32, phase: Phase) -> Option<(Phase, Act)>
    ensures { result ≡ led_below number limit phase }
{
    if number < limit {
        Some((phase, Act::Wait))
    } else {
        None
    }
}

// A command that confirms what is there, or a reset.
fn confirm(byte: u8, expected: u8, phase: Phase, act: Act) -> Option<(Phase, Act)>
    ensures { result ≡ confirmed byte expected phase act }
{
    if byte == expected {
        Some((phase, act))
    } else {
        reset(byte)
    }
}

// The pages of a chip.
fn pages_of(g: &Geometry) -> u32
    ensures count { result ≡ page_count g.now }
    ensures few { result ≤ 524288 }
{
    g.blocks * g.pages_per_block
}
