// The cycles of a bus.

/// A cycle on the bus of a chip, with its byte.
#[derive(Clone, Copy, Debug, PartialEq, Eq)]
pub enum Cycle {
    /// A command goes into the chip.
    Command(u8),
    /// A byte of an address goes into the chip.
    Address(u8),
    /// A byte of data goes into the chip.
    In(u8),
    /// A byte of data comes out of the chip.
    Out,
}

/// No list of phrases goes on with this cycle.
#[derive(Clone, Copy, Debug, PartialEq, Eq)]
pub struct Illegal;

/// An event that a cycle does at the chip. Pages and blocks are counted from 0.
#[derive(Clone, Copy, Debug, PartialEq, Eq)]
pub enum BusEvent {
    /// This page is read into the page register.
    Read(u32),
    /// The page register is programmed into this page.
    Program(u32),
    /// This block is erased.
    Erase(u32),
}
