// What a tool does next.
use nand_model::{Op, Outcome};

/// What a command does next.
#[derive(Drop)]
pub enum Step {
    /// This operation is to be done, and its reply handed over.
    Do(Op),
    /// The command is over.
    Done,
}

// What comes of a reply to a command.
#[derive(Drop)]
pub enum Turn {
    // This operation comes next.
    Ask(Op),
    // The command is over.
    End(Outcome),
}

// Where a command stands, or the outcome with which it is over.
#[derive(Drop)]
pub enum State<P> {
    At(P),
    Over(Outcome),
}
