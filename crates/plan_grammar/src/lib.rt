//! The definition of plans: their lines as data, what each line may say and where, and their
//! canonical text.
#![tactic(auto)]

mod kind;
mod laws;
mod lines;
mod words;

pub use kind::PlanKind;
pub use laws::{bytes_have_a_reading, bytes_have_one_reading};
pub use lines::{
    BootLines, ChipLines, CommandLine, DataLine, DetailLine, FaultLine, PartLine, Piece, PlanLines,
    SessionLines,
};
pub use words::{LineKind, OptionKind, Options};
