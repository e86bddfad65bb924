//! The sessions of a controller: each goes through its commands, one operation after the other.
#![tactic(auto)]

mod ended;
mod laws;
mod session;

pub use ended::{OutcomeList, SessionEnd, StatsList};
pub use laws::{next_operations_are_taken, notes_leave_sessions};
pub use session::Session;
