//! One controller of a boot: its chips, its sessions and its notes, one step a turn.
#![tactic(auto)]

mod board;
mod controller;
mod ending;
mod flips;
mod journal;
mod starting;
mod steps;
mod turn;

pub use controller::Core;
pub use ending::Ended;
pub use session_steps::{OutcomeList, SessionEnd, StatsList};
pub use tool_steps::{ControllerBoot, FlashList, Schedule};
pub use turn::Turn;
