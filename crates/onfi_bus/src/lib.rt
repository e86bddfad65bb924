//! A chip behind the cycles of a bus: command, address and data cycles, after the page operations
//! of ONFI.
#![tactic(auto)]

mod chip;
mod cycle;
mod lab;
mod laws;
mod phase;
mod register;
mod state;
mod status;
mod transfer;

pub use chip::BusChip;
pub use cycle::{BusEvent, Cycle, Illegal};
pub use lab::LabChip;
pub use laws::{cycles_are_phrases, cycles_have_one_meaning};
pub use state::BusState;

#[cfg(test)]
mod tests;
