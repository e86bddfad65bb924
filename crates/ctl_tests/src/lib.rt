//! Tests of a controller over simulated flashes: every interleaving of two sessions on two chips,
//! and flips between the events.
#![tactic(auto)]

mod driving;
#[cfg(test)]
mod flips;
#[cfg(test)]
mod interleavings;
#[cfg(test)]
mod plain;
mod small;

pub use driving::{attach_all, take_turn};
pub use small::{reading_core, small_core};
