//! The costs of a plan's commands: how they grow by a command, and what is kept to know them.
#![tactic(auto)]

mod base;
mod costs;
mod laws;
mod troubles;

pub use base::{block_len, unit_len};
pub use costs::{CostIndex, device_in};
pub use laws::costs_grow;
pub use troubles::DeviceTroubles;
