//! The replay of a whole plan and its report: each controller goes through its boots, each boot from
//! the flashes that the one before it left, by the boot's schedule and then rounds of its sessions.
#![tactic(auto)]

mod boot;
mod chips;
mod controller;
mod devices;
mod replay;
mod schedule;
mod sessions;
#[cfg(test)]
mod tests;

pub use boot::Flashes;
pub use controller::{EndedController, go_through};
pub use replay::{new_flashes, replay_report};
