//! A boot of a controller, run by a schedule and then round after round.
#![tactic(auto)]

mod boot;

pub use boot::replay;
