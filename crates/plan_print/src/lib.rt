//! The canonical text of a plan.
#![tactic(auto)]

mod boots;
mod commands;
mod forms;
mod hardware;
mod payloads;
mod plan;
mod words;

pub use plan::put_lines;
