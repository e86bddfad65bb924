//! The first words of a plan's lines, and the words of commands.
#![tactic(auto)]

mod commands;
mod given;
mod kinds;
mod options;

pub use commands::command_words;
pub use kinds::line_kind;
