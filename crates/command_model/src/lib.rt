//! Definitions of commands and sessions: the operations that each command asks for, as its replies
//! come, and its outcome; with laws of commands alone.
#![tactic(auto)]

mod laws;

pub use laws::{commands_ask_one_device, troubles_are_few};
