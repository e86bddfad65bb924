//! The text of a report: notes, rows of bytes, outcomes of commands, and the lines around them.
//!
//! Each call appends to a text, and takes memory for that alone. Where memory runs out, a part of
//! the call's text may be there.
#![tactic(auto)]

mod attached;
mod lines;
mod notes;
mod outcomes;
mod replies;
mod rows;
mod words;

pub use lines::{put_boot, put_boot_end, put_controller, put_cut, put_device, put_session};
pub use notes::{put_note, put_notes};
pub use outcomes::put_outcome;
pub use rows::put_rows;
