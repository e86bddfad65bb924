//! Reads, writes and erases of a chip, one page event each, with their refusals.
#![tactic(auto)]

mod errors;
mod ops;

pub use errors::{EraseError, WriteError};
pub use ops::{erase, marker, put_marker, read, read_raw, write, write_raw};
