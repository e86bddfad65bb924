//! The bad-block table in memory: the states of a chip's blocks, four to a byte.
#![tactic(auto)]

mod entry;
mod table;

pub use table::BlockTable;
