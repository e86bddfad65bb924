//! The plan of a number, and the summary of its run.
#![tactic(auto)]

mod boots;
mod chips;
mod payloads;
mod plan;
mod summary;
#[cfg(test)]
mod tests;

pub use plan::made;
pub use summary::{Sums, put_summary};
