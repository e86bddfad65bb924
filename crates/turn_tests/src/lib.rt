//! Tests of a turnstile, round a log of the numbers of passes.
#![tactic(auto)]

mod log;
#[cfg(test)]
mod tests;

pub use log::{AddNumber, Log};
