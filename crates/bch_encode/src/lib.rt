//! The parity of a step of 512 bytes.
#![tactic(auto)]

mod encode;
#[cfg(test)]
mod tests;

pub use encode::parity;
