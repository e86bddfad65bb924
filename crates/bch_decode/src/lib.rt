//! The decoder of the BCH code over steps of 512 bytes.
#![tactic(auto)]

mod decoder;
#[cfg(test)]
mod tests;

pub use decoder::{Decoded, decode};
