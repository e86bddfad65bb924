//! Streams of steps of 1024 bytes: each step is followed by its stored parity, or is read by it.
#![tactic(auto)]

mod decode;
mod encode;
mod refusal;
#[cfg(test)]
mod tests;
mod words;

pub use decode::decode_units;
pub use encode::encode_units;
pub use refusal::{InputRefusal, step_refusal, unit_refusal};
pub use words::strength;
