//! The BCH code over steps of 1024 bytes: that of lib/bch with m = 14 and the polynomial 0x402b.
//! None of its calls takes memory.
#![tactic(auto)]

mod code;
#[cfg(test)]
mod tests;

pub use bch_decode::Decoded as Decoded14;
pub use code::{decode14, decode14_in_slice, mask14, parity14, parity14_of_slice};
