//! Numbers of 256 bits.
#![tactic(auto)]

mod number;

pub use number::U256;
