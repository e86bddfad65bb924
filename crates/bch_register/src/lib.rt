//! Division of bytes by the generator of a code, in a register of 256 bits.
#![tactic(auto)]

mod register;
mod word;

pub use register::divide;
pub use word::{number_of, parity_number, put_parity, remainder_of_word};
