//! The code over steps of 512 bytes with its tables: those of the field of 2^13 elements modulo
//! x^13 + x^4 + x^3 + x + 1, and the remainders of bytes by the code's generators.
#![tactic(auto)]

mod code;
mod powers;
mod rows;

pub use code::Steps512;

#[cfg(test)]
mod tests;
