//! The code over steps of 1024 bytes with its tables: those of the field of 2^14 elements modulo
//! x^14 + x^5 + x^3 + x + 1, and the remainders of bytes by the code's generators.
#![tactic(auto)]

mod code;
mod generators;
mod powers;
mod rows;

pub use code::Steps1024;

#[cfg(test)]
mod tests;
