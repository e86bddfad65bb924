//! Lines, words and numbers of a text.
#![tactic(auto)]

mod lines;
mod numbers;
#[cfg(test)]
mod tests;

pub use lines::{LineTooLong, line_end, word};
pub use numbers::{decimal, number, put_hex8, put_number};
