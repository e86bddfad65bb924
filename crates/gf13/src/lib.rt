//! The field of 2^13 elements: polynomials over two elements modulo x^13 + x^4 + x^3 + x + 1, the
//! field of lib/bch's codes over steps of 512 bytes.
#![tactic(auto)]

mod elem;
mod field;
mod laws;

pub use elem::Elem;
pub use field::Field13;
pub use laws::{inverse_laws, power_laws, product_laws, sum_laws};

#[cfg(test)]
mod tests;
