//! Polynomials over two elements of degree up to 255, and the generators of the code over steps of
//! 512 bytes.
#![tactic(auto)]

mod generators;
mod laws;
mod poly;
mod tables;
#[cfg(test)]
mod tests;

pub use generators::{generator, minimal};
pub use laws::{generator_degree, generator_roots, minimal_coefficients_are_bits};
pub use poly::Poly;
