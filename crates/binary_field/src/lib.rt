//! Arithmetic of the fields of 2^m elements, written once over a trait.
#![tactic(auto)]

mod field;
mod laws;

pub use field::{BinaryField, FieldProducts, doubled, inverse, logarithm, power_of_x, product};
pub use laws::{inverse_laws, power_laws, product_laws, sum_laws};

#[cfg(test)]
mod tests;
