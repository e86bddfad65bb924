//! Partitions of a controller's chips, and the translation of their blocks and pages.
#![tactic(auto)]

mod parts;

pub use nand_model::Part;
pub use parts::{PartError, Parts};
