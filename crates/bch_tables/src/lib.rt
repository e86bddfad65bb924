//! What a quick code over steps is made of: the tables of a field and of a code's generators, as
//! traits, and products by tables of powers and logarithms.
#![tactic(auto)]

mod code;
mod powers;
mod products;

pub use code::StepCode;
pub use powers::PowerTables;
pub use products::{inverse_by_tables, product_by_tables};
