//! Plans: their reader, what they give to a run, and their canonical text.
#![tactic(auto)]

mod boot;
mod chips;
mod commands;
mod counts;
mod error;
mod faults;
mod parts;
mod payload;
mod plan;
mod reader;
mod sessions;
mod text;

pub use error::PlanError;
pub use plan::Plan;
pub use plan_grammar::PlanKind;
pub use reader::read_plan;
pub use text::put_plan;
