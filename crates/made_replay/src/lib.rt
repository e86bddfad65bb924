//! The replay of the plan of a number, and its summary: the answers are added up as the controllers go
//! through the boots, and no report is made.
#![tactic(auto)]

mod boot;
mod replay;
mod summary;

pub use replay::{Totals, replay_totals};
pub use summary::made_summary;
