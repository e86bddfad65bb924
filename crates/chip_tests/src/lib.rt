//! Tests of a chip, from its attach to its last answer, over simulated flashes, also one of
//! which a page is weak, and over a flash that fails where it is told.
#![tactic(auto)]

#[cfg(test)]
mod asking;
#[cfg(test)]
mod failing;
mod failures;
#[cfg(test)]
mod lives;
#[cfg(test)]
mod simulated;
#[cfg(test)]
mod tables;
mod told;

pub use failures::Failures;
pub use told::ToldChip;
