//! A plan to which line after line is added, each by its rules.
#![tactic(auto)]

mod boots;
mod commands;
mod data;
mod draft;
mod faults;
mod geometry;
mod hardware;
mod places;

pub use draft::PlanDraft;
