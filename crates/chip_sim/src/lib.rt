//! A simulated NAND flash chip that keeps cells only for the pages that were programmed or flipped.
#![tactic(auto)]

mod blank_pages;
mod chip;
mod flip_log;
mod page;
mod page_store;
mod place_index;
mod slots;
mod weak_places;

pub use chip::SimChip;
