//! The faults that a plan gives a chip for its life, and a controller for a boot.
#![tactic(auto)]

mod faults;
mod weak;

pub use faults::Faults;
pub use nand_model::{CutAt, Flip, Weak, WeakKind};
pub use weak::WeakList;
