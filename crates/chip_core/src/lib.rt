//! One chip, whose attach or operation is held from its begin to its end.
#![tactic(auto)]

mod attach_run;
mod beginning;
mod chip;
mod judge;
mod knowledge;
mod phase;
mod quiet;
mod sums;
mod table_pages;
mod table_writing;
mod task;
mod whole;

pub use chip::Chip;
pub use mtd_part::Parts;
pub use nand_iface::{Event, Fairness, Flash, Note, Op, PageCode, Reply, Stats};
pub use whole::{attach, perform};
