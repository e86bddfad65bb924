//! What is kept of a plan's lines beside them, so that no rule of a line searches the lines before
//! it.
#![tactic(auto)]

mod data;
mod device;
mod grow;
mod lists;
mod marks;

pub use data::{DataIndex, DataPlace};
pub use device::DeviceSize;
pub use grow::{add_chip, add_command, add_detail, add_fault, add_part, add_session, set_schedule};
pub use lists::last;
pub use marks::ChipMarks;
