//! The commands of mtd-utils as operations that are resumed at each reply, and a controller's part
//! of a boot.
#![tactic(auto)]

mod bodies;
mod boot;
mod bound;
mod copies;
mod dumping;
mod erasing;
mod ranges;
mod replies;
mod step;
mod testing;
mod tool;
mod work;
mod writing;

pub use boot::{ControllerBoot, FlashList, Schedule};
pub use bound::{cost, has_operation};
pub use nand_model::{BadMode, Command, Ending, Outcome};
pub use step::Step;
pub use tool::Tool;
