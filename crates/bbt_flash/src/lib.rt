//! Attaching a chip by its tables on flash, and writing them, a page event at a time (nand_bbt; the
//! rules of a writing are this project's own).
#![tactic(auto)]

mod attach;
mod blocks;
mod choices;
mod copies;
mod held;
mod markers;
mod search;
mod spares;
mod step;
mod update;

pub use attach::{Attach, Attached};
pub use copies::Places;
pub use nand_iface::{Event, Origin, Which};
pub use update::Update;
