//! What the layers above a chip know of it: the traits of a flash chip and of a page's code, and
//! the list of notes that a controller keeps.
#![tactic(auto)]

mod flash;
mod history;
mod laws;
mod page_code;

pub use flash::{EraseFailed, Flash, ProgramFailed};
pub use history::History;
pub use laws::{erase_one_block, program_one_page, tear_one_erase, tear_one_program, turn_bits};
pub use nand_model::{Event, Fairness, Note, Op, Origin, PageKind, PageRead, Reply, Stats, Which};
pub use page_code::PageCode;
