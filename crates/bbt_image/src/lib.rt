//! The pages of bad-block tables on flash: what is written, what counts as a copy, and which of two
//! copies is used (nand_bbt).
#![tactic(auto)]

mod copies;
mod errors;
mod first_step;
mod header;
mod image;
mod states;
mod versions;

pub use copies::take;
pub use errors::NoCopy;
pub use image::{put, put_encoded};
pub use nand_model::{Choice, Which};
pub use versions::choose;
