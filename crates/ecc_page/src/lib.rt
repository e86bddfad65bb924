//! The code of a page: where its parities stand, the mask over them, and the encoder and decoder of
//! a whole page.
#![tactic(auto)]

mod erased;
mod masking;
mod masks;
mod page;
mod step;
#[cfg(test)]
mod tests;
mod written;

pub use erased::erased_check;
pub use masking::mask;
pub use page::EccPage;
pub use written::written_pages_read_back;
