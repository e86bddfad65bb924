//! The laws of BCH codes over steps of bytes, as contracts of functions without a body, for code
//! above to cite.
#![tactic(auto)]

mod bound;
mod bytes;
mod nearest;
mod parity;

pub use bound::{bch_bound, bch_bound_512, bch_bound_1024, bch_codes};
pub use bytes::bytes_laws;
pub use nearest::{code_word_test, nearest_laws};
pub use parity::{mask_laws, parity_laws};
