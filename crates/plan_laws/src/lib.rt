//! What holds of plans that were read: their limits, what they give each controller at its start,
//! and that their canonical text is read as the same plan.
#![tactic(auto)]

mod laws;

pub use laws::{canonical_texts_are_read_again, plans_are_ready, plans_keep_limits};
