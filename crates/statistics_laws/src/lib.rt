//! The ECC statistics of a boot: they are the sums of what its reads counted, and at most 128 for
//! each turn.
#![tactic(auto)]

mod laws;

pub use laws::{counts_are_small, statistics_follow_reads};
