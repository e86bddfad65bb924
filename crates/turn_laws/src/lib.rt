//! How long a boot is: the operations of its commands bound its turns, and its turns and attaches
//! bound its events.
#![tactic(auto)]

mod laws;

pub use laws::courses_end;
