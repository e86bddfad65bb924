//! A ticket lock: each pass draws a ticket, waits until it is served, and lets one act work on the
//! value.
#![tactic(auto)]

mod bells;
mod pass;
mod rule;
mod tagged;
mod turnstile;
mod view;

pub use pass::{Pass, PassList};
pub use tagged::{Act, Tagged};
pub use turnstile::Turnstile;
pub use view::{Seen, View};
