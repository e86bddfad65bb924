//! Laws of what is read back: a page that one good program has filled, with few flips, gives back
//! its body, its parity bits and exact counts.
#![tactic(auto)]

mod laws;

pub use laws::{
    courses_read_back, done_writes_fill_pages, filled_pages_read_back, lives_read_back,
    new_chips_are_fresh, runs_read_back, wrong_bits_were_flipped,
};
