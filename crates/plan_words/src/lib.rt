//! The words of a plan's line, and the forms of single words.
#![tactic(auto)]

mod error;
mod forms;
mod lists;
mod names;
mod payload;
mod tears;
mod words;

pub use error::LineError;
pub use forms::{are_allowed, number, positive_number, small_number};
pub use lists::{numbers, pieces, small_numbers};
pub use names::{chip_numbers, device_number, is_name, weak_kind};
pub use payload::piece;
pub use tears::tear;
pub use words::{Words, four_words, one_word, three_words, two_words};
