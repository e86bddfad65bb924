//! Lists of items that contracts see as lists, gone through by iterators.
#![tactic(auto)]

mod list;

pub use list::ItemList;
