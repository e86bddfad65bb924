//! Sizes, numbers, lists and plain data of the raw NAND core, and the definitions of a chip that
//! all contracts speak of.
#![tactic(auto)]

mod bytes;
mod geometry;
mod list;
mod tear;
mod words;

pub use bytes::Bytes;
pub use geometry::{Geometry, GeometryError};
pub use item_list::ItemList;
pub use list::{BlockList, SpanList, covers};
pub use tear::{Tear, mix};
pub use words::{
    BadMode, Choice, Command, CutAt, Ending, Event, Fairness, Flip, Note, Op, Origin, Outcome,
    PageKind, PageRead, Part, Reply, Stats, Weak, WeakKind, Which,
};
