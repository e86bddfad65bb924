// Why a page holds no copy of a table.
use thiserror::Error;

/// Why a page holds no copy of a table.
#[derive(Clone, Copy, Debug, PartialEq, Eq, Error)]
pub enum NoCopy {
    /// Neither pattern stands in its place.
    #[error("the page has no table's pattern")]
    NoPattern,
    /// A step of the page cannot be decoded.
    #[error("the page cannot be decoded")]
    Unreadable,
}
