// Why an operation of a page or a block is not done.
use thiserror::Error;

/// Why a page is not written.
#[derive(Clone, Copy, Debug, PartialEq, Eq, Error)]
pub enum WriteError {
    /// The entry of its block is not 0.
    #[error("the block is bad or reserved")]
    BadBlock,
    /// Spare byte 0 of the image, where a bad-block marker stands, is not 0xFF.
    #[error("the image would mark its block as bad")]
    MarkerByte,
    /// The program failed, and the page is torn.
    #[error("the program failed")]
    ProgramFailed,
}

/// Why a block is not erased.
#[derive(Clone, Copy, Debug, PartialEq, Eq, Error)]
pub enum EraseError {
    /// The entry of the block is not 0.
    #[error("the block is bad or reserved")]
    BadBlock,
    /// The erase failed, and the pages of the block are torn.
    #[error("the erase failed")]
    EraseFailed,
}
