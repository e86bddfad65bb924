// What an attach is at.
use crate::copies::Places;
use crate::search::Search;
use crate::update::Update;
use nand_iface::Origin;

/// What an attach is at.
#[derive(Drop)]
pub enum Step {
    /// The last four blocks are searched for copies of the table.
    Searching(Search),
    /// The markers of all blocks are read.
    Scanning(Scan),
    /// Copies of the table are written, or the attach is over.
    Writing(Rewriting),
    /// The attach is over, on a chip without tables.
    Over,
}

/// A scan of all markers: the block that is read next, and the places at which the copies are
/// written then.
#[derive(Clone, Copy, Debug)]
pub struct Scan {
    pub next: u32,
    pub places: Places,
}

/// A writing of copies of a table, and where the table came from.
#[derive(Drop)]
pub struct Rewriting {
    pub update: Update,
    pub origin: Origin,
}
