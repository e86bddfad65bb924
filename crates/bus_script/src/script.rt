// Scripts as data.
use nand_model::{Geometry, ItemList};
use onfi_bus::Cycle;

/// What the lines of a script say so far.
#[derive(Drop)]
pub struct ScriptLines {
    /// The sizes of its chip, once the chip's line has come.
    pub chip: Option<Geometry>,
    /// Its cycles.
    pub cycles: ItemList<Cycle>,
}

/// A script: the sizes of a chip, and cycles for it.
#[derive(Drop)]
pub struct Script {
    pub geometry: Geometry,
    pub cycles: ItemList<Cycle>,
}
