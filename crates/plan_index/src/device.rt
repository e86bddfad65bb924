// What commands need of a device.
use nand_model::Geometry;

/// What the rules and the costs of commands need of a device.
#[derive(Clone, Copy)]
pub struct DeviceSize {
    /// Its controller.
    pub controller: usize,
    /// The sizes of its chip.
    pub geometry: Geometry,
    /// Its number of blocks.
    pub blocks: u32,
    /// How many weak pages its chip has.
    pub weak: usize,
}
