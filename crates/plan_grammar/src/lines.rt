// The lines of a plan as data, in the order in which they stand.
use nand_model::{BadMode, BlockList, Bytes, CutAt, Flip, Geometry, ItemList, Weak};

/// A line that tells more of a chip than its sizes.
#[derive(Drop)]
pub enum DetailLine {
    /// Factory-bad blocks.
    Bad(BlockList),
    /// A weak place.
    Weak(Weak),
    /// The chip is reached by the cycles of a bus.
    Bus,
}

/// A partition: its first block and its number of blocks.
#[derive(Clone, Copy)]
pub struct PartLine {
    pub start: u32,
    pub count: u32,
}

/// A chip with the lines that belong to it.
#[derive(Drop)]
pub struct ChipLines {
    /// Its sizes, with the threshold in force.
    pub geometry: Geometry,
    /// Its factory-bad blocks, its weak places and whether it is behind a bus.
    pub details: ItemList<DetailLine>,
    /// Its partitions.
    pub parts: ItemList<PartLine>,
}

/// A piece of data.
#[derive(Drop)]
pub enum Piece {
    /// So many times one byte.
    Fill { byte: u8, len: u64 },
    /// So many of the seed bytes of a seed.
    Seed { seed: u64, len: u64 },
    /// These bytes.
    Hex(Bytes),
}

/// Data that commands name.
#[derive(Drop)]
pub struct DataLine {
    /// Its NAME: 1 to 32 letters, digits and `_`.
    pub name: Bytes,
    /// Its pieces, which are joined.
    pub pieces: ItemList<Piece>,
}

/// A fault of a boot.
#[derive(Drop)]
pub enum FaultLine {
    /// Bits of a controller's chip turn over.
    Flip { controller: u32, flip: Flip },
    /// A controller's power is cut.
    Cut { controller: u32, cut: CutAt },
}

/// The words of a command (mtd-utils). Offsets and lengths are bytes.
#[derive(Drop)]
pub enum CommandLine {
    FlashErase {
        dev: u64,
        no_scan: bool,
        start: u32,
        count: u32,
    },
    NandWrite {
        dev: u64,
        mark: bool,
        raw: bool,
        oob: bool,
        pad: bool,
        off: u64,
        name: Bytes,
    },
    NandDump {
        dev: u64,
        off: u64,
        len: u64,
        raw: bool,
        oob: bool,
        bad: BadMode,
    },
    NandTest {
        dev: u64,
        keep: bool,
        mark: bool,
        seed: u64,
        passes: u32,
        off: u64,
        len: u64,
    },
    MarkBad {
        dev: u64,
        block: u32,
    },
    IsBad {
        dev: u64,
        block: u32,
    },
    Stats {
        dev: u64,
    },
}

/// A session: its controller and its commands.
#[derive(Drop)]
pub struct SessionLines {
    pub controller: u32,
    pub commands: ItemList<CommandLine>,
}

/// A boot: its faults, its sessions, and the numbers of its schedule, which has none where it has
/// no such line.
#[derive(Drop)]
pub struct BootLines {
    pub faults: ItemList<FaultLine>,
    pub sessions: ItemList<SessionLines>,
    pub schedule: ItemList<u32>,
}

/// The lines of a plan.
#[derive(Drop)]
pub struct PlanLines {
    /// Whether the header was there.
    pub begun: bool,
    /// The chips of each controller.
    pub controllers: ItemList<ItemList<ChipLines>>,
    /// The data.
    pub payloads: ItemList<DataLine>,
    /// The boots.
    pub boots: ItemList<BootLines>,
}
