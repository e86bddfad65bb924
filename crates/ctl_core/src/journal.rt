// What a controller did so far.
use std::snapshot::Snapshot;
use tool_steps::{ControllerBoot, FlashList};

/// What a controller did so far in a boot: the boot, the flashes with which it was started, the
/// number of its attach steps, and the sessions whose turns did something, in order.
#[derive(Drop)]
pub struct Journal<F> {
    pub boot: ControllerBoot,
    pub started: Snapshot<FlashList<F>>,
    pub attaches: u32,
    pub turns: Vec<u32>,
}
