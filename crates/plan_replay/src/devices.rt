// The lines of a boot's devices.
ghost use Rattle.std.specs.Prelude.{◌≡◌, ◌++◌, flat_map, OnOk};
ghost use Rattle.plan_replay.specs.Ends.{device_text};
ghost use Rattle.plan_replay.specs.Boots.{devices_text};

use crate::controller::EndedController;
use nand_model::{Bytes, ItemList};
use report_text::put_device;
use session_steps::StatsList;
use std::alloc::AllocError;

// Appends the lines of a controller's devices.
fn put_devices(out: &mut Bytes, stats: &StatsList) -> Result<(), AllocError>
    ensures { OnOk result (out.new ≡ out.old ++ flat_map device_text stats.now) }
{
    for n in 0..stats.len() {
        let device = stats.get(n);
        put_device(out, device.0, &device.1)?;
    }
    Ok(())
}

/// Appends the lines of the devices of all controllers.
pub fn put_all_devices(out: &mut Bytes, ends: &ItemList<EndedController>) -> Result<(), AllocError>
    ensures { OnOk result (out.new ≡ out.old ++ flat_map devices_text ends.now) }
{
    for n in 0..ends.len() {
        let ended = ends.get(n);
        put_devices(out, &ended.stats)?;
    }
    Ok(())
}
