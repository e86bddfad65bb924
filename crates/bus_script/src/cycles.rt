// Cycles one after another at a chip.
ghost use Rattle.std.specs.Prelude.{◌≡◌, ◌++◌, IfErr, IfOk, OnOk};
ghost use Rattle.std.specs.Option.{option_to_list};
ghost use Rattle.onfi_bus.specs.Runs.{HaveRun};
ghost use Rattle.bus_script.specs.Answer.{IsErrorOfCycles};

use crate::error::CycleError;
use nand_iface::Flash;
use nand_model::{Bytes, ItemList};
use onfi_bus::{BusEvent, BusState, Cycle};
use std::alloc::{AllocError, Global};

/// What cycles came to: the events that they did and the bytes that they gave, in order.
#[derive(Drop)]
pub struct BusRun {
    pub events: ItemList<BusEvent>,
    pub bytes: Bytes,
}

// Keeps the event of a cycle, where it did one.
fn keep_event(events: &mut ItemList<BusEvent>, event: Option<BusEvent>) -> Result<(), AllocError>
    ensures { OnOk result (events.new ≡ events.old ++ option_to_list event) }
{
    match event {
        Some(event) => events.append(event),
        None => Ok(()),
    }
}

// Keeps the byte of a cycle, where it gave one.
fn keep_byte(bytes: &mut Bytes, byte: Option<u8>) -> Result<(), AllocError>
    ensures { OnOk result (bytes.new ≡ bytes.old ++ option_to_list byte) }
{
    match byte {
        Some(byte) => bytes.push_slice(&[byte]),
        None => Ok(()),
    }
}

/// Takes cycles one after another over a bus of which nothing is under way: the events that they do
/// at the chip, and the bytes that they give. `Illegal` comes exactly where a cycle is illegal, at
/// the first such one.
pub fn run_cycles<F: Flash>(
    alloc: Global,
    flash: &mut F,
    cycles: &[Cycle],
) -> Result<BusRun, CycleError>
    ensures run { IfOk result (λ run. HaveRun F.fault_model (F.state flash.old)
        (F.state flash.new) cycles.now run.events run.bytes) }
    ensures refused { IfErr result (IsErrorOfCycles (F.state flash.old) cycles.now) }
{
    let mut bus = BusState::new(flash.geometry());
    let mut run = BusRun {
        events: ItemList::new(alloc),
        bytes: Bytes::filled(alloc, 0, 0)?,
    };
    let mut count = 0;
    for cycle in cycles {
        count += 1;
        flash.reserve(1, 0)?;
        let event = bus.event(*cycle);
        let Ok(byte) = bus.step(flash, *cycle) else {
            return Err(CycleError::Illegal { cycle: count });
        };
        keep_event(&mut run.events, event)?;
        keep_byte(&mut run.bytes, byte)?;
    }
    Ok(run)
}
