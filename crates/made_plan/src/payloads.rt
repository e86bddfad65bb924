// The data of the plan of a number.
ghost use Rattle.std.specs.Prelude.{◌≡◌, IfOk};
ghost use Rattle.made_plan.specs.Made.{data_name, made_data, made_payloads};

use lab_text::put_number;
use nand_model::{Bytes, ItemList};
use plan_grammar::{DataLine, Piece};
use std::alloc::{AllocError, Global};

/// The NAME of the data of a device.
pub fn data_name(alloc: Global, dev: u32) -> Result<Bytes, AllocError>
    ensures { IfOk result (λ name. name ≡ data_name dev) }
{
    let mut name = Bytes::from_slice(alloc, b"d")?;
    put_number(&mut name, u64::from(dev))?;
    Ok(name)
}

// The data of a device.
fn made_data(alloc: Global, n: u64, dev: u32) -> Result<DataLine, AllocError>
    ensures { IfOk result (λ payload. payload ≡ made_data n dev) }
{
    let mut pieces = ItemList::new(alloc);
    pieces.append(Piece::Seed {
        seed: n.wrapping_add(u64::from(dev)),
        len: 131_072,
    })?;
    Ok(DataLine {
        name: data_name(alloc, dev)?,
        pieces,
    })
}

/// The data of all devices.
pub fn made_payloads(alloc: Global, n: u64) -> Result<ItemList<DataLine>, AllocError>
    ensures { IfOk result (λ payloads. payloads ≡ made_payloads n) }
{
    let mut payloads = ItemList::new(alloc);
    for dev in 0..16 {
        payloads.append(made_data(alloc, n, dev)?)?;
    }
    Ok(payloads)
}
