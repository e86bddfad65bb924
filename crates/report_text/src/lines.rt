// The lines around notes and outcomes.
ghost use Rattle.std.specs.Prelude.{◌≡◌, ◌++◌, OnOk, codes, decimal};
ghost use Rattle.report_model.specs.Report.{device_name, line};

use crate::words::{put_count, put_device_name, put_index, put_text};
use nand_model::{Bytes, Stats};
use std::alloc::AllocError;

/// Appends the first line of boot `boot`, counted from 0.
pub fn put_boot(out: &mut Bytes, boot: u32) -> Result<(), AllocError>
    ensures { OnOk result (out.new ≡ out.old ++ line (codes "boot " ++ decimal boot)) }
{
    put_index(out, "boot ", boot)?;
    put_text(out, "\n")
}

/// Appends the last line of boot `boot`, counted from 0.
pub fn put_boot_end(out: &mut Bytes, boot: u32) -> Result<(), AllocError>
    ensures { OnOk result (out.new ≡ out.old ++ line (codes "end boot " ++ decimal boot)) }
{
    put_index(out, "end boot ", boot)?;
    put_text(out, "\n")
}

/// Appends the first line of controller `controller`, counted from 0.
pub fn put_controller(out: &mut Bytes, controller: u32) -> Result<(), AllocError>
    ensures { OnOk result (out.new ≡ out.old ++ line (codes "controller " ++ decimal controller)) }
{
    put_index(out, "controller ", controller)?;
    put_text(out, "\n")
}

/// Appends the first line of session `session`, counted from 0.
pub fn put_session(out: &mut Bytes, session: u32) -> Result<(), AllocError>
    ensures { OnOk result (out.new ≡ out.old ++ line (codes "session " ++ decimal session)) }
{
    put_index(out, "session ", session)?;
    put_text(out, "\n")
}

/// Appends the last line of a session that was cut short after `finished` commands.
pub fn put_cut(out: &mut Bytes, finished: usize) -> Result<(), AllocError>
    ensures { OnOk result (out.new ≡ out.old ++ line (codes "cut after " ++ decimal finished)) }
{
    put_count(out, "cut after ", finished as u64)?;
    put_text(out, "\n")
}

/// Appends the line of a device with the sums of its reads: bits corrected and steps failed.
pub fn put_device(out: &mut Bytes, dev: u32, stats: &Stats) -> Result<(), AllocError>
    ensures { OnOk result (out.new ≡ out.old ++ line (codes "device " ++ device_name dev
        ++ codes " corrected " ++ decimal stats.now.corrected
        ++ codes " failed " ++ decimal stats.now.failed)) }
{
    put_device_name(out, "device ", dev)?;
    put_count(out, " corrected ", stats.corrected)?;
    put_count(out, " failed ", stats.failed)?;
    put_text(out, "\n")
}
