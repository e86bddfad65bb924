// The lines of finished commands.
ghost use Rattle.std.specs.Prelude.{◌≡◌, ◌∷◌, ◌++◌, OnOk, codes, decimal};
ghost use Rattle.nand_model.specs.Partitions.{command_device};
ghost use Rattle.report_model.specs.Report.{block_text, device_name, ending_text, line, outcome_text, reply_text};

use crate::replies::put_reply;
use crate::rows::put_rows;
use crate::words::{put_count, put_device_name, put_text};
use lab_text::put_number;
use nand_model::{Bytes, Command, Ending, Outcome, Reply};
use std::alloc::AllocError;

// What a nandwrite that did not write all its data is followed by.
fn ending_words(ending: Ending) -> &'static str
    ensures { result.now ≡ ending_text ending }
{
    match ending {
        Ending::Whole => "",
        Ending::NoSpace => ", no space",
        Ending::MarkerByte => ", marker byte",
    }
}

// Appends the block that a markbad or an isbad names.
fn put_block(out: &mut Bytes, command: &Command) -> Result<(), AllocError>
    ensures { OnOk result (out.new ≡ out.old ++ block_text command.now) }
{
    match command {
        Command::MarkBad { block, .. } => put_number(out, u64::from(*block)),
        Command::IsBad { block, .. } => put_number(out, u64::from(*block)),
        _ => Ok(()),
    }
}

// The line of a flash_erase.
fn put_erased(
    out: &mut Bytes,
    dev: u32,
    erased: u64,
    bad: u64,
    failed: u64,
) -> Result<(), AllocError>
    ensures { OnOk result (out.new ≡ out.old ++ line (codes "flash_erase " ++ device_name dev
        ++ codes ": erased " ++ decimal erased ++ codes ", bad " ++ decimal bad
        ++ codes ", failed " ++ decimal failed)) }
{
    put_device_name(out, "flash_erase ", dev)?;
    put_count(out, ": erased ", erased)?;
    put_count(out, ", bad ", bad)?;
    put_count(out, ", failed ", failed)?;
    put_text(out, "\n")
}

// The line of a nandwrite.
fn put_written(
    out: &mut Bytes,
    dev: u32,
    pages: u64,
    skipped: u64,
    failed: u64,
    ending: Ending,
) -> Result<(), AllocError>
    ensures { OnOk result (out.new ≡ out.old ++ line (codes "nandwrite " ++ device_name dev
        ++ codes ": pages " ++ decimal pages ++ codes ", skipped " ++ decimal skipped
        ++ codes ", failed " ++ decimal failed ++ ending_text ending)) }
{
    put_device_name(out, "nandwrite ", dev)?;
    put_count(out, ": pages ", pages)?;
    put_count(out, ", skipped ", skipped)?;
    put_count(out, ", failed ", failed)?;
    put_text(out, ending_words(ending))?;
    put_text(out, "\n")
}

// The line of a nanddump, before its rows.
fn put_dumped(
    out: &mut Bytes,
    dev: u32,
    pages: u64,
    bad: u64,
    corrected: u64,
    failed: u64,
) -> Result<(), AllocError>
    ensures { OnOk result (out.new ≡ out.old ++ line (codes "nanddump " ++ device_name dev
        ++ codes ": pages " ++ decimal pages ++ codes ", bad " ++ decimal bad
        ++ codes ", corrected " ++ decimal corrected ++ codes ", failed " ++ decimal failed)) }
{
    put_device_name(out, "nanddump ", dev)?;
    put_count(out, ": pages ", pages)?;
    put_count(out, ", bad ", bad)?;
    put_count(out, ", corrected ", corrected)?;
    put_count(out, ", failed ", failed)?;
    put_text(out, "\n")
}

// The first half of the line of a nandtest.
fn put_tested(
    out: &mut Bytes,
    dev: u32,
    passes: u64,
    blocks: u64,
    bad: u64,
    worn: u64,
) -> Result<(), AllocError>
    ensures { OnOk result (out.new ≡ out.old ++ (codes "nandtest " ++ device_name dev
        ++ codes ": passes " ++ decimal passes ++ codes ", blocks " ++ decimal blocks
        ++ codes ", bad " ++ decimal bad ++ codes ", worn " ++ decimal worn)) }
{
    put_device_name(out, "nandtest ", dev)?;
    put_count(out, ": passes ", passes)?;
    put_count(out, ", blocks ", blocks)?;
    put_count(out, ", bad ", bad)?;
    put_count(out, ", worn ", worn)
}

// The other half of it.
fn put_compared(
    out: &mut Bytes,
    mismatched: u64,
    corrected: u64,
    failed: u64,
) -> Result<(), AllocError>
    ensures { OnOk result (out.new ≡ out.old ++ line (codes ", mismatched " ++ decimal mismatched
        ++ codes ", corrected " ++ decimal corrected ++ codes ", failed " ++ decimal failed)) }
{
    put_count(out, ", mismatched ", mismatched)?;
    put_count(out, ", corrected ", corrected)?;
    put_count(out, ", failed ", failed)?;
    put_text(out, "\n")
}

// The line of a command that has a reply.
fn put_replied(
    out: &mut Bytes,
    name: &str,
    command: &Command,
    reply: &Reply,
) -> Result<(), AllocError>
    ensures { OnOk result (out.new ≡ out.old
        ++ line (name.now ++ device_name (command_device command.now)
        ++ 32 ∷ block_text command.now ++ codes ": " ++ reply_text reply.now)) }
{
    put_device_name(out, name, command.device())?;
    put_text(out, " ")?;
    put_block(out, command)?;
    put_text(out, ": ")?;
    put_reply(out, reply)?;
    put_text(out, "\n")
}

// The line of a stats.
fn put_asked_stats(
    out: &mut Bytes,
    dev: u32,
    corrected: u64,
    failed: u64,
    bad: u64,
) -> Result<(), AllocError>
    ensures { OnOk result (out.new ≡ out.old ++ line (codes "stats " ++ device_name dev
        ++ codes ": corrected " ++ decimal corrected ++ codes ", failed " ++ decimal failed
        ++ codes ", bad " ++ decimal bad)) }
{
    put_device_name(out, "stats ", dev)?;
    put_count(out, ": corrected ", corrected)?;
    put_count(out, ", failed ", failed)?;
    put_count(out, ", bad ", bad)?;
    put_text(out, "\n")
}

/// Appends the lines of a finished command; those of a nanddump end with the rows of its bytes.
pub fn put_outcome(out: &mut Bytes, command: &Command, outcome: &Outcome) -> Result<(), AllocError>
    ensures { OnOk result (out.new ≡ out.old ++ outcome_text command.now outcome.now) }
{
    let dev = command.device();
    match outcome {
        Outcome::FlashErase {
            erased,
            bad,
            failed,
        } => put_erased(out, dev, *erased, *bad, *failed),
        Outcome::NandWrite {
            pages,
            skipped,
            failed,
            ending,
        } => put_written(out, dev, *pages, *skipped, *failed, *ending),
        Outcome::NandDump {
            pages,
            bad,
            corrected,
            failed,
            dump,
        } => {
            put_dumped(out, dev, *pages, *bad, *corrected, *failed)?;
            put_rows(out, dump.as_slice())
        }
        Outcome::NandTest {
            passes,
            blocks,
            bad,
            worn,
            mismatched,
            corrected,
            failed,
        } => {
            put_tested(out, dev, *passes, *blocks, *bad, *worn)?;
            put_compared(out, *mismatched, *corrected, *failed)
        }
        Outcome::MarkBad { reply } => put_replied(out, "markbad ", command, reply),
        Outcome::IsBad { reply } => put_replied(out, "isbad ", command, reply),
        Outcome::Stats {
            corrected,
            failed,
            bad,
        } => put_asked_stats(out, dev, *corrected, *failed, *bad),
    }
}
