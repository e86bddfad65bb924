// The lines of commands.
ghost use Rattle.std.specs.Prelude.{◌≡◌, [], ◌∷◌, ◌++◌, OnOk, codes, decimal, map};
ghost use Rattle.report_model.specs.Report.{device_name, spaced};
ghost use Rattle.plan_grammar.specs.Canonical.{bad_option, command_words, flag, valued};
ghost use Rattle.plan_print.specs.Lines.{behind_blanks, dump_options, line_of, test_options, text_of, write_options};

use crate::words::{put_decimal, put_device, put_flag, put_text, put_valued, put_word};
use nand_model::{BadMode, Bytes, ItemList};
use plan_grammar::CommandLine;
use std::alloc::AllocError;

// Appends the words of a flash_erase.
fn put_flash_erase(
    out: &mut Bytes,
    dev: u64,
    no_scan: bool,
    start: u32,
    count: u32,
) -> Result<(), AllocError>
    ensures { OnOk result
        (out.new ≡ out.old
        ++ spaced (command_words (CommandLine.FlashErase dev no_scan start count))) }
{
    put_text(out, "flash_erase")?;
    put_flag(out, "-N", no_scan)?;
    put_device(out, dev)?;
    put_decimal(out, u64::from(start))?;
    put_decimal(out, u64::from(count))
}

// Appends the options of a nandwrite.
fn put_write_options(
    out: &mut Bytes,
    mark: bool,
    raw: bool,
    oob: bool,
    pad: bool,
    off: u64,
) -> Result<(), AllocError>
    ensures { OnOk result
        (out.new ≡ out.old ++ behind_blanks (write_options mark raw oob pad off)) }
{
    put_flag(out, "-m", mark)?;
    put_flag(out, "-n", raw)?;
    put_flag(out, "-o", oob)?;
    put_flag(out, "-p", pad)?;
    put_valued(out, "-s", off, 0)
}

// Appends the option for bad blocks.
fn put_bad_option(out: &mut Bytes, bad: BadMode) -> Result<(), AllocError>
    ensures { OnOk result (out.new ≡ out.old ++ behind_blanks (bad_option bad)) }
{
    match bad {
        BadMode::PadBad => Ok(()),
        BadMode::DumpBad => put_text(out, " --bb=dumpbad"),
        BadMode::SkipBad => put_text(out, " --bb=skipbad"),
    }
}

// Appends the options of a nanddump.
fn put_dump_options(
    out: &mut Bytes,
    off: u64,
    len: u64,
    raw: bool,
    oob: bool,
    bad: BadMode,
) -> Result<(), AllocError>
    ensures { OnOk result (out.new ≡ out.old ++ behind_blanks (dump_options off len raw oob bad)) }
{
    put_valued(out, "-s", off, 0)?;
    put_valued(out, "-l", len, 0)?;
    put_flag(out, "-n", raw)?;
    put_flag(out, "-o", oob)?;
    put_bad_option(out, bad)
}

// Appends the options of a nandtest.
fn put_test_options(
    out: &mut Bytes,
    keep: bool,
    mark: bool,
    seed: u64,
    passes: u32,
    off: u64,
    len: u64,
) -> Result<(), AllocError>
    ensures { OnOk result
        (out.new ≡ out.old ++ behind_blanks (test_options keep mark seed passes off len)) }
{
    put_flag(out, "-k", keep)?;
    put_flag(out, "-m", mark)?;
    put_valued(out, "-s", seed, 0)?;
    put_valued(out, "-p", u64::from(passes), 1)?;
    put_valued(out, "-o", off, 0)?;
    put_valued(out, "-l", len, 0)
}

// Appends the words of a command with a device and a block.
fn put_block_command(out: &mut Bytes, name: &str, dev: u64, block: u32) -> Result<(), AllocError>
    ensures { OnOk result
        (out.new ≡ out.old ++ spaced (name.now ∷ device_name dev ∷ decimal block ∷ [])) }
{
    put_text(out, name)?;
    put_device(out, dev)?;
    put_decimal(out, u64::from(block))
}

// Appends the words of a command.
fn put_words(out: &mut Bytes, command: &CommandLine) -> Result<(), AllocError>
    ensures { OnOk result (out.new ≡ out.old ++ spaced (command_words command.now)) }
{
    match command {
        CommandLine::FlashErase {
            dev,
            no_scan,
            start,
            count,
        } => { put_flash_erase(out, *dev, *no_scan, *start, *count) }
        CommandLine::NandWrite {
            dev,
            mark,
            raw,
            oob,
            pad,
            off,
            name,
        } => {
            put_text(out, "nandwrite")?;
            put_write_options(out, *mark, *raw, *oob, *pad, *off)?;
            put_device(out, *dev)?;
            put_word(out, name.as_slice())
        }
        CommandLine::NandDump {
            dev,
            off,
            len,
            raw,
            oob,
            bad,
        } => {
            put_text(out, "nanddump")?;
            put_dump_options(out, *off, *len, *raw, *oob, *bad)?;
            put_device(out, *dev)
        }
        CommandLine::NandTest {
            dev,
            keep,
            mark,
            seed,
            passes,
            off,
            len,
        } => {
            put_text(out, "nandtest")?;
            put_test_options(out, *keep, *mark, *seed, *passes, *off, *len)?;
            put_device(out, *dev)
        }
        CommandLine::MarkBad { dev, block } => put_block_command(out, "markbad", *dev, *block),
        CommandLine::IsBad { dev, block } => put_block_command(out, "isbad", *dev, *block),
        CommandLine::Stats { dev } => {
            put_text(out, "stats")?;
            put_device(out, *dev)
        }
    }
}

/// Appends the lines of commands.
pub fn put_commands(out: &mut Bytes, commands: &ItemList<CommandLine>) -> Result<(), AllocError>
    ensures { OnOk result (out.new ≡ out.old ++ text_of (map command_words commands.now)) }
{
    for command in commands {
        put_words(out, command)?;
        put_text(out, "\n")?;
    }
    Ok(())
}
