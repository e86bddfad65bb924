// Words and numbers.
ghost use Rattle.std.specs.Prelude.{◌≡◌, ◌++◌, OnOk, decimal};
ghost use Rattle.report_model.specs.Report.{device_name, chip_name};

use lab_text::put_number;
use nand_model::Bytes;
use std::alloc::AllocError;

/// Appends a text.
pub fn put_text(out: &mut Bytes, text: &str) -> Result<(), AllocError>
    ensures { OnOk result (out.new ≡ out.old ++ text.now) }
{
    out.push_slice(text.as_bytes())
}

/// Appends words and a number in decimal behind them.
pub fn put_count(out: &mut Bytes, words: &str, number: u64) -> Result<(), AllocError>
    ensures { OnOk result (out.new ≡ out.old ++ (words.now ++ decimal number)) }
{
    put_text(out, words)?;
    put_number(out, number)
}

/// Appends words and a number in decimal behind them: that of a boot, a controller, a chip, a
/// session, a device, a page, a block or an event.
pub fn put_index(out: &mut Bytes, words: &str, number: u32) -> Result<(), AllocError>
    ensures { OnOk result (out.new ≡ out.old ++ (words.now ++ decimal number)) }
{
    put_count(out, words, u64::from(number))
}

/// Appends words and the name of a device behind them.
pub fn put_device_name(out: &mut Bytes, words: &str, dev: u32) -> Result<(), AllocError>
    ensures { OnOk result (out.new ≡ out.old ++ (words.now ++ device_name dev)) }
{
    put_text(out, words)?;
    put_index(out, "mtd", dev)
}

/// Appends a word and the name of a chip of a controller behind it.
pub fn put_chip_name(
    out: &mut Bytes,
    words: &str,
    controller: u32,
    chip: u32,
) -> Result<(), AllocError>
    ensures { OnOk result (out.new ≡ out.old ++ (words.now ++ chip_name controller chip)) }
{
    put_index(out, words, controller)?;
    put_index(out, ".", chip)
}
