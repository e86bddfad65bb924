// Words behind blanks.
ghost use Rattle.std.specs.Prelude.{◌≡◌, ◌∷◌, ◌++◌, OnOk, decimal};
ghost use Rattle.report_model.specs.Report.{device_name};
ghost use Rattle.plan_grammar.specs.Canonical.{decimals, flag, valued};
ghost use Rattle.plan_print.specs.Lines.{behind_blanks};

use lab_text::put_number;
use nand_model::{BlockList, Bytes};
use std::alloc::AllocError;

/// Appends a text.
pub fn put_text(out: &mut Bytes, text: &str) -> Result<(), AllocError>
    ensures { OnOk result (out.new ≡ out.old ++ text.now) }
{
    out.push_slice(text.as_bytes())
}

/// Appends a word behind a blank.
pub fn put_word(out: &mut Bytes, word: &[u8]) -> Result<(), AllocError>
    ensures { OnOk result (out.new ≡ out.old ++ 32 ∷ word.now) }
{
    put_text(out, " ")?;
    out.push_slice(word)
}

/// Appends a number in decimal behind a blank.
pub fn put_decimal(out: &mut Bytes, number: u64) -> Result<(), AllocError>
    ensures { OnOk result (out.new ≡ out.old ++ 32 ∷ decimal number) }
{
    put_text(out, " ")?;
    put_number(out, number)
}

/// Appends numbers in decimal, each behind a blank.
pub fn put_decimals(out: &mut Bytes, numbers: &[u32]) -> Result<(), AllocError>
    ensures { OnOk result (out.new ≡ out.old ++ behind_blanks (decimals numbers.now)) }
{
    for number in numbers {
        put_decimal(out, u64::from(*number))?;
    }
    Ok(())
}

/// Appends the numbers of a list in decimal, each behind a blank.
pub fn put_list(out: &mut Bytes, numbers: &BlockList) -> Result<(), AllocError>
    ensures { OnOk result (out.new ≡ out.old ++ behind_blanks (decimals numbers.now)) }
{
    for number in numbers {
        put_decimal(out, u64::from(*number))?;
    }
    Ok(())
}

/// Appends the name of a device behind a blank.
pub fn put_device(out: &mut Bytes, dev: u64) -> Result<(), AllocError>
    ensures { OnOk result (out.new ≡ out.old ++ 32 ∷ device_name dev) }
{
    put_text(out, " mtd")?;
    put_number(out, dev)
}

/// Appends an option that stands alone behind a blank, where it is given.
pub fn put_flag(out: &mut Bytes, word: &str, is_given: bool) -> Result<(), AllocError>
    ensures { OnOk result (out.new ≡ out.old ++ behind_blanks (flag word.now is_given)) }
{
    if is_given {
        put_word(out, word.as_bytes())?;
    }
    Ok(())
}

/// Appends an option and its value, each behind a blank, where it has not its default.
pub fn put_valued(out: &mut Bytes, word: &str, value: u64, default: u64) -> Result<(), AllocError>
    ensures { OnOk result (out.new ≡ out.old ++ behind_blanks (valued word.now value default)) }
{
    if value != default {
        put_word(out, word.as_bytes())?;
        put_decimal(out, value)?;
    }
    Ok(())
}
