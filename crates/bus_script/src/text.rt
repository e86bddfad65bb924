// The text of what cycles came to.
ghost use Rattle.std.specs.Prelude.{◌≡◌, ◌++◌, IfOk, OnOk, decimal};
ghost use Rattle.report_model.specs.Report.{line};
ghost use Rattle.bus_script.specs.Answer.{event_line, illegal_line, run_text};

use crate::cycles::BusRun;
use lab_text::put_number;
use nand_model::Bytes;
use onfi_bus::BusEvent;
use report_text::put_rows;
use std::alloc::{AllocError, Global};

// Appends a line of words and a number in decimal behind them.
fn put_line(out: &mut Bytes, words: &str, number: u64) -> Result<(), AllocError>
    ensures { OnOk result (out.new ≡ out.old ++ line (words.now ++ decimal number)) }
{
    out.push_slice(words.as_bytes())?;
    put_number(out, number)?;
    out.push_slice(b"\n")
}

// Appends the line of an event.
fn put_event(out: &mut Bytes, event: &BusEvent) -> Result<(), AllocError>
    ensures { OnOk result (out.new ≡ out.old ++ event_line event.now) }
{
    match event {
        BusEvent::Read(page) => put_line(out, "event read ", u64::from(*page)),
        BusEvent::Program(page) => put_line(out, "event program ", u64::from(*page)),
        BusEvent::Erase(block) => put_line(out, "event erase ", u64::from(*block)),
    }
}

/// The text of what cycles came to: a line for each event, the number of the bytes given, and their
/// rows.
pub fn run_text(alloc: Global, run: &BusRun) -> Result<Bytes, AllocError>
    ensures { IfOk result (λ text. text ≡ run_text run.now.events run.now.bytes) }
{
    let mut out = Bytes::filled(alloc, 0, 0)?;
    for n in 0..run.events.len() {
        put_event(&mut out, run.events.get(n))?;
    }
    let bytes = run.bytes.as_slice();
    put_line(&mut out, "bytes ", bytes.len() as u64)?;
    put_rows(&mut out, bytes)?;
    Ok(out)
}

/// The line that refuses an illegal cycle, by its number, counted from 1.
pub fn illegal_text(alloc: Global, cycle: usize) -> Result<Bytes, AllocError>
    ensures { IfOk result (λ text. text ≡ illegal_line cycle) }
{
    let text = format!(in alloc; "cycle {cycle}: Illegal\n")?;
    Bytes::from_slice(alloc, text.as_bytes())
}
