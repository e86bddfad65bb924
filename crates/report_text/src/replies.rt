// Replies.
ghost use Rattle.std.specs.Prelude.{◌≡◌, ◌++◌, OnOk};
ghost use Rattle.report_model.specs.Report.{state_text, which_text, kind_text, page_text, counts_text, reply_text, reply_rows};

use crate::rows::put_rows;
use crate::words::{put_count, put_text};
use nand_model::{Bytes, PageKind, PageRead, Reply, Which};
use std::alloc::AllocError;

// How the state of a block is called.
fn state_name(state: u32) -> &'static str
    ensures { result.now ≡ state_text state }
{
    match state {
        0 => "good",
        1 => "worn",
        2 => "reserved",
        _ => "factory",
    }
}

// How a copy of a table is called.
fn copy_name(which: Which) -> &'static str
    ensures { result.now ≡ which_text which }
{
    match which {
        Which::Primary => "primary",
        Which::Mirror => "mirror",
    }
}

// How a page that was read is called.
fn kind_name(kind: PageKind) -> &'static str
    ensures { result.now ≡ kind_text kind }
{
    match kind {
        PageKind::Raw => "raw",
        PageKind::Clean => "clean",
        PageKind::Bitflips => "bitflips",
        PageKind::Uncorrectable => "uncorrectable",
    }
}

// Appends what a page that was read is called, and its counts.
fn put_page(out: &mut Bytes, kind: PageKind, read: &PageRead) -> Result<(), AllocError>
    ensures { OnOk result (out.new ≡ out.old ++ page_text kind read.now) }
{
    put_text(out, "page ")?;
    put_text(out, kind_name(kind))?;
    put_count(out, " corrected ", u64::from(read.corrected))?;
    put_count(out, " greatest ", u64::from(read.greatest))?;
    put_count(out, " failed ", u64::from(read.failed))
}

// Appends the statistics of a device and the number of its bad blocks.
fn put_counts(out: &mut Bytes, corrected: u64, failed: u64, bad: u32) -> Result<(), AllocError>
    ensures { OnOk result (out.new ≡ out.old ++ counts_text corrected failed bad) }
{
    put_count(out, "counts corrected ", corrected)?;
    put_count(out, " failed ", failed)?;
    put_count(out, " bad ", u64::from(bad))
}

/// Appends a reply, without the rows of a page.
pub fn put_reply(out: &mut Bytes, reply: &Reply) -> Result<(), AllocError>
    ensures { OnOk result (out.new ≡ out.old ++ reply_text reply.now) }
{
    match reply {
        Reply::Done => put_text(out, "ok"),
        Reply::OutOfRange => put_text(out, "out of range"),
        Reply::BadBlock => put_text(out, "bad block"),
        Reply::MarkerByte => put_text(out, "marker byte"),
        Reply::ProgramFailed => put_text(out, "program failed"),
        Reply::EraseFailed => put_text(out, "erase failed"),
        Reply::MarkerFailed => put_text(out, "marker failed"),
        Reply::TableFailed(which) => {
            put_text(out, "table failed ")?;
            put_text(out, copy_name(*which))
        }
        Reply::Reserved => put_text(out, "reserved"),
        Reply::Copies(n) => put_count(out, "copies ", u64::from(*n)),
        Reply::State(state) => put_text(out, state_name(*state)),
        Reply::Counts {
            corrected,
            failed,
            bad,
        } => put_counts(out, *corrected, *failed, *bad),
        Reply::Page { kind, read, .. } => put_page(out, *kind, read),
    }
}

/// Appends the rows that follow a reply.
pub fn put_reply_rows(out: &mut Bytes, reply: &Reply) -> Result<(), AllocError>
    ensures { OnOk result (out.new ≡ out.old ++ reply_rows reply.now) }
{
    match reply {
        Reply::Page { image, .. } => put_rows(out, image.as_slice()),
        _ => Ok(()),
    }
}
