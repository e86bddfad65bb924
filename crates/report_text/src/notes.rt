// The lines of notes.
ghost use Rattle.std.specs.Prelude.{◌≡◌, ◌∷◌, [], ◌++◌, flat_map, OnOk, codes, decimal};
ghost use Rattle.report_model.specs.Report.{note_text, line, spaced, device_name, op_text, reply_text, reply_rows, bad_entries, joined_by_commas, origin_text, yes_or_no, chip_name, event_text, cause_text, fairness_text};

use crate::attached::put_bad_blocks;
use crate::replies::{put_reply, put_reply_rows};
use crate::words::{put_chip_name, put_count, put_device_name, put_index, put_text};
use nand_iface::History;
use nand_model::{Bytes, Event, Fairness, Note, Op, Origin, Reply};
use std::alloc::AllocError;

// The line of an operation that begins, on a page or a block of a device.
fn put_operation(
    out: &mut Bytes,
    session: u32,
    name: &str,
    dev: u32,
    number: u32,
) -> Result<(), AllocError>
    ensures { OnOk result (out.new ≡ out.old
        ++ line (spaced (codes "b" ∷ decimal session ∷ name.now ∷ device_name dev ∷ decimal number
        ∷ []))) }
{
    put_index(out, "b ", session)?;
    put_text(out, " ")?;
    put_text(out, name)?;
    put_device_name(out, " ", dev)?;
    put_index(out, " ", number)?;
    put_text(out, "\n")
}

// The line of a question for the statistics of a device.
fn put_question(out: &mut Bytes, session: u32, dev: u32) -> Result<(), AllocError>
    ensures { OnOk result (out.new ≡ out.old
        ++ line (spaced (codes "b" ∷ decimal session ∷ codes "stats" ∷ device_name dev ∷ []))) }
{
    put_index(out, "b ", session)?;
    put_device_name(out, " stats ", dev)?;
    put_text(out, "\n")
}

// The line of an operation that begins.
fn put_began(out: &mut Bytes, session: u32, op: &Op) -> Result<(), AllocError>
    ensures { OnOk result (out.new ≡ out.old
        ++ line (spaced (codes "b" ∷ decimal session ∷ op_text op.now))) }
{
    match op {
        Op::Read { dev, page } => put_operation(out, session, "read", *dev, *page),
        Op::Write { dev, page, .. } => put_operation(out, session, "write", *dev, *page),
        Op::RawRead { dev, page } => put_operation(out, session, "rawread", *dev, *page),
        Op::RawWrite { dev, page, .. } => put_operation(out, session, "rawwrite", *dev, *page),
        Op::Erase { dev, block } => put_operation(out, session, "erase", *dev, *block),
        Op::IsBad { dev, block } => put_operation(out, session, "isbad", *dev, *block),
        Op::Mark { dev, block } => put_operation(out, session, "mark", *dev, *block),
        Op::Stats { dev } => put_question(out, session, *dev),
    }
}

// The lines of an answer.
fn put_answered(out: &mut Bytes, session: u32, reply: &Reply) -> Result<(), AllocError>
    ensures { OnOk result (out.new ≡ out.old
        ++ (line (spaced (codes "a" ∷ decimal session ∷ reply_text reply.now ∷ []))
        ++ reply_rows reply.now)) }
{
    put_index(out, "a ", session)?;
    put_text(out, " ")?;
    put_reply(out, reply)?;
    put_text(out, "\n")?;
    put_reply_rows(out, reply)
}

// How the copy of a table is called that an attach took it from.
fn origin_name(origin: Origin) -> &'static str
    ensures { result.now ≡ origin_text origin }
{
    match origin {
        Origin::Primary => "primary",
        Origin::Mirror => "mirror",
        Origin::Markers => "markers",
    }
}

// How an answer to a question is called.
fn answer_name(answer: bool) -> &'static str
    ensures { result.now ≡ yes_or_no answer }
{
    if answer { "yes" } else { "no" }
}

// Appends the words of an attach between its chip and its bad blocks.
fn put_table_words(
    out: &mut Bytes,
    origin: Origin,
    version: u8,
    copies: u32,
    quiet: bool,
) -> Result<(), AllocError>
    ensures { OnOk result (out.new ≡ out.old
        ++ spaced (origin_text origin ∷ codes "version" ∷ decimal version ∷ codes "copies"
        ∷ decimal copies ∷ codes "quiet" ∷ yes_or_no quiet ∷ codes "bad" ∷ [] ∷ [])) }
{
    put_text(out, origin_name(origin))?;
    put_count(out, " version ", u64::from(version))?;
    put_count(out, " copies ", u64::from(copies))?;
    put_text(out, " quiet ")?;
    put_text(out, answer_name(quiet))?;
    put_text(out, " bad ")
}

// How the fairness of a torn event is called.
fn fairness_name(fairness: Fairness) -> &'static str
    ensures { result.now ≡ fairness_text fairness }
{
    match fairness {
        Fairness::Plain => "plain",
        Fairness::Missing => "missing",
        Fairness::Whole => "whole",
        Fairness::Foul => "foul",
    }
}

// How the cause of a torn event is called.
fn cause_name(cut: bool) -> &'static str
    ensures { result.now ≡ cause_text cut }
{
    if cut { "cut" } else { "fault" }
}

// Appends the kind of an event, and its page or block.
fn put_event(out: &mut Bytes, event: Event) -> Result<(), AllocError>
    ensures { OnOk result (out.new ≡ out.old ++ spaced (event_text event)) }
{
    match event {
        Event::Read(page) => put_index(out, "read ", page),
        Event::Program(page) => put_index(out, "program ", page),
        Event::Erase(block) => put_index(out, "erase ", block),
    }
}

// Appends the words of a torn event behind its chip.
fn put_torn_words(
    out: &mut Bytes,
    number: u32,
    event: Event,
    cut: bool,
    fairness: Fairness,
) -> Result<(), AllocError>
    ensures { OnOk result (out.new ≡ out.old
        ++ spaced (codes "event" ∷ decimal number ∷ spaced (event_text event) ∷ cause_text cut
        ∷ fairness_text fairness ∷ [])) }
{
    put_index(out, "event ", number)?;
    put_text(out, " ")?;
    put_event(out, event)?;
    put_text(out, " ")?;
    put_text(out, cause_name(cut))?;
    put_text(out, " ")?;
    put_text(out, fairness_name(fairness))
}

/// Appends the lines of a note of a controller; those of a page that was read end with the rows of
/// its bytes.
pub fn put_note(out: &mut Bytes, controller: u32, note: &Note) -> Result<(), AllocError>
    ensures { OnOk result (out.new ≡ out.old ++ note_text controller note.now) }
{
    match note {
        Note::Began { session, op } => put_began(out, *session, op),
        Note::Answered { session, reply } => put_answered(out, *session, reply),
        Note::Attached {
            chip,
            origin,
            version,
            copies,
            quiet,
            states,
        } => {
            put_chip_name(out, "attach ", controller, *chip)?;
            put_text(out, " ")?;
            put_table_words(out, *origin, *version, *copies, *quiet)?;
            put_bad_blocks(out, states.as_slice())?;
            put_text(out, "\n")
        }
        Note::Torn {
            chip,
            number,
            event,
            cut,
            fairness,
        } => {
            put_chip_name(out, "torn ", controller, *chip)?;
            put_text(out, " ")?;
            put_torn_words(out, *number, *event, *cut, *fairness)?;
            put_text(out, "\n")
        }
    }
}

/// Appends the lines of the notes of a controller, in order.
pub fn put_notes(out: &mut Bytes, controller: u32, notes: &History) -> Result<(), AllocError>
    ensures { OnOk result (out.new ≡ out.old ++ flat_map (note_text controller) notes.now.notes) }
{
    for n in 0..notes.len() {
        put_note(out, controller, notes.get(n))?;
    }
    Ok(())
}
