// The summary of a run of the plan of a number.
ghost use Rattle.std.specs.Prelude.{◌≡◌, ◌++◌, [], ◌∷◌, List, OnOk};
ghost use Rattle.nand_model.specs.declared.words.Note.{Note as Noted};
ghost use Rattle.nand_model.specs.declared.words.Note.TheVariants.{Answered};
ghost use Rattle.plan_model.specs.Plan.{PlanData};
ghost use Rattle.headline_model.specs.Headline.{Courses};
ghost use Rattle.made_plan.specs.Summary.{all_notes, bad_at_end, number_line, summary_of_run, summary_text, sums_of};

use lab_text::put_number;
use nand_iface::History;
use nand_model::{Bytes, Note, Reply};
use std::alloc::AllocError;

/// What the answers of a run add up to. A number that passes 2^64 - 1 stays there.
#[derive(Clone, Copy, Debug, PartialEq, Eq)]
pub struct Sums {
    /// The answers.
    pub operations: u64,
    /// The answers that bring a page.
    pub pages_read: u64,
    /// The bits that were corrected in these pages.
    pub corrected: u64,
    /// The steps of these pages that failed.
    pub failed: u64,
}

impl Sums {
    /// The sums of no answers.
    pub fn new() -> Sums
        ensures { result ≡ sums_of [] }
    {
        Sums {
            operations: 0,
            pages_read: 0,
            corrected: 0,
            failed: 0,
        }
    }

    // Adds an answer.
    fn add_reply(&mut self, session: u32, reply: &Reply)
        ensures { (before : List Noted) → self.old ≡ sums_of before
            → self.new ≡ sums_of (before ++ Answered session reply.now ∷ []) }
    {
        self.operations = self.operations.saturating_add(1);
        if let Reply::Page { read, .. } = reply {
            self.pages_read = self.pages_read.saturating_add(1);
            self.corrected = self.corrected.saturating_add(u64::from(read.corrected));
            self.failed = self.failed.saturating_add(u64::from(read.failed));
        }
    }

    // Adds a note.
    fn add_note(&mut self, note: &Note)
        ensures { (before : List Noted) → self.old ≡ sums_of before
            → self.new ≡ sums_of (before ++ note.now ∷ []) }
    {
        match note {
            Note::Answered { session, reply } => self.add_reply(*session, reply),
            Note::Began { .. } | Note::Attached { .. } | Note::Torn { .. } => {}
        }
    }

    /// Adds the answers of a controller in a boot: sums of earlier notes become those of the
    /// earlier notes and these.
    pub fn add_notes(&mut self, notes: &History)
        ensures { (before : List Noted) → self.old ≡ sums_of before
            → self.new ≡ sums_of (before ++ notes.now.notes) }
    {
        for n in 0..notes.len() {
            self.add_note(notes.get(n));
        }
    }
}

// Appends the line of a number.
fn put_number_line(out: &mut Bytes, title: &str, n: u64) -> Result<(), AllocError>
    ensures { OnOk result (out.new ≡ out.old ++ number_line title.now n) }
{
    out.push_slice(title.as_bytes())?;
    put_number(out, n)?;
    out.push_slice(b"\n")
}

// Appends the lines of the summary.
fn put_sums(out: &mut Bytes, n: u64, sums: &Sums, bad_blocks: u64) -> Result<(), AllocError>
    ensures { OnOk result (out.new ≡ out.old ++ summary_text n sums.now bad_blocks) }
{
    put_number_line(out, "make ", n)?;
    put_number_line(out, "operations ", sums.operations)?;
    put_number_line(out, "pages read ", sums.pages_read)?;
    put_number_line(out, "corrected ", sums.corrected)?;
    put_number_line(out, "failed ", sums.failed)?;
    put_number_line(out, "bad blocks ", bad_blocks)
}

/// Appends the summary of a run of the plan of a number: the number, the sums of the answers over
/// all boots, and the blocks that are worn or factory bad in the tables of all chips at the end of
/// the last boot. Where memory runs out, a part of it may be there. The form is this project's own.
pub fn put_summary(out: &mut Bytes, n: u64, sums: &Sums, bad_blocks: u64) -> Result<(), AllocError>
    ensures text { OnOk result (out.new ≡ out.old ++ summary_text n sums.now bad_blocks) }
    ensures of_run { (plan : PlanData) (courses : Courses)
        → sums.now ≡ sums_of (all_notes plan courses) → bad_blocks ≡ bad_at_end plan courses
        → OnOk result (out.new ≡ out.old ++ summary_of_run n plan courses) }
{
    put_sums(out, n, sums, bad_blocks)
}
