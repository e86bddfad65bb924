// Lines of reports, from the examples of the report's format.
use nand_iface::History;
use nand_model::{
    Bytes, Command, Ending, Event, Fairness, Note, Op, Origin, Outcome, PageKind, PageRead, Reply,
    Stats, Which,
};
use report_text::{
    put_boot, put_boot_end, put_controller, put_cut, put_device, put_note, put_notes, put_outcome,
    put_rows, put_session,
};
use std::alloc::{AllocError, Global};
use std::test::Fail;

const NOTES: &str = "b 1 read mtd1 0
b 0 rawwrite mtd0 0
b 0 stats mtd0
a 0 table failed mirror
a 0 copies 1
a 0 marker failed
a 0 factory
a 0 counts corrected 0 failed 1 bad 0
a 0 page uncorrectable corrected 0 greatest 0 failed 1
 00000000 2 ffffffffffffffffffffffffffffffffffffffffffffffffffffffffffffffff
 00000040 1 fb2aeab4
attach 1.0 primary version 2 copies 1 quiet yes bad 1w,3f
attach 1.1 markers version 0 copies 0 quiet no bad -
torn 1.0 event 29 erase 14 cut whole
torn 1.0 event 34 program 960 cut foul
torn 1.0 event 18 program 320 fault plain
torn 1.0 event 6 read 896 cut missing
";

// A chip's attach note, with the states of its blocks.
fn attached(
    alloc: Global,
    chip: u32,
    origin: Origin,
    version: u8,
    copies: u32,
    states: &[u8],
) -> Result<Note, AllocError> {
    Ok(Note::Attached {
        chip,
        origin,
        version,
        copies,
        quiet: chip == 0,
        states: Bytes::from_slice(alloc, states)?,
    })
}

// The note of a torn event of chip 0.
fn torn(number: u32, event: Event, cut: bool, fairness: Fairness) -> Note {
    Note::Torn {
        chip: 0,
        number,
        event,
        cut,
        fairness,
    }
}

// A page of two rows of 0xFF and a short one, as an uncorrectable read gives it.
fn page(alloc: Global) -> Result<Reply, AllocError> {
    let mut image = Bytes::filled(alloc, 0xff, 64)?;
    image.push_slice(&[0xfb, 0x2a, 0xea, 0xb4])?;
    Ok(Reply::Page {
        kind: PageKind::Uncorrectable,
        read: PageRead {
            corrected: 0,
            greatest: 0,
            failed: 1,
        },
        image,
    })
}

// The replies of session 0, in the order of their lines.
fn replies(alloc: Global) -> Result<[Reply; 6], AllocError> {
    Ok([
        Reply::TableFailed(Which::Mirror),
        Reply::Copies(1),
        Reply::MarkerFailed,
        Reply::State(3),
        Reply::Counts {
            corrected: 0,
            failed: 1,
            bad: 0,
        },
        page(alloc)?,
    ])
}

// The notes of three operations that begin.
fn begun(alloc: Global) -> Result<History, AllocError> {
    let image = Bytes::filled(alloc, 0, 2112)?;
    let mut history = History::new(alloc);
    let ops = [
        (1, Op::Read { dev: 1, page: 0 }),
        (
            0,
            Op::RawWrite {
                dev: 0,
                page: 0,
                image,
            },
        ),
        (0, Op::Stats { dev: 0 }),
    ];
    for (session, op) in ops {
        history.reserve(1)?;
        history.push(Note::Began { session, op });
    }
    Ok(history)
}

// The lines of the replies.
fn put_replies(alloc: Global, out: &mut Bytes) -> Result<(), AllocError> {
    for reply in replies(alloc)? {
        put_note(out, 1, &Note::Answered { session: 0, reply })?;
    }
    Ok(())
}

// The lines of two chips that are attached, by a table and by markers.
fn put_attaches(alloc: Global, out: &mut Bytes) -> Result<(), AllocError> {
    let table = attached(alloc, 0, Origin::Primary, 2, 1, &[0, 1, 2, 3])?;
    put_note(out, 1, &table)?;
    let markers = attached(alloc, 1, Origin::Markers, 0, 0, &[0, 2])?;
    put_note(out, 1, &markers)
}

// The lines of torn events.
fn put_tears(out: &mut Bytes) -> Result<(), AllocError> {
    let events = [
        torn(29, Event::Erase(14), true, Fairness::Whole),
        torn(34, Event::Program(960), true, Fairness::Foul),
        torn(18, Event::Program(320), false, Fairness::Plain),
        torn(6, Event::Read(896), true, Fairness::Missing),
    ];
    for event in &events {
        put_note(out, 1, event)?;
    }
    Ok(())
}

// The lines of all these notes.
fn notes(alloc: Global) -> Result<Bytes, AllocError> {
    let mut out = Bytes::with_room(alloc, 1024)?;
    put_notes(&mut out, 1, &begun(alloc)?)?;
    put_replies(alloc, &mut out)?;
    put_attaches(alloc, &mut out)?;
    put_tears(&mut out)?;
    Ok(out)
}

#[test]
fn notes_of_each_kind(rt: HostRuntime) -> Result<(), Fail> {
    assert_eq!(rt; notes(rt.alloc())?.as_slice(), NOTES.as_bytes());
    Ok(())
}

const BOOT: &str = "boot 0
controller 0
session 0
flash_erase mtd0: erased 0, bad 0, failed 1
nandwrite mtd0: pages 1, skipped 0, failed 0
nandwrite mtd0: pages 0, skipped 1, failed 0, no space
nandwrite mtd0: pages 0, skipped 0, failed 0, marker byte
nanddump mtd0: pages 1, bad 0, corrected 16, failed 0
 00000000 1 0000000000000000000000000000000000000000000000000000000000000000
 00000020 63 ffffffffffffffffffffffffffffffffffffffffffffffffffffffffffffffff
nandtest mtd0: passes 1, blocks 1, bad 0, worn 0, mismatched 0, corrected 0, failed 0
markbad mtd0 15: reserved
isbad mtd0 16: out of range
stats mtd0: corrected 1, failed 0, bad 0
session 1
cut after 1
device mtd1 corrected 1 failed 0
end boot 0
";

// The outcome of a nandwrite.
fn written(pages: u64, skipped: u64, ending: Ending) -> Outcome {
    Outcome::NandWrite {
        pages,
        skipped,
        failed: 0,
        ending,
    }
}

// The dump of a page of zeros in its first row.
fn dumped(alloc: Global) -> Result<Outcome, AllocError> {
    let mut dump = Bytes::filled(alloc, 0, 32)?;
    dump.push_slice(Bytes::filled(alloc, 0xff, 2016)?.as_slice())?;
    Ok(Outcome::NandDump {
        pages: 1,
        bad: 0,
        corrected: 16,
        failed: 0,
        dump,
    })
}

// Outcomes of device 0, in the order of their lines.
fn outcomes(alloc: Global) -> Result<[Outcome; 9], AllocError> {
    Ok([
        Outcome::FlashErase {
            erased: 0,
            bad: 0,
            failed: 1,
        },
        written(1, 0, Ending::Whole),
        written(0, 1, Ending::NoSpace),
        written(0, 0, Ending::MarkerByte),
        dumped(alloc)?,
        Outcome::NandTest {
            passes: 1,
            blocks: 1,
            bad: 0,
            worn: 0,
            mismatched: 0,
            corrected: 0,
            failed: 0,
        },
        Outcome::MarkBad {
            reply: Reply::Reserved,
        },
        Outcome::IsBad {
            reply: Reply::OutOfRange,
        },
        Outcome::Stats {
            corrected: 1,
            failed: 0,
            bad: 0,
        },
    ])
}

// A command of device 0 with the outcome's variant, as far as its line names a block.
fn command_of(outcome: &Outcome) -> Command {
    let (dev, blocks) = (0, 16);
    match outcome {
        Outcome::MarkBad { .. } => Command::MarkBad {
            dev,
            blocks,
            block: 15,
        },
        Outcome::IsBad { .. } => Command::IsBad {
            dev,
            blocks,
            block: 16,
        },
        _ => Command::Stats { dev, blocks },
    }
}

// The lines of a boot up to the outcomes of its first session.
fn put_first_session(alloc: Global, out: &mut Bytes) -> Result<(), AllocError> {
    put_boot(out, 0)?;
    put_controller(out, 0)?;
    put_session(out, 0)?;
    for outcome in outcomes(alloc)? {
        put_outcome(out, &command_of(&outcome), &outcome)?;
    }
    Ok(())
}

// The lines of a session that was cut, and those behind the sessions.
fn put_second_session(out: &mut Bytes) -> Result<(), AllocError> {
    let stats = Stats {
        corrected: 1,
        failed: 0,
    };
    put_session(out, 1)?;
    put_cut(out, 1)?;
    put_device(out, 1, &stats)?;
    put_boot_end(out, 0)
}

// The lines of a boot, and those of no bytes.
fn boot(alloc: Global) -> Result<Bytes, AllocError> {
    let mut out = Bytes::with_room(alloc, 1024)?;
    put_first_session(alloc, &mut out)?;
    put_second_session(&mut out)?;
    put_rows(&mut out, &[])?;
    Ok(out)
}

#[test]
fn lines_of_a_boot(rt: HostRuntime) -> Result<(), Fail> {
    assert_eq!(rt; boot(rt.alloc())?.as_slice(), BOOT.as_bytes());
    Ok(())
}
