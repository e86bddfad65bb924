// The top call over sources and sinks in memory.
ghost use Rattle.std.specs.Prelude.{◌<◌};

use crate::{Status, exit_status, serial_top};
use lab_outside::{MemSink, MemSource};
use nand_model::{BlockList, Bytes};
use std::alloc::{AllocError, Global};
use std::io;
use std::io::ErrorKind;
use std::test::Fail;

const USAGE: &str =
    "usage: nandlab check or replay or run or make N or bus or encode14 T or decode14 T\n";

const SMALL: &str = "nandlab 1 # small\ncontroller\nchip 2048 64 64 0x10 4 2\nboot\n";

const CANONICAL: &str = "nandlab 1\ncontroller\nchip 2048 64 64 16 4 2 3\nboot\n";

const MARKS: &str = "nandlab 1\ncontroller\nchip 2048 64 64 16 4 0\npart 0 16\nboot\nsession 0\n\
    markbad mtd0 5\nisbad mtd0 5\nmarkbad mtd0 5\n";

const MARKS_CHECKED: &str =
    "nandlab 1\ncontroller\nchip 2048 64 64 16 4 0 3\npart 0 16\nboot\nsession 0\n\
    markbad mtd0 5\nisbad mtd0 5\nmarkbad mtd0 5\n";

const MARKED: &str = "boot 0\ncontroller 0\nattach 0.0 markers version 0 copies 0 quiet yes bad -\n\
    b 0 mark mtd0 5\na 0 ok\nb 0 isbad mtd0 5\na 0 worn\nb 0 mark mtd0 5\na 0 ok\n\
    session 0\nmarkbad mtd0 5: ok\nisbad mtd0 5: worn\nmarkbad mtd0 5: ok\n\
    device mtd0 corrected 0 failed 0\nend boot 0\n";

const SUMMARY: &str =
    "make 1\noperations 4656\npages read 2048\ncorrected 31\nfailed 0\nbad blocks 16\n";

const CYCLES: &str = "chip 2048 64 64 8 1 0\n\
    c80 a02 a00 a01 a00 a00 w5a c10 c70 r c00 a02 a00 a01 a00 a00 c30 r r\n";

const CYCLES_TOLD: &str = "event program 1\nevent read 1\nbytes 3\n 00000000 1 e05aff\n";

const ILLEGAL_CYCLE: &str = "chip 2048 64 64 8 1 0\nc00 a00 c30\n";

const FOUR_WRONG_BITS: &[u8] = b"unit 0 corrected 4\n 00000000 32 \
    ffffffffffffffffffffffffffffffffffffffffffffffffffffffffffffffff\n";

fn words_of(alloc: Global, line: &str) -> Result<Vec<String>, AllocError> {
    let mut words = Vec::new(alloc);
    for word in line.split_ascii_whitespace() {
        words.push(String::from_str(alloc, word)?)?;
    }
    Ok(words)
}

fn numbers(alloc: Global, of: &[u32]) -> Result<BlockList, AllocError> {
    let mut list = BlockList::new(alloc);
    for number in of {
        list.append(*number)?;
    }
    Ok(list)
}

// How a call with these words ends, and what its sink holds then. Source and sink move at most
// `piece` bytes in a call; the numbers name their calls that fail.
pub fn served(
    alloc: Global,
    words: &str,
    bytes: Bytes,
    piece: usize,
    source_fails: &[u32],
    sink_fails: &[u32],
) -> Result<(Status, MemSink), AllocError>
    requires { 0 < piece }
{
    let words = words_of(alloc, words)?;
    let mut source = MemSource::new(bytes, piece, numbers(alloc, source_fails)?);
    let mut sink = MemSink::new(alloc, 65536, piece, numbers(alloc, sink_fails)?)?;
    let status = serial_top(alloc, &words, &mut source, &mut sink);
    Ok((status, sink))
}

// The exit status of a call whose arguments could not be read for this reason, and what its sink
// holds then.
fn unread(alloc: Global, kind: ErrorKind) -> Result<(u8, MemSink), AllocError> {
    let mut source = MemSource::new(Bytes::filled(alloc, 0, 0)?, 4096, numbers(alloc, &[])?);
    let mut sink = MemSink::new(alloc, 65536, 65536, numbers(alloc, &[])?)?;
    let status = exit_status(alloc, Err(io::Error::from(kind)), &mut source, &mut sink);
    Ok((status, sink))
}

#[test]
fn arguments_that_are_not_read(rt: HostRuntime) -> Result<(), Fail> {
    let rows = [
        (ErrorKind::InvalidData, 2, USAGE),
        (ErrorKind::OutOfMemory, 6, ""),
    ];
    for (kind, status, text) in rows {
        let (answer, sink) = unread(rt.alloc(), kind)?;
        assert_eq!(rt; answer, status);
        assert_eq!(rt; sink.bytes(), text.as_bytes());
    }
    Ok(())
}

#[test]
fn words_and_plans(rt: HostRuntime) -> Result<(), Fail> {
    let rows = [
        ("", "", Status::Usage, USAGE),
        ("-h", SMALL, Status::Usage, USAGE),
        ("make 007", "", Status::Usage, USAGE),
        ("-- check --", SMALL, Status::Usage, USAGE),
        ("bus 4", CYCLES, Status::Usage, USAGE),
        ("encode14", "", Status::Usage, USAGE),
        ("encode14 0", "", Status::Usage, USAGE),
        ("encode14 04", "", Status::Usage, USAGE),
        ("decode14 17", "", Status::Usage, USAGE),
        ("check", SMALL, Status::Fine, CANONICAL),
        ("check --", MARKS, Status::Fine, MARKS_CHECKED),
        (
            "check",
            "nandlab 2\ncontroller\n",
            Status::PlanRefused,
            "line 1: BadWords\n",
        ),
        ("run", "", Status::PlanRefused, "line 1: Ended\n"),
        ("replay", MARKS, Status::Fine, MARKED),
        ("-- run", MARKS, Status::Fine, MARKED),
        ("make 1", "", Status::Fine, SUMMARY),
        ("bus", CYCLES, Status::Fine, CYCLES_TOLD),
        (
            "bus",
            ILLEGAL_CYCLE,
            Status::PlanRefused,
            "cycle 3: Illegal\n",
        ),
        ("bus", "", Status::PlanRefused, "line 1: Ended\n"),
        ("encode14 4", "", Status::Fine, ""),
        (
            "decode14 16",
            SMALL,
            Status::PlanRefused,
            "line 0: NotMultiple\n",
        ),
    ];
    for (words, plan, status, text) in rows {
        let bytes = Bytes::from_slice(rt.alloc(), plan.as_bytes())?;
        let (answer, sink) = served(rt.alloc(), words, bytes, 65536, &[], &[])?;
        assert_eq!(rt; answer, status, "{words}");
        assert_eq!(rt; sink.bytes(), text.as_bytes(), "{words}");
    }
    Ok(())
}

// Bytes 0xFF, and another one in one place.
fn all_but_one(alloc: Global, len: usize, at: usize, byte: u8) -> Result<Bytes, AllocError> {
    let mut bytes = Bytes::filled(alloc, 0xff, len)?;
    if let Some(found) = bytes.as_mut_slice().get_mut(at) {
        *found = byte;
    }
    Ok(bytes)
}

#[test]
fn steps_of_a_code(rt: HostRuntime) -> Result<(), Fail> {
    let alloc = rt.alloc();
    let step = all_but_one(alloc, 1024, 1023, 0xfe)?;
    let (status, sink) = served(alloc, "encode14 1", step, 65536, &[], &[])?;
    assert_eq!(rt; status, Status::Fine);
    let mut unit = all_but_one(alloc, 1025, 1023, 0xfe)?;
    unit.push_slice(&[0x53])?;
    assert_eq!(rt; sink.bytes(), unit.as_slice());
    let unit = all_but_one(alloc, 1031, 0, 0xf0)?;
    let (status, sink) = served(alloc, "decode14 4", unit, 65536, &[], &[])?;
    assert_eq!(rt; status, Status::Fine);
    assert_eq!(rt; sink.bytes(), FOUR_WRONG_BITS);
    Ok(())
}

#[test]
fn faults_and_too_many_bytes(rt: HostRuntime) -> Result<(), Fail> {
    let alloc = rt.alloc();
    let plan = Bytes::from_slice(alloc, SMALL.as_bytes())?;
    let (status, sink) = served(alloc, "check", plan, 65536, &[1], &[])?;
    assert_eq!(rt; status, Status::ReadFault);
    assert_eq!(rt; sink.bytes(), b"".as_slice());
    let plan = Bytes::from_slice(alloc, SMALL.as_bytes())?;
    let (status, sink) = served(alloc, "check", plan, 10, &[], &[2])?;
    assert_eq!(rt; status, Status::WriteFault);
    assert_eq!(rt; sink.bytes(), b"nandlab 1\n".as_slice());
    for (words, count) in [
        ("check", 16_777_217),
        ("bus", 1_048_577),
        ("encode14 4", 16_777_217),
    ] {
        let bytes = Bytes::filled(alloc, b'#', count)?;
        let (status, sink) = served(alloc, words, bytes, 65536, &[], &[])?;
        assert_eq!(rt; status, Status::PlanRefused, "{words}");
        assert_eq!(rt; sink.bytes(), b"line 0: TooLong\n".as_slice(), "{words}");
    }
    Ok(())
}
