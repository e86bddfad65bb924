// A replay in which each call of its source or of its sink fails in turn.
ghost use Rattle.std.specs.Prelude.{◌<◌};

use crate::Status;
use crate::tests::served;
use nand_model::Bytes;
use std::alloc::{AllocError, Global};
use std::test::Fail;

const DUMPED: &str = "nandlab 1\ncontroller\nchip 2048 64 64 16 4 1\nbad 3\npart 2 2\n\
    data img fill:ff:511 hex:fe\nboot\nsession 0\nflash_erase mtd0 0 0\nnandwrite -p mtd0 img\n\
    nanddump -l 2048 mtd0\nstats mtd0\n";

// How the replay of a page that is written and dumped ends where this call of its source or of its
// sink fails, and what was written.
fn replayed(
    alloc: Global,
    piece: usize,
    source_fails: &[u32],
    sink_fails: &[u32],
) -> Result<(Status, Bytes), AllocError>
    requires { 0 < piece }
{
    let plan = Bytes::from_slice(alloc, DUMPED.as_bytes())?;
    let (status, sink) = served(alloc, "replay", plan, piece, source_fails, sink_fails)?;
    Ok((status, Bytes::from_slice(alloc, sink.bytes())?))
}

// The first number of a call of the source, pieces of 16 bytes, that is never made: before it each
// call that fails ends the replay, and nothing was written. None where it ends otherwise.
fn calls_of_source(alloc: Global) -> Result<Option<u32>, AllocError> {
    for call in 1..100 {
        let (status, held) = replayed(alloc, 16, &[call], &[])?;
        match status {
            Status::ReadFault if held.as_slice().is_empty() => {}
            Status::Fine => return Ok(Some(call)),
            _ => return Ok(None),
        }
    }
    Ok(None)
}

// The same of the sink, pieces of 64 bytes: each call that fails ends the replay, and the beginning
// of its report was written.
fn calls_of_sink(alloc: Global) -> Result<Option<u32>, AllocError> {
    let (_, report) = replayed(alloc, 64, &[], &[])?;
    for call in 1..100 {
        let (status, held) = replayed(alloc, 64, &[], &[call])?;
        match status {
            Status::WriteFault if report.as_slice().starts_with(held.as_slice()) => {}
            Status::Fine => return Ok(Some(call)),
            _ => return Ok(None),
        }
    }
    Ok(None)
}

#[test]
fn each_call_fails(rt: HostRuntime) -> Result<(), Fail> {
    assert_eq!(rt; calls_of_source(rt.alloc())?, Some(14));
    assert_eq!(rt; calls_of_sink(rt.alloc())?, Some(19));
    Ok(())
}
