// Sources and sinks at work, with a failing call in mid-stream.
use crate::{
    Failed, Gate, HoldGate, MemSink, MemSource, ReadError, Sink, Source, StdSink, StdSource,
    read_to_end, write_all,
};
use nand_model::{BlockList, Bytes};
use std::alloc::{AllocError, Global};
use std::io::{Read, Write};
use std::test::Fail;
use std::thread::Threads;
use std::{io, thread};

const TEXT: &[u8] = b"nandlab 1\n";

fn numbers(alloc: Global, of: &[u32]) -> Result<BlockList, AllocError> {
    let mut list = BlockList::new(alloc);
    for number in of {
        list.append(*number)?;
    }
    Ok(list)
}

fn source(alloc: Global, failing: &[u32]) -> Result<MemSource, AllocError> {
    let bytes = Bytes::from_slice(alloc, TEXT)?;
    Ok(MemSource::new(bytes, 4, numbers(alloc, failing)?))
}

#[test]
fn source_in_memory(rt: HostRuntime) -> Result<(), Fail> {
    let calls = [
        (8, Ok(4), b"nand...."),
        (8, Err(Failed), b"........"),
        (3, Ok(3), b"lab....."),
        (0, Ok(0), b"........"),
        (8, Ok(3), b" 1\n....."),
        (8, Ok(0), b"........"),
    ];
    let mut source = source(rt.alloc(), &[2])?;
    for (room, answer, after) in calls {
        let mut buf = [b'.'; 8];
        assert_eq!(rt; source.read(&mut buf[..room]), answer, "a buffer of {room}");
        assert_eq!(rt; &buf, after);
    }
    Ok(())
}

#[test]
fn sink_in_memory(rt: HostRuntime) -> Result<(), Fail> {
    let calls: [(&[u8], Result<usize, Failed>, &[u8]); 5] = [
        (b"nandlab", Ok(4), b"nand"),
        (b"lab", Err(Failed), b"nand"),
        (b"lab", Ok(2), b"nandla"),
        (b"", Ok(0), b"nandla"),
        (b"b", Err(Failed), b"nandla"),
    ];
    let mut sink = MemSink::new(rt.alloc(), 6, 4, numbers(rt.alloc(), &[2])?)?;
    for (bytes, answer, held) in calls {
        assert_eq!(rt; sink.write(bytes), answer, "{bytes:?}");
        assert_eq!(rt; sink.bytes(), held);
    }
    Ok(())
}

#[test]
fn whole_texts(rt: HostRuntime) -> Result<(), Fail> {
    let readings: [(usize, &[u32], Option<ReadError>); 5] = [
        (10, &[], None),
        (9, &[], Some(ReadError::TooLong)),
        (9, &[4], Some(ReadError::TooLong)),
        (10, &[4], Some(ReadError::Failed)),
        (9, &[3], Some(ReadError::Failed)),
    ];
    for (limit, failing, error) in readings {
        let mut source = source(rt.alloc(), failing)?;
        match read_to_end(rt.alloc(), &mut source, limit) {
            Ok(bytes) => {
                assert_eq!(rt; error, None);
                assert_eq!(rt; bytes.as_slice(), TEXT);
            }
            Err(e) => assert_eq!(rt; Some(e), error),
        }
    }

    let mut sink = MemSink::new(rt.alloc(), 20, 4, BlockList::new(rt.alloc()))?;
    assert_eq!(rt; write_all(&mut sink, TEXT), Ok(()));
    assert_eq!(rt; sink.bytes(), TEXT);
    Ok(())
}

/// Gives the bytes of a text, at most three in a call, but answers an error in place of the second
/// call.
#[derive(Drop)]
struct Faltering<'a> {
    left: &'a [u8],
    calls: u8,
}

impl Read for Faltering<'_> {
    fn read(&mut self, buf: &mut [u8]) -> io::Result<usize> {
        self.calls = self.calls.saturating_add(1);
        if self.calls == 2 {
            return Err(io::Error::from(io::ErrorKind::TimedOut));
        }
        let room = buf.len().min(3);
        self.left.read(&mut buf[..room])
    }
}

#[test]
fn reader_as_a_source(rt: HostRuntime) {
    let mut source = StdSource::new(Faltering {
        left: b"plan",
        calls: 0,
    });
    let calls = [
        (Ok(3), b"pla....."),
        (Err(Failed), b"........"),
        (Ok(1), b"n......."),
        (Ok(0), b"........"),
    ];
    for (answer, after) in calls {
        let mut buf = [b'.'; 8];
        assert_eq!(rt; source.read(&mut buf), answer);
        assert_eq!(rt; &buf, after);
    }
}

/// Takes at most three bytes in a call, but answers an error in place of the second call, and takes
/// nothing in the fourth.
#[derive(Drop)]
struct Short {
    taken: Vec<u8>,
    calls: u8,
}

impl Write for Short {
    fn write(&mut self, buf: &[u8]) -> io::Result<usize> {
        self.calls = self.calls.saturating_add(1);
        if self.calls == 2 {
            return Err(io::Error::from(io::ErrorKind::BrokenPipe));
        }
        let count = if self.calls == 4 { 0 } else { buf.len().min(3) };
        self.taken.extend_from_slice(&buf[..count])?;
        Ok(count)
    }

    fn flush(&mut self) -> io::Result<()> {
        Ok(())
    }
}

#[test]
fn writer_as_a_sink(rt: HostRuntime) {
    let mut writer = Short {
        taken: Vec::new(rt.alloc()),
        calls: 0,
    };
    let mut sink = StdSink::new(&mut writer);
    for answer in [Ok(3), Err(Failed), Ok(3), Err(Failed), Ok(3)] {
        assert_eq!(rt; sink.write(b"report"), answer);
    }
    assert_eq!(rt; sink.write(b""), Ok(0));
    assert_eq!(rt; writer.taken.as_slice(), b"repreprep".as_slice());
}

// Two passes of a session, as its worker makes them.
fn pass_twice(gate: &HoldGate, session: u32) {
    gate.pass(session, 0);
    gate.pass(session, 1);
}

// Whether a session gives up where these pass one after the other on one thread.
fn gives_up(looks: u64, sessions: [u32; 2]) -> bool {
    let gate = HoldGate::new(0, 1, looks);
    pass_twice(&gate, sessions[0]);
    pass_twice(&gate, sessions[1]);
    gate.gave_up()
}

// Whether a session gives up where two pass on threads of their own.
fn gives_up_beside<R: Threads + Sync>(rt: &R, looks: u64) -> bool {
    let gate = HoldGate::new(0, 1, looks);
    thread::join(rt, || pass_twice(&gate, 0), || pass_twice(&gate, 1));
    gate.gave_up()
}

#[test]
fn sessions_that_meet_at_a_gate(rt: HostRuntime) {
    let one_thread = (gives_up(100, [0, 1]), gives_up(100, [1, 0]));
    assert_eq!(rt; one_thread, (true, true));
    assert_eq!(rt; gives_up(100, [2, 3]), false);
    assert_eq!(rt; gives_up_beside(&rt, 100_000_000), false);
}
