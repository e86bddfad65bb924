// nandwrite, nanddump and stats, reply by reply.
ghost use Rattle.command_model.specs.Runnable.{Fits};

use crate::told::{add, outcome_told, sizes, step_told};
use crate::tools::{next, outcome, start};
use nand_model::{BadMode, Bytes, Command, Geometry, PageKind, PageRead, Reply};
use std::alloc::{AllocError, Global};
use std::test::Fail;
use tool_steps::{Step, Tool};

// The next step of a command, which is told to end exactly where it does.
fn next_told(alloc: Global, tool: &mut Tool, last: Option<&Reply>) -> Result<String, AllocError> {
    let (step, ends) = next(tool, last)?;
    if ends == matches!(step, Step::Done) {
        step_told(alloc, &step)
    } else {
        String::from_str(alloc, "it ends at another step")
    }
}

// The outcome of a command, if it is over.
fn end_told(alloc: Global, tool: Tool) -> Result<String, AllocError> {
    match outcome(tool) {
        Some(outcome) => outcome_told(alloc, &outcome),
        None => String::from_str(alloc, "it goes on"),
    }
}

// What a command asks for, step by step, and its outcome, where these are the replies.
fn played(
    alloc: Global,
    g: &Geometry,
    command: &Command,
    replies: &[Reply],
) -> Result<String, AllocError>
    requires { Fits g.now command.now }
{
    let mut tool = start(alloc, command, g)?;
    let mut text = String::new(alloc);
    add(&mut text, next_told(alloc, &mut tool, None)?.as_str())?;
    for reply in replies {
        add(
            &mut text,
            next_told(alloc, &mut tool, Some(reply))?.as_str(),
        )?;
    }
    add(&mut text, end_told(alloc, tool)?.as_str())?;
    Ok(text)
}

// nandwrite of a byte to a device whose first block is bad.
fn written(alloc: Global, raw: bool) -> Result<String, AllocError> {
    let g = sizes();
    let command = Command::NandWrite {
        dev: 2,
        blocks: 2,
        mark: false,
        raw,
        oob: false,
        pad: true,
        off: 0,
        bytes: Bytes::filled(alloc, 0x66, 1)?,
    };
    let replies = [Reply::State(1), Reply::State(0), Reply::Done];
    played(alloc, &g, &command, &replies)
}

#[test]
fn writes_a_unit_to_the_second_block(rt: HostRuntime) -> Result<(), Fail> {
    let raw = written(rt.alloc(), true)?;
    assert_eq!(rt;
        raw.as_str(),
        "isbad 2 0 0\nisbad 2 1 0\nraw write 2 64 2112\ndone\n1 1 0 Whole\n"
    );
    let coded = written(rt.alloc(), false)?;
    assert_eq!(rt;
        coded.as_str(),
        "isbad 2 0 0\nisbad 2 1 0\nwrite 2 64 2082\ndone\n1 1 0 Whole\n"
    );
    Ok(())
}

// The replies to a nanddump of one page: the state of its block, if that is asked for, and the page
// with two corrected bits, unless the block is bad.
fn dump_replies(alloc: Global, state: Option<u32>) -> Result<Vec<Reply>, AllocError> {
    let mut replies = Vec::new(alloc);
    if let Some(state) = state {
        replies.push(Reply::State(state))?;
    }
    if state != Some(3) {
        replies.push(Reply::Page {
            kind: PageKind::Clean,
            read: PageRead {
                corrected: 2,
                greatest: 1,
                failed: 0,
            },
            image: Bytes::filled(alloc, 0x66, 2112)?,
        })?;
    }
    Ok(replies)
}

// nanddump of the second page of block 1.
fn dumped(
    alloc: Global,
    raw: bool,
    bad: BadMode,
    state: Option<u32>,
) -> Result<String, AllocError> {
    let g = sizes();
    let command = Command::NandDump {
        dev: 3,
        blocks: 4,
        off: 133_120,
        len: 2048,
        raw,
        oob: false,
        bad,
    };
    let replies = dump_replies(alloc, state)?;
    played(alloc, &g, &command, replies.as_slice())
}

// How a raw or coded read meets a block, and what is told of it.
fn dump_rows() -> [(bool, BadMode, Option<u32>, &'static str); 6] {
    use BadMode::{DumpBad, PadBad, SkipBad};
    let padded = "isbad 3 1 0\ndone\n0 1 0 0 of 2048\n";
    [
        (
            true,
            DumpBad,
            None,
            "raw read 3 65 0\ndone\n1 0 2 0 of 2048\n",
        ),
        (false, DumpBad, None, "read 3 65 0\ndone\n1 0 2 0 of 2048\n"),
        (
            false,
            PadBad,
            Some(0),
            "isbad 3 1 0\nread 3 65 0\ndone\n1 0 2 0 of 2048\n",
        ),
        (
            true,
            PadBad,
            Some(0),
            "isbad 3 1 0\nraw read 3 65 0\ndone\n1 0 2 0 of 2048\n",
        ),
        (false, PadBad, Some(3), padded),
        (false, SkipBad, Some(3), "isbad 3 1 0\ndone\n0 1 0 0 of 0\n"),
    ]
}

#[test]
fn dumps_a_page_of_a_good_or_bad_block(rt: HostRuntime) -> Result<(), Fail> {
    for (raw, bad, state, told) in dump_rows() {
        assert_eq!(rt; dumped(rt.alloc(), raw, bad, state)?.as_str(), told);
    }
    Ok(())
}

// stats of a device of eight blocks.
fn counted(alloc: Global) -> Result<String, AllocError> {
    let replies = [Reply::Counts {
        corrected: 16,
        failed: 2,
        bad: 3,
    }];
    let command = Command::Stats { dev: 5, blocks: 8 };
    played(alloc, &sizes(), &command, &replies)
}

#[test]
fn asks_for_statistics(rt: HostRuntime) -> Result<(), Fail> {
    assert_eq!(rt;
        counted(rt.alloc())?.as_str(),
        "stats 5 0 0\ndone\n16 2 3\n"
    );
    Ok(())
}
