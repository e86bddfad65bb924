// nandtest of one block, at devices that answer as they please.
ghost use Rattle.std.specs.Prelude.{◌≤◌};

use crate::told::{outcome_told, sizes};
use crate::tools::{next, outcome, start};
use nand_model::{Bytes, Command, Op, Outcome, PageKind, PageRead, Reply};
use std::alloc::{AllocError, Global};
use std::test::Fail;
use tool_steps::Step;

// What goes wrong on a device.
#[derive(Clone, Copy, PartialEq, Eq)]
enum Trouble {
    Nothing,
    EraseFails,
    WriteRefused,
    // Pages 66 and 69 are read erased.
    TwoPagesDiffer,
}

// A device whose replies show block 1, from page 64 on: the bodies that were written since it was
// erased, and how many operations it has answered.
#[derive(Drop)]
struct Device {
    trouble: Trouble,
    bodies: Vec<Bytes>,
    answers: u32,
}

impl Device {
    fn new(alloc: Global, trouble: Trouble) -> Device {
        Device {
            trouble,
            bodies: Vec::new(alloc),
            answers: 0,
        }
    }

    fn reply(&mut self, alloc: Global, op: Op) -> Result<Reply, AllocError> {
        self.answers = self.answers.saturating_add(1);
        match op {
            Op::IsBad { .. } => Ok(Reply::State(0)),
            Op::Erase { .. } if self.trouble == Trouble::EraseFails => Ok(Reply::EraseFailed),
            Op::Erase { .. } => {
                self.bodies.clear();
                Ok(Reply::Done)
            }
            Op::Write { .. } if self.trouble == Trouble::WriteRefused => Ok(Reply::BadBlock),
            Op::Write { body, .. } => {
                self.bodies.push(body)?;
                Ok(Reply::Done)
            }
            Op::Read { page, .. } => self.page(alloc, page),
            _ => Ok(Reply::Done),
        }
    }

    fn page(&self, alloc: Global, page: u32) -> Result<Reply, AllocError> {
        let is_erased = self.trouble == Trouble::TwoPagesDiffer && (page == 66 || page == 69);
        let place = page.saturating_sub(64) as usize;
        let mut image = Bytes::filled(alloc, 0xff, 2112)?;
        if place < self.bodies.len() && !is_erased {
            image = Bytes::from_slice(alloc, self.bodies[place].as_slice())?;
            image.push_slice(&[0xff; 64])?;
        }
        Ok(Reply::Page {
            kind: PageKind::Clean,
            read: PageRead {
                corrected: 1,
                greatest: 1,
                failed: 0,
            },
            image,
        })
    }
}

// nandtest of block 1 to its end.
fn tested(
    alloc: Global,
    keep: bool,
    mark: bool,
    passes: u32,
    device: &mut Device,
) -> Result<Option<Outcome>, AllocError>
    requires { 1 ≤ passes }
{
    let command = Command::NandTest {
        dev: 1,
        blocks: 2,
        keep,
        mark,
        seed: 7,
        passes,
        off: 131_072,
        len: 0,
    };
    let mut tool = start(alloc, &command, &sizes())?;
    let mut step = next(&mut tool, None)?.0;
    for _ in 0..1000 {
        let Step::Do(op) = step else {
            break;
        };
        let reply = device.reply(alloc, op)?;
        step = next(&mut tool, Some(&reply))?.0;
    }
    Ok(outcome(tool))
}

// How many operations one pass takes at such a device, and its outcome.
fn told(
    alloc: Global,
    keep: bool,
    mark: bool,
    trouble: Trouble,
) -> Result<(u32, String), AllocError> {
    let mut device = Device::new(alloc, trouble);
    let told = match tested(alloc, keep, mark, 1, &mut device)? {
        Some(outcome) => outcome_told(alloc, &outcome)?,
        None => String::from_str(alloc, "it goes on")?,
    };
    Ok((device.answers, told))
}

// Whether `-k` and `-m` are given, what goes wrong, how many operations are asked for, and the
// outcome.
fn rows() -> [(bool, bool, Trouble, u32, &'static str); 6] {
    use Trouble::{EraseFails, Nothing, TwoPagesDiffer, WriteRefused};
    [
        (false, false, Nothing, 130, "1 1 0 0 0 64 0"),
        (true, true, Nothing, 259, "1 1 0 0 0 128 0"),
        (true, true, TwoPagesDiffer, 195, "1 0 0 1 2 128 0"),
        (false, false, TwoPagesDiffer, 130, "1 0 0 1 2 64 0"),
        (false, true, EraseFails, 3, "1 0 0 1 0 0 0"),
        (false, true, WriteRefused, 3, "1 0 1 0 0 0 0"),
    ]
}

#[test]
fn tests_a_block(rt: HostRuntime) -> Result<(), Fail> {
    for (keep, mark, trouble, operations, outcome) in rows() {
        let told = told(rt.alloc(), keep, mark, trouble)?;
        assert_eq!(rt; (told.0, told.1.as_str()), (operations, outcome));
    }
    Ok(())
}

// How many pages so many passes leave written, and whether the first begins so.
fn first_body(alloc: Global, passes: u32, head: &[u8]) -> Result<(usize, bool), AllocError>
    requires { 1 ≤ passes }
{
    let mut device = Device::new(alloc, Trouble::Nothing);
    tested(alloc, false, false, passes, &mut device)?;
    let begins_so = match device.bodies.first() {
        Some(body) => body.as_slice().starts_with(head),
        None => false,
    };
    Ok((device.bodies.len(), begins_so))
}

// The first bytes of page 64 are those of SplitMix64 from the page's place on, as another program
// gives them for seed 7, and in the second pass for seed 8.
#[test]
fn each_pass_has_a_seed_of_its_own(rt: HostRuntime) -> Result<(), Fail> {
    let rows = [
        (1, [0x66, 0xc8, 0xaf, 0xfe, 0x44, 0xa5, 0xea, 0xf9]),
        (2, [0xc5, 0xfc, 0x91, 0x0c, 0x78, 0x21, 0x6f, 0x6d]),
    ];
    for (passes, head) in rows {
        assert_eq!(rt; first_body(rt.alloc(), passes, &head)?, (64, true));
    }
    Ok(())
}
