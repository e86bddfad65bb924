// Chips of eight blocks with tables, whose copies stand in two of the last four blocks. What comes
// is worked by hand from the rules of tables.
ghost use Rattle.std.specs.Prelude.{◌<◌, All, IfOk};

use crate::asking::Ask::{Erase, Flip, IsBad, Mark, RawWrite, Read, Write};
use crate::asking::Told::{
    BadBlock, Copies, Done, EraseFailed, MarkerFailed, Page, ProgramFailed, Reserved, State,
    TableFailed,
};
use crate::lives::Step::{Answers, Asks, Begins, Does, Fails, Finds};
use crate::lives::{Step, first_other_step};
use crate::{Failures, ToldChip};
use chip_core::Event;
use chip_core::Fairness::{Missing, Plain, Whole};
use chip_sim::SimChip;
use ecc_page::EccPage;
use fault_plan::WeakList;
use nand_iface::PageKind::Clean;
use nand_model::Origin::{Markers, Mirror, Primary};
use nand_model::{BlockList, Geometry, Which};
use std::alloc::Global;
use std::test::Fail;

// The first pages of the last four blocks are read, and then those of all blocks.
const READS_ALL: &[Event] = &[
    Event::Read(448),
    Event::Read(384),
    Event::Read(320),
    Event::Read(256),
    Event::Read(0),
    Event::Read(64),
    Event::Read(128),
    Event::Read(192),
    Event::Read(256),
    Event::Read(320),
    Event::Read(384),
    Event::Read(448),
];

// Those of the last four are read.
const READS_LAST: &[Event] = &[
    Event::Read(448),
    Event::Read(384),
    Event::Read(320),
    Event::Read(256),
];

// Both copies are written, in the last two blocks.
const WRITES_BOTH: &[Event] = &[
    Event::Erase(7),
    Event::Program(448),
    Event::Erase(6),
    Event::Program(384),
];

// The primary is written in block 5 and then the mirror in block 6; and the other way round with
// the primary in block 7.
const PRIMARY_IN_5: &[Event] = &[
    Event::Erase(5),
    Event::Program(320),
    Event::Erase(6),
    Event::Program(384),
];

const MIRROR_IN_5: &[Event] = &[
    Event::Erase(5),
    Event::Program(320),
    Event::Erase(7),
    Event::Program(448),
];

// The mark of block 1 begins with these.
const MARKS_1: &[Event] = &[Event::Erase(1), Event::Program(64)];

// The mark of block 2 begins with these.
const MARKS_2: &[Event] = &[Event::Erase(2), Event::Program(128)];

// No block is bad; the two that take no table are factory-bad.
const NONE_BAD: [u8; 8] = [0, 0, 0, 0, 2, 2, 2, 2];

const TWO_BAD: [u8; 8] = [0, 0, 0, 0, 3, 3, 2, 2];

// A new chip is attached, a block is marked, and bits of both copies turn over.
const WITHOUT_FAILURES: &[&[Step]] = &[
    &[
        Does(READS_ALL),
        Does(WRITES_BOTH),
        Finds(Markers, 1, 2, true, NONE_BAD),
        Asks(IsBad(7), State(2)),
        Asks(Erase(7), BadBlock),
        Asks(RawWrite(256, 0, 0xff), BadBlock),
        Asks(Mark(4), Reserved),
        Begins(Mark(1)),
        Does(MARKS_1),
        Does(&[Event::Erase(7), Event::Program(448)]),
        Asks(Flip(448, &[0, 9]), Done),
        Does(&[Event::Erase(6), Event::Program(384)]),
        Answers(Done),
        Asks(Mark(1), Done),
        Asks(IsBad(1), State(1)),
    ],
    &[
        Does(READS_LAST),
        Finds(Primary, 2, 2, true, [0, 1, 0, 0, 2, 2, 2, 2]),
    ],
    &[
        Asks(
            Flip(
                384,
                &[
                    4069, 4072, 4073, 4075, 4077, 4079, 4083, 4085, 4087, 4089, 4092, 4094, 4095,
                ],
            ),
            Done,
        ),
        Does(READS_LAST),
        Does(&[Event::Erase(6), Event::Program(384)]),
        Finds(Primary, 2, 2, false, [0, 1, 0, 0, 2, 2, 2, 2]),
    ],
];

// The primary's page fails in a mark, with all of its bits done: it is a copy that is disowned.
const PRIMARY_MOVES: &[&[Step]] = &[
    &[
        Does(READS_ALL),
        Does(WRITES_BOTH),
        Finds(Markers, 1, 2, true, NONE_BAD),
        Begins(Mark(1)),
        Does(MARKS_1),
        Does(&[Event::Erase(7)]),
        Fails(Event::Program(448), Whole),
        Does(PRIMARY_IN_5),
        Answers(Done),
        Asks(IsBad(7), State(3)),
        Asks(Mark(7), Done),
    ],
    &[
        Does(READS_LAST),
        Finds(Primary, 3, 2, true, [0, 1, 0, 0, 2, 2, 2, 3]),
        Begins(Mark(2)),
        Does(MARKS_2),
        Does(PRIMARY_IN_5),
        Answers(Done),
    ],
    &[
        Does(READS_LAST),
        Finds(Primary, 4, 2, true, [0, 1, 1, 0, 2, 2, 2, 3]),
    ],
];

// The mirror's block can't be erased in a mark, and holds the mirror of before.
const MIRROR_MOVES: &[&[Step]] = &[
    &[
        Does(READS_ALL),
        Does(WRITES_BOTH),
        Finds(Markers, 1, 2, true, NONE_BAD),
        Begins(Mark(1)),
        Does(MARKS_1),
        Does(&[Event::Erase(7), Event::Program(448)]),
        Fails(Event::Erase(6), Whole),
        Does(MIRROR_IN_5),
        Answers(Done),
    ],
    &[
        Does(READS_LAST),
        Finds(Primary, 3, 2, true, [0, 1, 0, 0, 2, 2, 3, 2]),
        Begins(Mark(2)),
        Does(MARKS_2),
        Does(&[
            Event::Erase(7),
            Event::Program(448),
            Event::Erase(5),
            Event::Program(320),
        ]),
        Answers(Done),
    ],
];

// The last block can't be erased in the first attach.
const MOVES_IN_AN_ATTACH: &[&[Step]] = &[
    &[
        Does(READS_ALL),
        Fails(Event::Erase(7), Missing),
        Does(PRIMARY_IN_5),
        Finds(Markers, 2, 2, true, [0, 0, 0, 0, 2, 2, 2, 3]),
    ],
    &[
        Does(READS_LAST),
        Finds(Primary, 2, 2, true, [0, 0, 0, 0, 2, 2, 2, 3]),
    ],
];

// The primary fails in two blocks of one mark and the mirror in a third one, and none is left.
const THREE_BLOCKS_FAIL: &[&[Step]] = &[
    &[
        Does(READS_ALL),
        Does(WRITES_BOTH),
        Finds(Markers, 1, 2, true, NONE_BAD),
        Begins(Mark(1)),
        Does(MARKS_1),
        Does(&[Event::Erase(7)]),
        Fails(Event::Program(448), Missing),
        Does(&[Event::Erase(5)]),
        Fails(Event::Program(320), Missing),
        Does(&[Event::Erase(4), Event::Program(256), Event::Erase(6)]),
        Fails(Event::Program(384), Missing),
        Answers(TableFailed(Which::Mirror)),
        Asks(Mark(2), Copies(1)),
    ],
    &[
        Does(READS_LAST),
        Does(&[Event::Erase(6), Event::Program(384)]),
        Finds(Primary, 4, 2, true, [0, 1, 0, 0, 2, 3, 2, 3]),
    ],
];

// The mirror fails in a mark, and again in the next attach, with no block to move to.
const NO_BLOCK_FOR_THE_MIRROR: &[&[Step]] = &[
    &[
        Does(READS_ALL),
        Does(WRITES_BOTH),
        Finds(Markers, 1, 2, true, TWO_BAD),
        Begins(Mark(1)),
        Does(MARKS_1),
        Does(&[Event::Erase(7), Event::Program(448), Event::Erase(6)]),
        Fails(Event::Program(384), Missing),
        Answers(TableFailed(Which::Mirror)),
        Asks(Mark(1), Copies(1)),
        Asks(IsBad(1), State(1)),
    ],
    &[
        Does(READS_LAST),
        Does(&[Event::Erase(6)]),
        Fails(Event::Program(384), Missing),
        Finds(Primary, 2, 1, true, [0, 1, 0, 0, 3, 3, 3, 2]),
        Asks(Mark(2), Copies(1)),
    ],
    &[
        Does(READS_LAST),
        Does(&[Event::Erase(6), Event::Program(384)]),
        Finds(Primary, 2, 2, true, [0, 1, 0, 0, 3, 3, 2, 2]),
        Asks(Mark(2), Done),
    ],
];

// The primary fails in a mark, with no block to move to: the mark is not in the mirror.
const NO_BLOCK_FOR_THE_PRIMARY: &[&[Step]] = &[
    &[
        Does(READS_ALL),
        Does(WRITES_BOTH),
        Finds(Markers, 1, 2, true, TWO_BAD),
        Begins(Mark(1)),
        Does(MARKS_1),
        Does(&[Event::Erase(7)]),
        Fails(Event::Program(448), Missing),
        Answers(TableFailed(Which::Primary)),
        Asks(Mark(2), Copies(1)),
    ],
    &[
        Does(READS_LAST),
        Does(&[Event::Erase(7), Event::Program(448)]),
        Finds(Mirror, 1, 2, true, TWO_BAD),
    ],
];

// The primary fails in the first attach, with no block to move to: no copy is written.
const NO_COPY: &[&[Step]] = &[
    &[
        Does(READS_ALL),
        Does(&[Event::Erase(7)]),
        Fails(Event::Program(448), Missing),
        Finds(Markers, 1, 0, true, [0, 0, 0, 0, 3, 3, 2, 3]),
        Asks(Mark(1), Copies(0)),
    ],
    &[
        Does(READS_ALL),
        Does(WRITES_BOTH),
        Finds(Markers, 1, 2, true, TWO_BAD),
    ],
];

// Neither the erase nor the marker of a block that is marked is good, and the table has the mark.
const MARKER_FAILS: &[&[Step]] = &[
    &[
        Does(READS_ALL),
        Does(WRITES_BOTH),
        Finds(Markers, 1, 2, true, NONE_BAD),
        Begins(Mark(1)),
        Fails(Event::Erase(1), Plain),
        Fails(Event::Program(64), Plain),
        Does(WRITES_BOTH),
        Answers(MarkerFailed),
        Asks(IsBad(1), State(1)),
    ],
    &[
        Does(READS_LAST),
        Finds(Primary, 2, 2, true, [0, 1, 0, 0, 2, 2, 2, 2]),
    ],
];

// A marker and the mirror fail, with no block to move to: the marker's failure is answered.
const MARKER_AND_MIRROR_FAIL: &[&[Step]] = &[&[
    Does(READS_ALL),
    Does(WRITES_BOTH),
    Finds(Markers, 1, 2, true, TWO_BAD),
    Begins(Mark(1)),
    Does(&[Event::Erase(1)]),
    Fails(Event::Program(64), Plain),
    Does(&[Event::Erase(7), Event::Program(448), Event::Erase(6)]),
    Fails(Event::Program(384), Missing),
    Answers(MarkerFailed),
    Asks(Mark(2), Copies(1)),
]];

// An erase and a write of a device fail.
const OPERATIONS_FAIL: &[&[Step]] = &[&[
    Does(READS_ALL),
    Does(WRITES_BOTH),
    Finds(Markers, 1, 2, true, NONE_BAD),
    Asks(Erase(0), EraseFailed),
    Asks(Write(0, 0x5a), ProgramFailed),
    Asks(Erase(0), Done),
    Asks(Write(0, 0x5a), Done),
    Asks(Read(0), Page(Clean, 0, 0, 0, 0x5a)),
    Asks(IsBad(0), State(0)),
]];

// The two blocks that take no table at first, or none.
fn factory_bad(alloc: Global, two: bool) -> Result<BlockList, Fail>
    ensures { IfOk result (λ bad. All (λ block. block < 8) bad) }
{
    let mut bad = BlockList::new(alloc);
    if two {
        bad.push(4)?;
        bad.push(5)?;
    }
    Ok(bad)
}

// The first step of a simulated chip's life that goes otherwise.
fn other_step_of_simulated(
    alloc: Global,
    bbt: u32,
    boots: &[&[Step]],
) -> Result<Option<(usize, usize)>, Fail> {
    let g = Geometry::new(2048, 64, 64, 8, 4, bbt, 0)?;
    let chip = SimChip::new(alloc, g, &BlockList::new(alloc), WeakList::new(alloc))?;
    first_other_step(alloc, chip, EccPage, boots)
}

// The same of a chip that fails where it was told.
fn other_step_of_told(
    alloc: Global,
    bbt: u32,
    two_bad: bool,
    failures: Failures,
    boots: &[&[Step]],
) -> Result<Option<(usize, usize)>, Fail> {
    let g = Geometry::new(2048, 64, 64, 8, 4, bbt, 0)?;
    let chip = ToldChip::new(alloc, g, &factory_bad(alloc, two_bad)?, failures)?;
    first_other_step(alloc, chip, EccPage, boots)
}

#[test]
fn writes_both_copies(rt: HostRuntime) -> Result<(), Fail> {
    for bbt in 1..3 {
        let other = other_step_of_simulated(rt.alloc(), bbt, WITHOUT_FAILURES)?;
        assert_eq!(rt; other, None, "tables of kind {bbt}");
    }
    Ok(())
}

// In each row, whether two blocks are factory-bad, which programs and erases fail, counted by bits
// from the first attach on, and whether they do all of their bits.
#[test]
fn moves_copies_that_fail(rt: HostRuntime) -> Result<(), Fail> {
    let rows = [
        (false, 0b1000, 0, true, PRIMARY_MOVES),
        (false, 0, 0b10000, false, MIRROR_MOVES),
        (false, 0, 0b1, false, MOVES_IN_AN_ATTACH),
        (false, 0b101_1000, 0, false, THREE_BLOCKS_FAIL),
        (true, 0b11_0000, 0, false, NO_BLOCK_FOR_THE_MIRROR),
        (true, 0b1000, 0, false, NO_BLOCK_FOR_THE_PRIMARY),
        (true, 0b1, 0, false, NO_COPY),
        (false, 0b100, 0b100, true, MARKER_FAILS),
        (true, 0b1_0100, 0, false, MARKER_AND_MIRROR_FAIL),
        (false, 0b100, 0b100, false, OPERATIONS_FAIL),
    ];
    for (two_bad, programs, erases, does_all, boots) in rows {
        let failures = Failures {
            programs,
            erases,
            does_all,
        };
        for bbt in 1..3 {
            let other = other_step_of_told(rt.alloc(), bbt, two_bad, failures, boots)?;
            assert_eq!(rt; other, None, "{failures:?}");
        }
    }
    Ok(())
}
