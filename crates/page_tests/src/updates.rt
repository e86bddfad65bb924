// Events of a writing, worked by hand from its rules on sixteen blocks of 64 pages.
ghost use Rattle.std.specs.Prelude.{◌≡◌};
ghost use Rattle.bbt_flash.specs.Update.{update_sizes};

use bbt_flash::{Attach, Event, Places, Update, Which};
use bbt_ram::BlockTable;
use nand_model::Geometry;
use std::test::Fail;

// A table whose last four blocks are reserved and these factory bad.
fn table_with(rt: &HostRuntime, bad: &[u32]) -> Result<BlockTable, Fail> {
    let mut table = BlockTable::new(rt.alloc(), 16)?;
    for block in 12..16u32 {
        if block < table.len() {
            table.set(block, 2);
        }
    }
    for block in bad {
        if *block < table.len() {
            table.mark(*block, 3);
        }
    }
    Ok(table)
}

// Whether these are the events of an update, where each is good or fails as it is said.
fn has_events(
    g: &Geometry,
    update: &mut Update,
    table: &mut BlockTable,
    events: &[(Event, bool)],
) -> bool
    requires { update_sizes update.old ≡ g.now }
{
    for (event, ok) in events {
        if update.event() != Some(*event) {
            return false;
        }
        if table.len() == g.blocks {
            update.did(*ok, table);
        }
    }
    update.event().is_none()
}

// What a writing of both copies, in blocks 15 and 14, ends with where it has these events.
fn outcome(
    rt: &HostRuntime,
    bad: &[u32],
    version: u8,
    events: &[(Event, bool)],
) -> Result<Option<(Places, u8, Option<Which>, u32)>, Fail> {
    let g = Geometry::new(2048, 64, 64, 16, 4, 1, 0)?;
    let mut table = table_with(rt, bad)?;
    let places = Places {
        primary: 15,
        mirror: 14,
    };
    if g.bbt != 0 && 15 < g.blocks {
        let mut update = Update::start(g, places, version);
        if has_events(&g, &mut update, &mut table, events) {
            let end = (
                update.places(),
                update.version(),
                update.failed(),
                update.copies(),
            );
            return Ok(Some(end));
        }
    }
    Ok(None)
}

#[test]
fn copies_move_from_blocks_that_fail(rt: HostRuntime) -> Result<(), Fail> {
    let at = |primary: u32, mirror: u32| Places { primary, mirror };
    let mirror_fails = [
        (Event::Erase(15), true),
        (Event::Program(960), true),
        (Event::Erase(14), true),
        (Event::Program(896), false),
        (Event::Erase(13), true),
        (Event::Program(832), true),
        (Event::Erase(15), true),
        (Event::Program(960), true),
    ];
    let moved = outcome(&rt, &[], 2, &mirror_fails)?;
    assert!(rt; moved == Some((at(15, 13), 3, None, 2)));
    let primary_fails = [
        (Event::Erase(15), false),
        (Event::Erase(13), true),
        (Event::Program(832), true),
        (Event::Erase(14), true),
        (Event::Program(896), true),
    ];
    let moved = outcome(&rt, &[], 255, &primary_fails)?;
    assert!(rt; moved == Some((at(13, 14), 0, None, 2)));
    let no_block_left = outcome(&rt, &[12, 13], 2, &mirror_fails[..4])?;
    assert!(rt; no_block_left == Some((at(15, 14), 2, Some(Which::Mirror), 1)));
    Ok(())
}

#[test]
fn attaches_begin_with_a_read(rt: HostRuntime) -> Result<(), Fail> {
    for (bbt, first) in [
        (0u32, Event::Read(0)),
        (1, Event::Read(960)),
        (2, Event::Read(960)),
    ] {
        let g = Geometry::new(2048, 64, 64, 16, 4, bbt, 0)?;
        let attach = Attach::start(rt.alloc(), g)?;
        assert!(rt; attach.event() == Some(first));
    }
    Ok(())
}
