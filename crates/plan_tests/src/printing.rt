// The text of a plan with lines of each kind.
use nand_model::{BadMode, Bytes, CutAt, Flip, Geometry, ItemList, Tear, Weak, WeakKind};
use plan_grammar::{
    BootLines, ChipLines, CommandLine, DataLine, DetailLine, FaultLine, PartLine, Piece, PlanLines,
    SessionLines,
};
use plan_print::put_lines;
use std::alloc::{AllocError, Global};
use std::test::Fail;

const TEXT: &str = "nandlab 1
controller
chip 2048 64 64 16 4 1 3
bad 3 12
weak erase 5 0 seed:7
bus
part 0 16
data img fill:0f:4096 seed:18446744073709551615:3 hex:00ab
boot
flip 0.0 5 1 0 16895
cut 0 9 spans:0-4,64-2048
session 0
flash_erase -N mtd0 0 0
nandwrite -m -p -s 2048 mtd0 img
nanddump -n --bb=skipbad mtd0
nandtest -k -p 2 mtd0
markbad mtd0 3
isbad mtd0 4
stats mtd0
schedule 0 0
";

// A chip behind a bus, with bad blocks and a weak place.
fn chip(alloc: Global) -> Result<ChipLines, Fail> {
    let geometry = Geometry::new(2048, 64, 64, 16, 4, 1, 0)?;
    let bad = DetailLine::Bad(ItemList::from_vec(vec![in alloc; 3, 12]?));
    let weak = DetailLine::Weak(Weak {
        kind: WeakKind::Erase,
        at: 5,
        after: 0,
        tear: Tear::Seed(7),
    });
    let part = PartLine {
        start: 0,
        count: 16,
    };
    Ok(ChipLines {
        geometry,
        details: ItemList::from_vec(vec![in alloc; bad, weak, DetailLine::Bus]?),
        parts: ItemList::from_vec(vec![in alloc; part]?),
    })
}

// Data of a piece of each kind.
fn payload(alloc: Global) -> Result<DataLine, AllocError> {
    let hex = Piece::Hex(Bytes::from_slice(alloc, &[0, 0xab])?);
    let fill = Piece::Fill {
        byte: 15,
        len: 4096,
    };
    let seed = Piece::Seed {
        seed: 18446744073709551615,
        len: 3,
    };
    Ok(DataLine {
        name: Bytes::from_slice(alloc, b"img")?,
        pieces: ItemList::from_vec(vec![in alloc; fill, seed, hex]?),
    })
}

// A flip and a cut.
fn faults(alloc: Global) -> Result<ItemList<FaultLine>, AllocError> {
    let flip = Flip {
        chip: 0,
        page: 5,
        before: 1,
        bits: ItemList::from_vec(vec![in alloc; 0, 16895]?),
    };
    let cut = CutAt {
        event: 9,
        tear: Tear::Spans(ItemList::from_vec(vec![in alloc; (0, 4), (64, 2048)]?)),
    };
    let controller = 0;
    let flip = FaultLine::Flip { controller, flip };
    let cut = FaultLine::Cut { controller, cut };
    Ok(ItemList::from_vec(vec![in alloc; flip, cut]?))
}

// A nandwrite of the data.
fn writing(alloc: Global) -> Result<CommandLine, AllocError> {
    Ok(CommandLine::NandWrite {
        dev: 0,
        mark: true,
        raw: false,
        oob: false,
        pad: true,
        off: 2048,
        name: Bytes::from_slice(alloc, b"img")?,
    })
}

// A command of each kind.
fn session(alloc: Global) -> Result<SessionLines, AllocError> {
    let erasing = CommandLine::FlashErase {
        dev: 0,
        no_scan: true,
        start: 0,
        count: 0,
    };
    let dumping = CommandLine::NandDump {
        dev: 0,
        off: 0,
        len: 0,
        raw: true,
        oob: false,
        bad: BadMode::SkipBad,
    };
    let testing = CommandLine::NandTest {
        dev: 0,
        keep: true,
        mark: false,
        seed: 0,
        passes: 2,
        off: 0,
        len: 0,
    };
    let commands = [
        erasing,
        writing(alloc)?,
        dumping,
        testing,
        CommandLine::MarkBad { dev: 0, block: 3 },
        CommandLine::IsBad { dev: 0, block: 4 },
        CommandLine::Stats { dev: 0 },
    ];
    Ok(SessionLines {
        controller: 0,
        commands: ItemList::from_vec(Vec::from_array(alloc, commands)?),
    })
}

// A boot with a fault of each kind.
fn boot(alloc: Global) -> Result<BootLines, AllocError> {
    Ok(BootLines {
        faults: faults(alloc)?,
        sessions: ItemList::from_vec(vec![in alloc; session(alloc)?]?),
        schedule: ItemList::from_vec(vec![in alloc; 0, 0]?),
    })
}

// A plan with lines of each kind.
fn plan(alloc: Global) -> Result<PlanLines, Fail> {
    let chips = ItemList::from_vec(vec![in alloc; chip(alloc)?]?);
    Ok(PlanLines {
        begun: true,
        controllers: ItemList::from_vec(vec![in alloc; chips]?),
        payloads: ItemList::from_vec(vec![in alloc; payload(alloc)?]?),
        boots: ItemList::from_vec(vec![in alloc; boot(alloc)?]?),
    })
}

// Its text.
fn printed(alloc: Global) -> Result<Bytes, Fail> {
    let mut out = Bytes::with_room(alloc, 1024)?;
    put_lines(&mut out, &plan(alloc)?)?;
    Ok(out)
}

#[test]
fn prints_a_plan(rt: HostRuntime) -> Result<(), Fail> {
    assert_eq!(rt; printed(rt.alloc())?.as_slice(), TEXT.as_bytes());
    Ok(())
}
