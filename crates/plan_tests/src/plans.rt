// Plans and refusals from the rules of the language.
use mtd_part::Part;
use nand_model::{Bytes, Command};
use plan_text::{Plan, PlanError, put_plan, read_plan};
use std::alloc::{AllocError, Global};
use std::test::Fail;
use tool_steps::ControllerBoot;

const HEAD: &str = "nandlab 1\ncontroller\n";

const CHIP: &str = "nandlab 1\ncontroller\nchip 2048 64 64 16 4 1\n";

const BOOT: &str = "nandlab 1\ncontroller\nchip 2048 64 64 16 4 1\npart 0 16\n\
    data d fill:00:2048\nboot\n";

const RUN: &str = "nandlab 1\ncontroller\nchip 2048 64 64 16 4 1\npart 0 16\n\
    data d fill:00:2048\nboot\nsession 0\n";

// Refusals, and the lines after these beginnings that are refused so, with `|` between them.
const OF_HEADERS: &str = "line 1: Ended<|\
    line 4: Ended<nandlab 1\n\n# no boot|\
    line 1: BadWords<nandlab 2|\
    line 1: BadWords<nandlab +1|\
    line 1: BadWords<nandlab 0X1|\
    line 1: BadWords<nandlab|\
    line 2: WrongPlace<nandlab 0x1\nnandlab 1|\
    line 1: BadByte<nandlab 1 # \u{7f}|\
    line 1: UnknownWord<Nandlab 1|\
    line 1: WrongPlace<controller";

const OF_CONTROLLERS: &str = "line 3: WrongPlace<controller x|\
    line 3: WrongPlace<boot|\
    line 3: WrongPlace<bad 1|\
    line 3: WrongPlace<bus|\
    line 3: BadWords<chip 2048 64 64 16 4|\
    line 3: BadNumber<chip 2048 64 64 16 4 x|\
    line 3: BadNumber<chip 2048 64 64 4294967296 4 0|\
    line 3: BadSize<chip 2048 64 64 15 4 0|\
    line 3: SpareTooSmall<chip 2048 64 64 16 8 1";

const OF_CHIPS: &str = "line 4: BadWords<controller x|\
    line 4: BadWords<bad|\
    line 4: BadNumber<bad 1 x|\
    line 4: OutOfChip<bad 16 16|\
    line 4: TooFewTableBlocks<bad 12 13 14|\
    line 4: Overlap<bad 12 12 13|\
    line 4: BadWords<weak program 0 1|\
    line 4: BadWords<weak read x 1 none|\
    line 4: BadNumber<weak program x 1 none|\
    line 4: OutOfChip<weak program 1024 0 none|\
    line 5: Overlap<weak erase 1 0 none\nweak erase 1 1 all|\
    line 4: BadWords<bus x|\
    line 6: BadWords<bus\nbad 1\nbus|\
    line 4: BadWords<part 0|\
    line 4: BadNumber<part 0 x|\
    line 4: OutOfChip<part 8 16|\
    line 4: OutOfChip<part 16 0|\
    line 5: Overlap<part 0 8\npart 7 1|\
    line 5: WrongPlace<part 0 8\nbad 1|\
    line 5: WrongPlace<part 0 8\nbus x|\
    line 4: BadWords<data d|\
    line 4: BadWords<data 1d hex:0|\
    line 4: BadNumber<data d hex:0|\
    line 4: BadNumber<data d fill:0:1|\
    line 5: Overlap<data d hex:\ndata d hex:|\
    line 4: TooLarge<data d fill:00:16777217|\
    line 5: WrongPlace<data d hex:\npart 0 1";

const OF_BOOTS: &str = "line 7: BadWords<boot x|\
    line 7: WrongPlace<data e hex:|\
    line 7: BadWords<flip 0.0 0 1|\
    line 7: BadWords<flip 0 x 1 1|\
    line 7: BadNumber<flip 0.0 0 0 1|\
    line 7: OutOfChip<flip 0.1 0 1 1|\
    line 7: OutOfChip<flip 0.0 1024 1 0|\
    line 7: OutOfChip<flip 0.0 0 1 16896|\
    line 7: BadWords<cut 0 1|\
    line 7: BadNumber<cut 0 0 none|\
    line 7: BadNumber<cut 0 1 spans:8-4|\
    line 7: OutOfChip<cut 1 1 none|\
    line 8: BadWords<cut 0 1 none\ncut 0x0 x x|\
    line 7: BadWords<session|\
    line 7: BadNumber<session x|\
    line 7: OutOfChip<session 1|\
    line 7: OutOfChip<schedule 0|\
    line 7: WrongPlace<stats mtd0";

const OF_SESSIONS: &str = "line 8: WrongPlace<flip 0.0 0 1 1|\
    line 8: BadWords<schedule|\
    line 8: BadNumber<schedule x|\
    line 8: OutOfChip<schedule 0 1|\
    line 9: WrongPlace<schedule 0\nsession 0|\
    line 8: BadWords<stats mtd00|\
    line 8: BadWords<flash_erase -N -N mtd0 0 0|\
    line 8: BadNumber<isbad mtd7 x|\
    line 8: UnknownDevice<isbad mtd7 0|\
    line 8: UnknownName<nandwrite mtd0 e|\
    line 8: NotMultiple<nandwrite -s 2097153 mtd0 d|\
    line 8: OutOfChip<nandwrite -s 2097152 mtd0 d|\
    line 8: BadNumber<nanddump -l -n mtd0|\
    line 8: NotMultiple<nandtest -o 2048 mtd0|\
    line 8: BadNumber<nandtest -p 0 mtd0|\
    line 8: OutOfChip<flash_erase mtd0 16 0|\
    line 8: TooLarge<nandtest -p 32 mtd0|\
    line 9: TooLarge<nandtest -p 31 mtd0\nnandtest mtd0";

// Why bytes are refused, or that they are read.
pub fn refusal(alloc: Global, bytes: &[u8]) -> Result<String, AllocError> {
    match read_plan(alloc, bytes) {
        Ok(_) => String::from_str(alloc, "read"),
        Err(error) => error.to_string(alloc),
    }
}

// The first of these rows whose lines are refused otherwise behind these beginnings; nothing where
// there is none.
pub fn first_wrong(alloc: Global, front: &str, rows: &str) -> Result<String, AllocError> {
    for row in rows.split('|') {
        let (want, back) = row.split_once('<').unwrap_or((row, ""));
        let text = format!(in alloc; "{front}{back}")?;
        if refusal(alloc, text.as_bytes())?.as_str() != want {
            return String::from_str(alloc, row);
        }
    }
    Ok(String::new(alloc))
}

#[test]
fn refuses_by_the_first_broken_rule(rt: HostRuntime) -> Result<(), Fail> {
    let tables = [
        ("", OF_HEADERS),
        (HEAD, OF_CONTROLLERS),
        (CHIP, OF_CHIPS),
        (BOOT, OF_BOOTS),
        (RUN, OF_SESSIONS),
    ];
    for (front, rows) in tables {
        assert_eq!(rt; first_wrong(rt.alloc(), front, rows)?.as_str(), "");
    }
    Ok(())
}

const TEXT: &str =
    "nandlab 1 # small\ncontroller\nchip 2048 64 64 0x10 4 2\nbus # by cycles\npart 2 0\n\n\
    data d hex:Ff fill:00:03\nboot\nflip 00.0 1 2 3\nsession 0\n\
    nandwrite -s 2048 -p mtd0 d\nschedule 0 00";

const CANONICAL: &str = "nandlab 1\ncontroller\nchip 2048 64 64 16 4 2 3\nbus\npart 2 14\n\
    data d hex:ff fill:00:3\nboot\nflip 0.0 1 2 3\nsession 0\n\
    nandwrite -p -s 2048 mtd0 d\nschedule 0 0\n";

// A plan's text in canonical form.
fn written_again(alloc: Global, text: &str) -> Result<Bytes, PlanError> {
    let plan = read_plan(alloc, text.as_bytes())?;
    let mut out = Bytes::with_room(alloc, 0)?;
    put_plan(&mut out, &plan)?;
    Ok(out)
}

#[test]
fn reads_and_writes_again(rt: HostRuntime) -> Result<(), Fail> {
    for text in [TEXT, CANONICAL] {
        let canonical = written_again(rt.alloc(), text)?;
        assert_eq!(rt; canonical.as_slice(), CANONICAL.as_bytes());
    }
    Ok(())
}

// A controller's part of a boot.
fn part(
    alloc: Global,
    plan: &Plan,
    boot: u32,
    controller: u32,
) -> Result<Option<ControllerBoot>, AllocError> {
    if boot >= plan.boots() || controller >= plan.controllers() {
        return Ok(None);
    }
    Ok(Some(plan.boot(alloc, boot, controller)?))
}

// The number of a controller's new chips.
fn chip_count(alloc: Global, plan: &Plan, controller: u32) -> Result<usize, AllocError> {
    if controller >= plan.controllers() {
        return Ok(0);
    }
    Ok(plan.chips(alloc, controller)?.len())
}

const TWO_CONTROLLERS: &str = "nandlab 1\n\
    controller\nchip 2048 64 64 8 4 0\npart 0 2\npart 2 0\n\
    controller\nchip 2048 64 64 8 4 0\nchip 2048 64 64 16 4 0\nbad 9\nbus\npart 4 3\n\
    boot\nflip 0.0 1 2 3\nflip 1.1 5 7 9 10\n\
    session 1\nisbad mtd2 1\nsession 0\nstats mtd1\nsession 1\nstats mtd2\nmarkbad mtd2 2\n";

// The new chips of both controllers, and the flip lines.
fn chips_and_flips(alloc: Global) -> Result<Option<(usize, usize, u32)>, AllocError> {
    let Ok(plan) = read_plan(alloc, TWO_CONTROLLERS.as_bytes()) else {
        return Ok(None);
    };
    let first = chip_count(alloc, &plan, 0)?;
    let second = chip_count(alloc, &plan, 1)?;
    Ok(Some((first, second, plan.flips())))
}

// The second controller's part.
fn second_part(alloc: Global) -> Result<Option<ControllerBoot>, AllocError> {
    match read_plan(alloc, TWO_CONTROLLERS.as_bytes()) {
        Ok(plan) => part(alloc, &plan, 0, 1),
        Err(_) => Ok(None),
    }
}

// Whether it has its commands.
fn has_its_commands(part: &ControllerBoot) -> bool {
    matches!(
        part.command(0, 0),
        Some(Command::IsBad {
            dev: 2,
            blocks: 3,
            block: 1
        })
    ) && matches!(
        part.command(1, 1),
        Some(Command::MarkBad {
            dev: 2,
            blocks: 3,
            block: 2
        })
    ) && part.command(1, 2).is_none()
}

#[test]
fn gives_new_chips(rt: HostRuntime) -> Result<(), Fail> {
    assert_eq!(rt; chips_and_flips(rt.alloc())?, Some((1, 2, 2)));
    Ok(())
}

// Which chips of the plan are behind a bus: its three chips, and one that is not there.
fn buses(alloc: Global) -> Result<Option<[bool; 4]>, AllocError> {
    let Ok(plan) = read_plan(alloc, TWO_CONTROLLERS.as_bytes()) else {
        return Ok(None);
    };
    Ok(Some([
        plan.on_bus(0, 0),
        plan.on_bus(1, 0),
        plan.on_bus(1, 1),
        plan.on_bus(2, 1),
    ]))
}

#[test]
fn tells_which_chips_are_behind_a_bus(rt: HostRuntime) -> Result<(), Fail> {
    let want = Some([false, false, true, false]);
    assert_eq!(rt; buses(rt.alloc())?, want);
    Ok(())
}

// The devices and flips of the second controller: a device's place, how many there are, and the
// flip that is due.
fn devices_and_flips(
    alloc: Global,
) -> Result<Option<(Option<Part>, (usize, usize), Option<usize>)>, AllocError> {
    let Some(part) = second_part(alloc)? else {
        return Ok(None);
    };
    let (parts, faults) = (part.parts(), part.faults());
    let counts = (parts.len(), faults.len());
    Ok(Some((parts.get(2).copied(), counts, faults.due(7, 0))))
}

#[test]
fn gives_devices_and_flips(rt: HostRuntime) -> Result<(), Fail> {
    let device = Part {
        chip: 1,
        start: 4,
        count: 3,
    };
    let want = Some((Some(device), (1, 1), Some(0)));
    assert_eq!(rt; devices_and_flips(rt.alloc())?, want);
    Ok(())
}

// The numbers of the second controller's sessions, and whether they have their commands.
fn sessions(alloc: Global) -> Result<Option<([Option<u32>; 3], bool)>, AllocError> {
    match second_part(alloc)? {
        Some(part) => {
            let numbers = [part.session(0), part.session(1), part.session(2)];
            Ok(Some((numbers, has_its_commands(&part))))
        }
        None => Ok(None),
    }
}

#[test]
fn gives_sessions(rt: HostRuntime) -> Result<(), Fail> {
    let numbers = [Some(0), Some(2), None];
    assert_eq!(rt; sessions(rt.alloc())?, Some((numbers, true)));
    Ok(())
}
