// The words of commands from the rules of the language.
use plan_commands::{command_words, line_kind};
use plan_grammar::{CommandLine, LineKind, PlanKind};
use plan_words::{LineError, Words};
use std::alloc::{AllocError, Global};
use std::test::Fail;

// The command of a line.
fn read(alloc: Global, line: &str) -> Result<CommandLine, LineError> {
    let mut words = Words::of(line.as_bytes());
    let first = words.next().ok_or(PlanKind::UnknownWord)?;
    let kind = line_kind(first).ok_or(PlanKind::UnknownWord)?;
    command_words(alloc, kind, words)
}

// A command of a device's blocks: its name, device and numbers.
fn blocks_told(alloc: Global, line: &CommandLine) -> Result<String, AllocError> {
    match line {
        CommandLine::FlashErase {
            dev,
            no_scan,
            start,
            count,
        } => format!(in alloc; "erase {dev} {no_scan} {start} {count}"),
        CommandLine::MarkBad { dev, block } => format!(in alloc; "mark {dev} {block}"),
        CommandLine::IsBad { dev, block } => format!(in alloc; "isbad {dev} {block}"),
        CommandLine::Stats { dev } => format!(in alloc; "stats {dev}"),
        _ => String::from_str(alloc, "another"),
    }
}

// A command: its device, what it was told to do, and its numbers.
fn told(alloc: Global, line: &CommandLine) -> Result<String, AllocError> {
    match line {
        CommandLine::NandWrite {
            dev,
            mark,
            raw,
            oob,
            pad,
            off,
            name,
        } => {
            let name = name.as_slice();
            format!(in alloc; "write {dev} {mark} {raw} {oob} {pad} {off} {name:?}")
        }
        CommandLine::NandDump {
            dev,
            off,
            len,
            raw,
            oob,
            bad,
        } => format!(in alloc; "dump {dev} {off} {len} {raw} {oob} {bad:?}"),
        CommandLine::NandTest {
            dev,
            keep,
            mark,
            seed,
            passes,
            off,
            len,
        } => format!(in alloc; "test {dev} {keep} {mark} {seed} {passes} {off} {len}"),
        _ => blocks_told(alloc, line),
    }
}

#[test]
fn reads_commands(rt: HostRuntime) -> Result<(), Fail> {
    let rows = [
        ("flash_erase -N mtd12 0x3 0", "erase 12 true 3 0"),
        (
            "nandwrite -s 2048 -p -m -o mtd3 i_1 # data",
            "write 3 true false true true 2048 [105, 95, 49]",
        ),
        (
            "nanddump --bb=dumpbad -l 4096 -n mtd0",
            "dump 0 0 4096 true false DumpBad",
        ),
        (
            "nandtest -k -l 0x20000 -s 7 mtd1",
            "test 1 true false 7 1 0 131072",
        ),
        ("markbad mtd0 9", "mark 0 9"),
        ("isbad mtd0 07", "isbad 0 7"),
        ("stats mtd4", "stats 4"),
    ];
    for (line, want) in rows {
        let read = read(rt.alloc(), line)?;
        assert_eq!(rt; told(rt.alloc(), &read)?.as_str(), want);
    }
    Ok(())
}

#[test]
fn refuses_commands(rt: HostRuntime) -> Result<(), Fail> {
    let refusals = [
        ("format mtd0", PlanKind::UnknownWord),
        ("nanddump -l -n mtd0", PlanKind::BadNumber),
        ("nanddump -l", PlanKind::BadWords),
        ("nanddump -n -n mtd0", PlanKind::BadWords),
        ("nanddump --bb=padbad --bb=skipbad mtd0", PlanKind::BadWords),
        ("nanddump -- mtd0", PlanKind::BadWords),
        ("nanddump mtd0 -n", PlanKind::BadWords),
        ("nanddump mtd01", PlanKind::BadWords),
        ("nandtest -p 0 mtd0", PlanKind::BadNumber),
        ("nandtest -p 4294967296 mtd0", PlanKind::BadNumber),
        ("nandwrite mtd0 9a", PlanKind::BadWords),
        ("nandwrite -s x mtd0 9a", PlanKind::BadWords),
        ("flash_erase -m mtd0 0 0", PlanKind::BadWords),
        ("flash_erase mtd0 0 -1", PlanKind::BadNumber),
        ("markbad mtd0 4294967296", PlanKind::BadNumber),
        ("isbad mtd0", PlanKind::BadWords),
        ("stats mtd0 mtd1 # mtd2", PlanKind::BadWords),
    ];
    for (line, kind) in refusals {
        let refused = read(rt.alloc(), line).err();
        assert_eq!(rt; refused, Some(LineError::Broken(kind)), "{line}");
    }
    Ok(())
}
