// Writings of both copies of a table in which table blocks fail, alone and in pairs, in a first
// attach and in a mark. Each row has the events that fail (erase of a block or program of a page,
// and how many are good before) and what comes of them, from a second replay of plans: the first
// attach or the answer of the mark; the next attach, by origin, version, copies, quiet and bad
// blocks; and the pages that hold a copy then, with its header and version.
use crate::reports::report_of;
use std::alloc::{AllocError, Global};
use std::test::Fail;

// The first attach. One more block of the last four is free to take a copy, and then another.
const OF_ATTACHES: &str = "\
erase 15 0: markers 2 2 yes 15f; primary 2 2 yes 15f; 832 Bbt0 02; 896 1tbB 02;
erase 15 0, erase 13 0: markers 3 2 yes 13f,15f; primary 3 2 yes 13f,15f; 768 Bbt0 03; 896 1tbB 03;
erase 15 0, program 832 0: markers 3 2 yes 13f,15f; primary 3 2 yes 13f,15f; 768 Bbt0 03; 896 1tbB 03;
erase 15 0, erase 14 0: markers 3 2 yes 14f,15f; primary 3 2 yes 14f,15f; 768 1tbB 03; 832 Bbt0 03;
erase 15 0, program 896 0: markers 3 2 yes 14f,15f; primary 3 2 yes 14f,15f; 768 1tbB 03; 832 Bbt0 03;
program 960 0: markers 2 2 yes 15f; primary 2 2 yes 15f; 832 Bbt0 02; 896 1tbB 02;
program 960 0, erase 13 0: markers 3 2 yes 13f,15f; primary 3 2 yes 13f,15f; 768 Bbt0 03; 896 1tbB 03;
program 960 0, program 832 0: markers 3 2 yes 13f,15f; primary 3 2 yes 13f,15f; 768 Bbt0 03; 896 1tbB 03;
program 960 0, erase 14 0: markers 3 2 yes 14f,15f; primary 3 2 yes 14f,15f; 768 1tbB 03; 832 Bbt0 03;
program 960 0, program 896 0: markers 3 2 yes 14f,15f; primary 3 2 yes 14f,15f; 768 1tbB 03; 832 Bbt0 03;
erase 14 0: markers 2 2 yes 14f; primary 2 2 yes 14f; 832 1tbB 02; 960 Bbt0 02;
erase 14 0, erase 13 0: markers 3 2 yes 13f,14f; primary 3 2 yes 13f,14f; 768 1tbB 03; 960 Bbt0 03;
erase 14 0, program 832 0: markers 3 2 yes 13f,14f; primary 3 2 yes 13f,14f; 768 1tbB 03; 960 Bbt0 03;
erase 14 0, erase 15 1: markers 3 2 yes 14f,15f; primary 3 2 yes 14f,15f; 768 Bbt0 03; 832 1tbB 03; 960 Bbt0 01;
erase 14 0, program 960 1: markers 3 2 yes 14f,15f; primary 3 2 yes 14f,15f; 768 Bbt0 03; 832 1tbB 03;
program 896 0: markers 2 2 yes 14f; primary 2 2 yes 14f; 832 1tbB 02; 960 Bbt0 02;
program 896 0, erase 13 0: markers 3 2 yes 13f,14f; primary 3 2 yes 13f,14f; 768 1tbB 03; 960 Bbt0 03;
program 896 0, program 832 0: markers 3 2 yes 13f,14f; primary 3 2 yes 13f,14f; 768 1tbB 03; 960 Bbt0 03;
program 896 0, erase 15 1: markers 3 2 yes 14f,15f; primary 3 2 yes 14f,15f; 768 Bbt0 03; 832 1tbB 03; 960 Bbt0 01;
program 896 0, program 960 1: markers 3 2 yes 14f,15f; primary 3 2 yes 14f,15f; 768 Bbt0 03; 832 1tbB 03;
";

// The same, where only one of them is free.
const OF_ATTACHES_WITHOUT_A_SECOND_BLOCK: &str = "\
erase 15 0, erase 13 0: markers 2 0 yes 12f,13f,15f; markers 2 0 yes 12f,13f,15f;
erase 15 0, program 832 0: markers 2 0 yes 12f,13f,15f; markers 2 0 yes 12f,13f,15f;
erase 15 0, erase 14 0: markers 2 1 yes 12f,14f,15f; primary 2 1 yes 12f,14f,15f; 832 Bbt0 02;
erase 15 0, program 896 0: markers 2 1 yes 12f,14f,15f; primary 2 1 yes 12f,14f,15f; 832 Bbt0 02;
program 960 0, erase 13 0: markers 2 0 yes 12f,13f,15f; markers 2 0 yes 12f,13f,15f;
program 960 0, program 832 0: markers 2 0 yes 12f,13f,15f; markers 2 0 yes 12f,13f,15f;
program 960 0, erase 14 0: markers 2 1 yes 12f,14f,15f; primary 2 1 yes 12f,14f,15f; 832 Bbt0 02;
program 960 0, program 896 0: markers 2 1 yes 12f,14f,15f; primary 2 1 yes 12f,14f,15f; 832 Bbt0 02;
erase 14 0, erase 13 0: markers 2 1 yes 12f,13f,14f; primary 2 1 yes 12f,13f,14f; 960 Bbt0 01;
erase 14 0, program 832 0: markers 2 1 yes 12f,13f,14f; primary 2 1 yes 12f,13f,14f; 960 Bbt0 01;
erase 14 0, erase 15 1: markers 2 1 yes 12f,14f,15f; mirror 2 1 yes 12f,14f,15f; 832 1tbB 02; 960 Bbt0 01;
erase 14 0, program 960 1: markers 2 1 yes 12f,14f,15f; mirror 2 1 yes 12f,14f,15f; 832 1tbB 02;
program 896 0, erase 13 0: markers 2 1 yes 12f,13f,14f; primary 2 1 yes 12f,13f,14f; 960 Bbt0 01;
program 896 0, program 832 0: markers 2 1 yes 12f,13f,14f; primary 2 1 yes 12f,13f,14f; 960 Bbt0 01;
program 896 0, erase 15 1: markers 2 1 yes 12f,14f,15f; mirror 2 1 yes 12f,14f,15f; 832 1tbB 02; 960 Bbt0 01;
program 896 0, program 960 1: markers 2 1 yes 12f,14f,15f; mirror 2 1 yes 12f,14f,15f; 832 1tbB 02;
";

// The same, where none is.
const OF_ATTACHES_WITHOUT_A_BLOCK: &str = "\
erase 15 0: markers 1 0 yes 12f,13f,15f; markers 1 0 yes 12f,13f,15f;
program 960 0: markers 1 0 yes 12f,13f,15f; markers 1 0 yes 12f,13f,15f;
erase 14 0: markers 1 1 yes 12f,13f,14f; primary 1 1 yes 12f,13f,14f; 960 Bbt0 01;
program 896 0: markers 1 1 yes 12f,13f,14f; primary 1 1 yes 12f,13f,14f; 960 Bbt0 01;
";

// A mark.
const OF_MARKS: &str = "\
erase 15 1: ok; primary 3 2 yes 5w,15f; 832 Bbt0 03; 896 1tbB 03; 960 Bbt0 01;
erase 15 1, erase 13 0: ok; primary 4 2 yes 5w,13f,15f; 768 Bbt0 04; 896 1tbB 04; 960 Bbt0 01;
erase 15 1, program 832 0: ok; primary 4 2 yes 5w,13f,15f; 768 Bbt0 04; 896 1tbB 04; 960 Bbt0 01;
erase 15 1, erase 14 1: ok; primary 4 2 yes 5w,14f,15f; 768 1tbB 04; 832 Bbt0 04; 896 1tbB 01; 960 Bbt0 01;
erase 15 1, program 896 1: ok; primary 4 2 yes 5w,14f,15f; 768 1tbB 04; 832 Bbt0 04; 960 Bbt0 01;
program 960 1: ok; primary 3 2 yes 5w,15f; 832 Bbt0 03; 896 1tbB 03;
program 960 1, erase 13 0: ok; primary 4 2 yes 5w,13f,15f; 768 Bbt0 04; 896 1tbB 04;
program 960 1, program 832 0: ok; primary 4 2 yes 5w,13f,15f; 768 Bbt0 04; 896 1tbB 04;
program 960 1, erase 14 1: ok; primary 4 2 yes 5w,14f,15f; 768 1tbB 04; 832 Bbt0 04; 896 1tbB 01;
program 960 1, program 896 1: ok; primary 4 2 yes 5w,14f,15f; 768 1tbB 04; 832 Bbt0 04;
erase 14 1: ok; primary 3 2 yes 5w,14f; 832 1tbB 03; 896 1tbB 01; 960 Bbt0 03;
erase 14 1, erase 13 0: ok; primary 4 2 yes 5w,13f,14f; 768 1tbB 04; 896 1tbB 01; 960 Bbt0 04;
erase 14 1, program 832 0: ok; primary 4 2 yes 5w,13f,14f; 768 1tbB 04; 896 1tbB 01; 960 Bbt0 04;
erase 14 1, erase 15 2: ok; primary 4 2 yes 5w,14f,15f; 768 Bbt0 04; 832 1tbB 04; 896 1tbB 01; 960 Bbt0 02;
erase 14 1, program 960 2: ok; primary 4 2 yes 5w,14f,15f; 768 Bbt0 04; 832 1tbB 04; 896 1tbB 01;
program 896 1: ok; primary 3 2 yes 5w,14f; 832 1tbB 03; 960 Bbt0 03;
program 896 1, erase 13 0: ok; primary 4 2 yes 5w,13f,14f; 768 1tbB 04; 960 Bbt0 04;
program 896 1, program 832 0: ok; primary 4 2 yes 5w,13f,14f; 768 1tbB 04; 960 Bbt0 04;
program 896 1, erase 15 2: ok; primary 4 2 yes 5w,14f,15f; 768 Bbt0 04; 832 1tbB 04; 960 Bbt0 02;
program 896 1, program 960 2: ok; primary 4 2 yes 5w,14f,15f; 768 Bbt0 04; 832 1tbB 04;
";

// A mark, where only one block is free.
const OF_MARKS_WITHOUT_A_SECOND_BLOCK: &str = "\
erase 15 1, erase 13 0: table failed primary; primary 1 2 yes 12f; 896 1tbB 01; 960 Bbt0 01;
erase 15 1, program 832 0: table failed primary; primary 1 2 yes 12f; 896 1tbB 01; 960 Bbt0 01;
erase 15 1, erase 14 1: table failed mirror; primary 3 1 yes 5w,12f,14f,15f; 832 Bbt0 03; 896 1tbB 01; 960 Bbt0 01;
erase 15 1, program 896 1: table failed mirror; primary 3 1 yes 5w,12f,14f,15f; 832 Bbt0 03; 960 Bbt0 01;
program 960 1, erase 13 0: table failed primary; mirror 2 1 yes 12f,13f,15f; 896 1tbB 01;
program 960 1, program 832 0: table failed primary; mirror 2 1 yes 12f,13f,15f; 896 1tbB 01;
program 960 1, erase 14 1: table failed mirror; primary 3 1 yes 5w,12f,14f,15f; 832 Bbt0 03; 896 1tbB 01;
program 960 1, program 896 1: table failed mirror; primary 3 1 yes 5w,12f,14f,15f; 832 Bbt0 03;
erase 14 1, erase 13 0: table failed mirror; primary 3 1 yes 5w,12f,13f,14f; 896 1tbB 01; 960 Bbt0 02;
erase 14 1, program 832 0: table failed mirror; primary 3 1 yes 5w,12f,13f,14f; 896 1tbB 01; 960 Bbt0 02;
erase 14 1, erase 15 2: table failed primary; mirror 3 1 yes 5w,12f,14f,15f; 832 1tbB 03; 896 1tbB 01; 960 Bbt0 02;
erase 14 1, program 960 2: table failed primary; mirror 3 1 yes 5w,12f,14f,15f; 832 1tbB 03; 896 1tbB 01;
program 896 1, erase 13 0: table failed mirror; primary 3 1 yes 5w,12f,13f,14f; 960 Bbt0 02;
program 896 1, program 832 0: table failed mirror; primary 3 1 yes 5w,12f,13f,14f; 960 Bbt0 02;
program 896 1, erase 15 2: table failed primary; mirror 3 1 yes 5w,12f,14f,15f; 832 1tbB 03; 960 Bbt0 02;
program 896 1, program 960 2: table failed primary; mirror 3 1 yes 5w,12f,14f,15f; 832 1tbB 03;
";

// A mark, where none is.
const OF_MARKS_WITHOUT_A_BLOCK: &str = "\
erase 15 1: table failed primary; primary 1 2 yes 12f,13f; 896 1tbB 01; 960 Bbt0 01;
program 960 1: table failed primary; mirror 1 1 yes 12f,13f,15f; 896 1tbB 01;
erase 14 1: table failed mirror; primary 2 1 yes 5w,12f,13f,14f; 896 1tbB 01; 960 Bbt0 02;
program 896 1: table failed mirror; primary 2 1 yes 5w,12f,13f,14f; 960 Bbt0 02;
";

// A boot with this command on a chip with these defects, and a boot that dumps its table pages.
fn plan(alloc: Global, bad: &str, weak: &str, command: &str) -> Result<String, AllocError> {
    let mut lines = String::from_str(alloc, bad)?;
    for place in weak.split(", ") {
        lines.push_str(format!(in alloc; "weak {place} none\n")?.as_str())?;
    }
    let chip = "nandlab 1\ncontroller\nchip 2048 64 64 16 4 1";
    let boots = format!(in alloc; "part 0 16\nboot\nsession 0\n{command}boot\nsession 0")?;
    let dump = "nanddump -n --bb=dumpbad -l 2048";
    format!(in alloc;
        "{chip}\n{lines}{boots}\n{dump} -s 1572864 mtd0\n{dump} -s 1703936 mtd0\n\
        {dump} -s 1835008 mtd0\n{dump} -s 1966080 mtd0\n"
    )
}

// Adds these words, without the names of what an attach line has.
fn push_words(told: &mut String, words: &str) -> Result<(), AllocError> {
    for word in words.split_whitespace() {
        if !["version", "copies", "quiet", "bad"].contains(&word) {
            told.push(' ')?;
            told.push_str(word)?;
        }
    }
    told.push(';')
}

// The header and version of a copy, from the row of a dumped page that has its spare's beginning.
fn copy_in(row: &str) -> Option<(&str, &str)> {
    let spare = row.strip_prefix(" 00000800 1 ffffffffffffffff")?;
    let (header, rest) = match spare.strip_prefix("42627430") {
        Some(rest) => ("Bbt0", rest),
        None => ("1tbB", spare.strip_prefix("31746242")?),
    };
    let (version, _) = rest.split_once("ff")?;
    Some((header, version))
}

// What a report says of attaches, the mark and copies, in the words of a row.
fn told(alloc: Global, report: &str) -> Result<String, AllocError> {
    let mut told = String::new(alloc);
    let mut page = String::new(alloc);
    for line in report.lines() {
        if let Some(attach) = line.strip_prefix("attach 0.0 ") {
            push_words(&mut told, attach)?;
        } else if let Some(answer) = line.strip_prefix("markbad mtd0 5: ") {
            push_words(&mut told, answer)?;
        } else if let Some(number) = line.strip_prefix("b 0 rawread mtd0 ") {
            page = String::from_str(alloc, number)?;
        } else if let Some((header, version)) = copy_in(line) {
            let copy = format!(in alloc; "{page} {header} {version}")?;
            push_words(&mut told, copy.as_str())?;
        }
    }
    Ok(told)
}

// The first of these rows that is not what comes of its events, behind what is told of the attach
// before the mark; nothing where there is none.
fn first_wrong(
    alloc: Global,
    bad: &str,
    command: &str,
    before: &str,
    rows: &str,
) -> Result<String, AllocError> {
    for row in rows.lines() {
        let (weak, want) = row.split_once(':').unwrap_or((row, ""));
        let report = report_of(alloc, plan(alloc, bad, weak, command)?.as_str())?;
        let want = format!(in alloc; "{before}{want}")?;
        if told(alloc, report.as_str())?.as_str() != want.as_str() {
            return String::from_str(alloc, row);
        }
    }
    Ok(String::new(alloc))
}

#[test]
fn writings_fail_at_each_event(rt: HostRuntime) -> Result<(), Fail> {
    let (one_free, none_free) = ("bad 12\n", "bad 12 13\n");
    let mark = "markbad mtd0 5\n";
    let tables = [
        ("", "", "", OF_ATTACHES),
        (one_free, "", "", OF_ATTACHES_WITHOUT_A_SECOND_BLOCK),
        (none_free, "", "", OF_ATTACHES_WITHOUT_A_BLOCK),
        ("", mark, " markers 1 2 yes -;", OF_MARKS),
        (
            one_free,
            mark,
            " markers 1 2 yes 12f;",
            OF_MARKS_WITHOUT_A_SECOND_BLOCK,
        ),
        (
            none_free,
            mark,
            " markers 1 2 yes 12f,13f;",
            OF_MARKS_WITHOUT_A_BLOCK,
        ),
    ];
    for (bad, command, before, rows) in tables {
        assert_eq!(rt;
            first_wrong(rt.alloc(), bad, command, before, rows)?.as_str(),
            ""
        );
    }
    Ok(())
}
