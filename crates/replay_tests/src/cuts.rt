// A first attach and a mark that are cut in each of their page events: the attaches that follow,
// from the rules of tables.
use crate::reports::report_of;
use std::alloc::{AllocError, Global};
use std::test::Fail;

// First event, last event, and how the boot after a cut in one of these attaches, where no bit of
// the event is done.
const OF_NOTHING: [(u32, u32, &str); 4] = [
    (1, 22, "markers version 1 copies 2 quiet yes bad -"),
    (23, 27, "primary version 1 copies 2 quiet yes bad -"),
    (28, 28, "mirror version 1 copies 2 quiet yes bad -"),
    (29, 30, "primary version 2 copies 2 quiet yes bad 5w"),
];

// The same where all its bits are done.
const OF_EVERYTHING: [(u32, u32, &str); 4] = [
    (1, 21, "markers version 1 copies 2 quiet yes bad -"),
    (22, 26, "primary version 1 copies 2 quiet yes bad -"),
    (27, 27, "mirror version 1 copies 2 quiet yes bad -"),
    (28, 30, "primary version 2 copies 2 quiet yes bad 5w"),
];

// The report of a mark, cut in this event, and of the boot after it.
fn cut_report(alloc: Global, event: u32, tear: &str) -> Result<String, AllocError> {
    let plan = format!(in alloc;
        "nandlab 1\ncontroller\nchip 2048 64 64 16 4 1\npart 0 16\n\
        boot\ncut 0 {event} {tear}\nsession 0\nmarkbad mtd0 5\nboot\n"
    )?;
    report_of(alloc, plan.as_str())
}

// What such a report says of the cut boot, and how the next boot attaches; nothing where the event
// was not cut or the next boot does not attach.
fn parts(report: &str, event: u32) -> Option<(&str, &str)> {
    let (cut_boot, next_boot) = report.split_once("boot 1\ncontroller 0\nattach 0.0 ")?;
    let (_, torn) = cut_boot.split_once("torn 0.0 event ")?;
    let (number, _) = torn.split_once(' ')?;
    let (attach, _) = next_boot.split_once('\n')?;
    if number.parse::<u32>().ok() == Some(event) {
        Some((cut_boot, attach))
    } else {
        None
    }
}

// The first of these events after whose cut the next boot does not attach as its row says.
fn first_other_attach(
    alloc: Global,
    tear: &str,
    rows: &[(u32, u32, &str)],
) -> Result<Option<u32>, AllocError> {
    for (first, last, want) in rows {
        for event in *first..=*last {
            let report = cut_report(alloc, event, tear)?;
            match parts(report.as_str(), event) {
                Some((_, attach)) if attach == *want => {}
                _ => return Ok(Some(event)),
            }
        }
    }
    Ok(None)
}

// Whether an attach may follow this boot, in which no mark was answered: both copies are whole, and
// unless the cut was foul, block 5 is shown bad only where its mark had begun, and no other is.
fn may_follow(attach: &str, cut_boot: &str) -> bool {
    let Some((copies, bad)) = attach.split_once(" quiet yes bad ") else {
        return false;
    };
    let is_foul = cut_boot.contains(" cut foul\n");
    let has_begun = cut_boot.contains("\nb 0 mark mtd0 5\n");
    let keeps_marks = bad == "-" || has_begun && bad == "5w";
    copies.ends_with(" copies 2") && !cut_boot.contains("\na 0 ") && (is_foul || keeps_marks)
}

// The first event after whose cut by this tear the next boot attaches otherwise than it may.
fn first_broken_promise(alloc: Global, tear: &str) -> Result<Option<u32>, AllocError> {
    for event in 1..=30 {
        let report = cut_report(alloc, event, tear)?;
        match parts(report.as_str(), event) {
            Some((cut_boot, attach)) if may_follow(attach, cut_boot) => {}
            _ => return Ok(Some(event)),
        }
    }
    Ok(None)
}

#[test]
fn a_cut_at_each_event(rt: HostRuntime) -> Result<(), Fail> {
    let alloc = rt.alloc();
    assert_eq!(rt; first_other_attach(alloc, "none", &OF_NOTHING)?, None);
    assert_eq!(rt; first_other_attach(alloc, "all", &OF_EVERYTHING)?, None);
    assert_eq!(rt; first_broken_promise(alloc, "seed:1")?, None);
    assert_eq!(rt; first_broken_promise(alloc, "seed:2")?, None);
    Ok(())
}
