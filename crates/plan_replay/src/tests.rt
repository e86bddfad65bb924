// Whole plans and their reports, from the examples and the rules of the formats.
use crate::replay_report;
use nand_model::Bytes;
use plan_text::read_plan;
use std::alloc::{AllocError, Global};
use std::test::Fail;

const HELD: &str = "nandlab 1
controller
chip 2048 64 64 16 4 0
part 0 16
boot
session 0
isbad mtd0 0
session 0
isbad mtd0 1
schedule 0 1 1 1 0 1 1
";

const HELD_REPORT: &str = "boot 0
controller 0
attach 0.0 markers version 0 copies 0 quiet yes bad -
b 0 isbad mtd0 0
a 0 good
b 1 isbad mtd0 1
a 1 good
session 0
isbad mtd0 0: good
session 1
isbad mtd0 1: good
device mtd0 corrected 0 failed 0
end boot 0
";

const TWO: &str = "nandlab 1
controller
chip 2048 64 64 16 4 0
part 0 16
controller
chip 2048 64 64 16 4 0
bus
part 0 8
part 8 8
boot
session 1
markbad mtd2 3
session 0
isbad mtd0 5
session 1
isbad mtd1 0
schedule 2 0
boot
session 1
isbad mtd2 3
session 0
stats mtd0
";

const TWO_REPORT: &str = "boot 0
controller 0
attach 0.0 markers version 0 copies 0 quiet yes bad -
b 1 isbad mtd0 5
a 1 good
controller 1
attach 1.0 markers version 0 copies 0 quiet yes bad -
b 2 isbad mtd1 0
a 2 good
b 0 mark mtd2 3
a 0 ok
session 0
markbad mtd2 3: ok
session 1
isbad mtd0 5: good
session 2
isbad mtd1 0: good
device mtd0 corrected 0 failed 0
device mtd1 corrected 0 failed 0
device mtd2 corrected 0 failed 0
end boot 0
boot 1
controller 0
attach 0.0 markers version 0 copies 0 quiet yes bad -
b 1 stats mtd0
a 1 counts corrected 0 failed 0 bad 0
controller 1
attach 1.0 markers version 0 copies 0 quiet yes bad 11f
b 0 isbad mtd2 3
a 0 factory
session 0
isbad mtd2 3: factory
session 1
stats mtd0: corrected 0, failed 0, bad 0
device mtd0 corrected 0 failed 0
device mtd1 corrected 0 failed 0
device mtd2 corrected 0 failed 0
end boot 1
";

// The report of a plan.
fn report_of(alloc: Global, text: &str) -> Result<Bytes, AllocError> {
    let Ok(plan) = read_plan(alloc, text.as_bytes()) else {
        return Err(AllocError);
    };
    replay_report(alloc, &plan)
}

#[test]
fn reports_of_plans(rt: HostRuntime) -> Result<(), Fail> {
    let alloc = rt.alloc();
    for (plan, report) in [(HELD, HELD_REPORT), (TWO, TWO_REPORT)] {
        let text = report_of(alloc, plan)?;
        assert_eq!(rt; text.as_slice(), report.as_bytes());
    }
    Ok(())
}
