// Plans that break a rule or pass a limit, from the rules of the language.
use crate::plans::{first_wrong, refusal};
use nand_model::Bytes;
use std::alloc::{AllocError, Global};
use std::test::Fail;

const SMALL: &str = "nandlab 1\ncontroller\nchip 2048 64 64 16 4 1\npart 0 16\n";

// Refusals, and the plans that get them, with `|` between them.
const OF_PLANS: &str = "line 1: BadWords<nandlab 2|\
    line 1: WrongPlace<controller|\
    line 3: BadSize<nandlab 1\ncontroller\nchip 2048 64 64 16 4 1 5\npart 0 16|\
    line 3: BadNumber<nandlab 1\ncontroller\nchip 2048 64 64 18446744073709551616 4 1\npart 0 16|\
    line 4: OutOfChip<nandlab 1\ncontroller\nchip 2048 64 64 16 4 1\n\
        weak program 1024 0 none\npart 0 16";

// Refusals, and the lines behind a small chip that get them.
const OF_LINES: &str = "line 5: BadNumber<data a hex:0|\
    line 5: TooLarge<data a fill:00:16777217|\
    line 6: BadNumber<boot\ncut 0 1 spans:8-4|\
    line 7: BadWords<boot\ncut 0 1 none\ncut 0 2 none|\
    line 7: OutOfChip<boot\nsession 0\nschedule 1|\
    line 7: UnknownName<boot\nsession 0\nnandwrite mtd0 none|\
    line 7: NotMultiple<boot\nsession 0\nnanddump -s 100 mtd0|\
    line 7: OutOfChip<boot\nsession 0\nnanddump -s 2097152 mtd0|\
    line 7: BadNumber<boot\nsession 0\nnandtest -p 0 mtd0|\
    line 7: TooLarge<boot\nsession 0\nnandtest -p 65536 mtd0";

// Why a line of so many of this byte is refused behind the first one.
fn line_refusal(alloc: Global, byte: u8, count: usize) -> Result<String, AllocError> {
    let mut text = Bytes::from_slice(alloc, b"nandlab 1\n")?;
    text.push_slice(Bytes::filled(alloc, byte, count)?.as_slice())?;
    refusal(alloc, text.as_slice())
}

#[test]
fn refuses_hostile_plans(rt: HostRuntime) -> Result<(), Fail> {
    for (front, rows) in [("", OF_PLANS), (SMALL, OF_LINES)] {
        assert_eq!(rt; first_wrong(rt.alloc(), front, rows)?.as_str(), "");
    }
    for (byte, count, want) in [
        (b'#', 65_537, "line 2: LineTooLong"),
        (0x80, 1, "line 2: BadByte"),
    ] {
        assert_eq!(rt; line_refusal(rt.alloc(), byte, count)?.as_str(), want);
    }
    Ok(())
}
