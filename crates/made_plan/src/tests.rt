// Plans of the least and the greatest number, and the summary of plan 1.
use crate::{Sums, made, put_summary};
use nand_model::Bytes;
use plan_text::put_plan;
use std::test::Fail;

const HEAD: &[u8] =
    b"nandlab 1\ncontroller\nchip 2048 64 64 32 4 1 3\npart 0 14\npart 14 14\nchip 2048 ";

const FIRST: &[u8] = b"data d0 seed:1:131072\ndata d1 seed:2:131072\n";

const FLIPS: &[u8] =
    b"boot\nflip 0.0 0 1 100\nflip 0.0 896 1 100 200\nflip 0.1 0 1 100 200 300\nflip 0.1 896 1 100 200 300 400\nflip 0.2 896 1 100\n";

const GREATEST: &[u8] =
    b"data d0 seed:18446744073709551615:131072\ndata d1 seed:0:131072\ndata d2 seed:1:131072\n";

// Whether a text goes on with a part from a place on.
fn goes_on(text: &[u8], from: usize, part: &[u8]) -> bool {
    from <= text.len() && text[from..].starts_with(part)
}

#[test]
fn makes_plans(rt: HostRuntime) -> Result<(), Fail> {
    let cases = [
        (0, 0, HEAD),
        (1, 400, FIRST),
        (1, 2384, FLIPS),
        (u64::MAX, 400, GREATEST),
    ];
    for (n, from, part) in cases {
        let plan = made(rt.alloc(), n)?;
        let mut text = Bytes::with_room(rt.alloc(), 8192)?;
        put_plan(&mut text, &plan)?;
        assert!(rt; goes_on(text.as_slice(), from, part), "{n}");
    }
    Ok(())
}

#[test]
fn sums_up(rt: HostRuntime) -> Result<(), Fail> {
    let sums = Sums {
        operations: 4656,
        pages_read: 2048,
        corrected: 31,
        failed: 0,
    };
    let mut text = Bytes::with_room(rt.alloc(), 128)?;
    put_summary(&mut text, 1, &sums, 16)?;
    assert_eq!(rt;
        text.as_slice(),
        b"make 1\noperations 4656\npages read 2048\ncorrected 31\nfailed 0\nbad blocks 16\n".as_slice()
    );
    Ok(())
}
