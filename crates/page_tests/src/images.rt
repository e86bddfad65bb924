// Expected bytes and choices are worked by hand from the table's format.
use bbt_image::{Choice, Which, choose, put};
use bbt_ram::BlockTable;
use nand_model::Geometry;
use std::test::Fail;

// Writes a page of sixteen blocks: 5 is worn, 7 factory bad, the last four reserved.
fn put_sixteen(
    rt: &HostRuntime,
    g: &Geometry,
    which: Which,
    version: u8,
    image: &mut [u8],
) -> Result<(), Fail> {
    let mut table = BlockTable::new(rt.alloc(), 16)?;
    for (block, state) in [(5u32, 1u32), (7, 3), (12, 2), (13, 2), (14, 2), (15, 2)] {
        if block < table.len() && state < 4 {
            table.set(block, state);
        }
    }
    if g.bbt != 0 && g.blocks == table.len() && image.len() == g.raw_len() as usize {
        put(g, which, version, &table, image);
    }
    Ok(())
}

// Copies bytes to a place.
fn copy_to(bytes: &mut [u8], place: usize, from: &[u8]) {
    for (to, from) in bytes.iter_mut().skip(place).zip(from) {
        *to = *from;
    }
}

// Both kinds, in both places of the header.
#[test]
fn pages_of_sixteen_blocks(rt: HostRuntime) -> Result<(), Fail> {
    for (bbt, which, version, header_at, header, table_at) in [
        (1u32, Which::Primary, 1u8, 2056usize, b"Bbt0\x01", 0usize),
        (1, Which::Mirror, 255, 2056, b"1tbB\xff", 0),
        (2, Which::Primary, 0, 0, b"Bbt0\x00", 5),
        (2, Which::Mirror, 128, 0, b"1tbB\x80", 5),
    ] {
        let g = Geometry::new(2048, 64, 64, 16, 4, bbt, 0)?;
        let mut image = [0u8; 2112];
        put_sixteen(&rt, &g, which, version, &mut image)?;
        let mut expected = [0xffu8; 2112];
        copy_to(&mut expected, header_at, header);
        copy_to(&mut expected, table_at, &[0xff, 0x3b, 0xff, 0xff]);
        assert!(rt; image == expected);
    }
    Ok(())
}

#[test]
fn chooses_the_newer_copy(rt: HostRuntime) {
    for (primary, mirror, choice) in [
        (Some(0u8), Some(255u8), Choice::Primary { rewrite: true }),
        (Some(255), Some(0), Choice::Mirror { rewrite: true }),
        (Some(0), Some(128), Choice::Mirror { rewrite: true }),
        (Some(5), Some(5), Choice::Primary { rewrite: false }),
        (None, Some(9), Choice::Mirror { rewrite: true }),
        (Some(9), None, Choice::Primary { rewrite: true }),
        (None, None, Choice::Neither),
    ] {
        assert!(rt; choose(primary, mirror) == choice);
    }
}
