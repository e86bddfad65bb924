// Pages of tables through a page's code. Expected parities come from a division by the generator.
use bbt_image::{NoCopy, Which, put_encoded, take};
use bbt_ram::BlockTable;
use ecc_page::EccPage;
use nand_model::Geometry;
use std::alloc::{AllocError, Global};
use std::test::Fail;

// Sixteen blocks with these states.
fn table_of(alloc: Global, states: &[u8; 16]) -> Result<BlockTable, AllocError> {
    let mut table = BlockTable::new(alloc, 16)?;
    for (block, state) in states.iter().enumerate() {
        if (block as u32) < table.len() && *state < 4 {
            table.set(block as u32, u32::from(*state));
        }
    }
    Ok(table)
}

// Whether a table has these states.
fn has_states(table: &BlockTable, states: &[u8; 16]) -> bool {
    table.len() == 16
        && states.iter().enumerate().all(|(block, state)| (block as u32) < table.len()
            && table.get(block as u32) == u32::from(*state))
}

// Writes the page of a table, if one is to be written.
fn put_page(g: &Geometry, written: Option<(Which, u8)>, table: &BlockTable, image: &mut [u8]) {
    if let Some((which, version)) = written {
        if g.bbt != 0 && g.blocks == table.len() && image.len() == g.raw_len() as usize {
            put_encoded(g, &EccPage, which, version, table, image);
        }
    }
}

// Takes the copy in a page.
fn take_page(
    g: &Geometry,
    image: &mut [u8],
    table: &mut BlockTable,
) -> Option<Result<(Which, u8), NoCopy>> {
    if g.bbt != 0 && g.blocks == table.len() && image.len() == g.raw_len() as usize {
        Some(take(g, &EccPage, image, table))
    } else {
        None
    }
}

// Turns over the bits of a mask in one byte.
fn turn(bytes: &mut [u8], place: usize, bits: u8) {
    if place < bytes.len() {
        bytes[place] ^= bits;
    }
}

// The page of the primary with its header in the spare, and that of the mirror with it in the body.
#[test]
fn table_pages_with_parities(rt: HostRuntime) -> Result<(), Fail> {
    let states = [0u8, 0, 0, 0, 0, 1, 0, 3, 0, 0, 0, 0, 2, 2, 2, 2];
    let table = table_of(rt.alloc(), &states)?;
    for (bbt, which, version, header_at, header, parity) in [
        (
            1u32,
            Which::Primary,
            1u8,
            2056usize,
            b"Bbt0\x01".as_slice(),
            &[0x1eu8, 0x57, 0xef, 0x7e, 0xf1, 0x03, 0x7f][..],
        ),
        (
            2,
            Which::Mirror,
            128,
            0,
            b"1tbB\x80".as_slice(),
            &[0xb7, 0x63, 0x7c, 0x17, 0x02, 0xc5, 0xdf],
        ),
    ] {
        let g = Geometry::new(2048, 64, 64, 16, 4, bbt, 0)?;
        let mut image = [0u8; 2112];
        put_page(&g, Some((which, version)), &table, &mut image);
        assert!(rt; image.get(header_at..header_at + 5) == Some(header));
        assert!(rt; image.get(2084..2091) == Some(parity));
        assert!(rt; image.get(2091..2112) == Some(&[0xff; 21][..]));
    }
    Ok(())
}

// What is taken from pages of both kinds, some with wrong bits. The last four bytes of a step with
// 04 d5 15 4b turned over are near to no code word at t = 4: the pattern is a multiple of the
// generator for t = 2 and not of that for t = 4.
#[test]
fn copies_in_pages(rt: HostRuntime) -> Result<(), Fail> {
    let states = [0u8, 0, 0, 0, 0, 1, 0, 3, 0, 0, 0, 0, 2, 2, 2, 2];
    let read_again = [0u8, 0, 0, 0, 0, 1, 0, 3, 0, 0, 0, 0, 0, 0, 0, 0];
    let others = [3u8, 2, 1, 0, 3, 2, 1, 0, 3, 2, 1, 0, 3, 2, 1, 0];
    let written = table_of(rt.alloc(), &states)?;
    let primary = Some((Which::Primary, 1u8));
    let mirror = Some((Which::Mirror, 255u8));
    let first_step = [(508usize, 0x04u8), (509, 0xd5), (510, 0x15), (511, 0x4b)];
    let last_step = [
        (2044usize, 0x04u8),
        (2045, 0xd5),
        (2046, 0x15),
        (2047, 0x4b),
    ];
    let no_pattern = [
        (2056usize, 0x01u8),
        (2044, 0x04),
        (2045, 0xd5),
        (2046, 0x15),
        (2047, 0x4b),
    ];
    for (bbt, page, wrong, expected) in [
        (1u32, primary, &[][..], Ok((Which::Primary, 1u8))),
        (1, mirror, &[(0usize, 0x87u8)][..], Ok((Which::Mirror, 255))),
        (1, primary, &[(2060, 0x80)][..], Ok((Which::Primary, 129))),
        (1, primary, &[(2056, 0x01)][..], Err(NoCopy::NoPattern)),
        (1, primary, &last_step[..], Err(NoCopy::Unreadable)),
        (1, primary, &no_pattern[..], Err(NoCopy::NoPattern)),
        (1, None, &[][..], Err(NoCopy::NoPattern)),
        (2, primary, &[][..], Ok((Which::Primary, 1))),
        (
            2,
            mirror,
            &[(0, 0x01), (4, 0x07)][..],
            Ok((Which::Mirror, 255)),
        ),
        (2, primary, &first_step[..], Err(NoCopy::Unreadable)),
        (2, primary, &last_step[..], Err(NoCopy::Unreadable)),
        (2, None, &[][..], Err(NoCopy::NoPattern)),
        (2, None, &first_step[..], Err(NoCopy::Unreadable)),
        (2, None, &last_step[..], Err(NoCopy::NoPattern)),
    ] {
        let g = Geometry::new(2048, 64, 64, 16, 4, bbt, 0)?;
        let mut image = [0xffu8; 2112];
        put_page(&g, page, &written, &mut image);
        for (place, bits) in wrong {
            turn(&mut image, *place, *bits);
        }
        let mut table = table_of(rt.alloc(), &others)?;
        assert!(rt; take_page(&g, &mut image, &mut table) == Some(expected));
        let left = if expected.is_ok() {
            &read_again
        } else {
            &others
        };
        assert!(rt; has_states(&table, left));
    }
    Ok(())
}
