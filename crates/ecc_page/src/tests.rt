// Expected bytes come from Linux's lib/bch and from an independent division by the generator.
ghost use Rattle.std.specs.Prelude.{◌<◌, ◌≤◌};

use super::*;
use nand_iface::{PageCode, PageRead};
use nand_model::Geometry;
use std::test::Fail;

// The low byte of SplitMix64's output number `index` from a seed.
fn seed_byte(seed: u64, index: u64) -> u8 {
    let step = index.wrapping_add(1).wrapping_mul(0x9e37_79b9_7f4a_7c15);
    let z = seed.wrapping_add(step);
    let z = (z ^ (z >> 30)).wrapping_mul(0xbf58_476d_1ce4_e5b9);
    let z = (z ^ (z >> 27)).wrapping_mul(0x94d0_49bb_1331_11eb);
    ((z ^ (z >> 31)) & 0xff) as u8
}

// Turns over the bits of a mask in one byte.
fn turn(bytes: &mut [u8], place: usize, bits: u8) {
    if place < bytes.len() {
        bytes[place] ^= bits;
    }
}

// The mask, at the head of a buffer.
fn masks(t: u32) -> [u8; 26]
    requires { (0 < t) × (t ≤ 16) }
{
    let mut masks = [0u8; 26];
    mask(t, &mut masks[..((13 * t + 7) / 8) as usize]);
    masks
}

// Pages of each size at t = 4: an erased step, one with its last bit 0, one of zeros, and erased
// ones; then flips in three of them.
#[test]
fn pages_of_each_size(rt: HostRuntime) -> Result<(), Fail> {
    let stored = [
        0xffu8, 0xff, 0xff, 0xff, 0xff, 0xff, 0xff, 0xba, 0xdc, 0xfb, 0xc5, 0x47, 0x95, 0x4f, 0x28,
        0x13, 0xcc, 0x39, 0x96, 0xac, 0x7f, 0xff, 0xff, 0xff, 0xff, 0xff, 0xff, 0xff,
    ];
    for (page, spare) in [(2048u32, 64u32), (4096, 128), (4096, 224)] {
        let g = Geometry::new(page, spare, 64, 16, 4, 0, 0)?;
        let body = page as usize;
        let parity = body + g.parity_start() as usize;
        let mut buffer = [0xffu8; 4320];
        assert!(rt; g.raw_len() <= 4320);
        let image = &mut buffer[..g.raw_len() as usize];
        turn(image, 1023, 0x01);
        for place in 1024..1536 {
            turn(image, place, 0xff);
        }
        turn(image, body, 0x80);
        turn(image, body + 2, 0xa5);
        EccPage.encode(&g, image);
        assert!(rt; image.get(body..body + 3) == Some(&[0xff, 0xff, 0x5a][..]));
        assert!(rt; image.get(parity..parity + 28) == Some(&stored[..]));

        turn(image, 1, 0x81);
        turn(image, 512, 0x0e);
        turn(image, parity + 7, 0x80);
        turn(image, parity + 20, 0x0f);
        let read = EccPage.decode(&g, image);
        assert!(rt;
            read == PageRead {
                corrected: 6,
                greatest: 4,
                failed: 0
            }
        );
        assert!(rt; image.get(1) == Some(&0xff) && image.get(512) == Some(&0xff));
        assert!(rt; image.get(parity + 7) == Some(&0xba) && image.get(parity + 20) == Some(&0x70));
    }
    Ok(())
}

// The parity of a seeded step at other strengths, after the mask is taken off, is that of lib/bch.
#[test]
fn parities_of_lib_bch(rt: HostRuntime) -> Result<(), Fail> {
    for (t, parity) in [
        (1u32, &[0xabu8, 0x10][..]),
        (3, &[0x92, 0x5d, 0xe6, 0x8e, 0x36]),
        (5, &[0xb2, 0x55, 0xfc, 0x5b, 0x82, 0x6f, 0x34, 0x67, 0x80]),
        (
            16,
            &[
                0xae, 0x40, 0x1b, 0x75, 0x8c, 0x08, 0x0d, 0x26, 0x39, 0x31, 0x7e, 0x32, 0x2a, 0xea,
                0xd6, 0xd7, 0xfe, 0x1d, 0x76, 0x92, 0xdb, 0x64, 0x0e, 0xf5, 0x23, 0x63,
            ],
        ),
    ] {
        assert!(rt; 0 < t && t <= 16);
        let g = Geometry::new(4096, 224, 64, 16, t, 0, 0)?;
        let start = 4096 + g.parity_start() as usize;
        let mut buffer = [0xffu8; 4320];
        assert!(rt; g.raw_len() == 4320);
        for i in 0..512 {
            buffer[i] = seed_byte(7, i as u64);
        }
        EccPage.encode(&g, &mut buffer);
        let masks = masks(t);
        let len = g.parity_len() as usize;
        assert!(rt; len <= 26);
        for i in 0..len {
            turn(&mut buffer, start + i, masks[i]);
        }
        assert!(rt; buffer.get(start..start + len) == Some(parity));
    }
    Ok(())
}

// Two words in an erased page that lib/bch miscorrects: no code word is near, so the step fails and
// nothing changes.
#[test]
fn words_that_lib_bch_gets_wrong(rt: HostRuntime) -> Result<(), Fail> {
    for (t, bits) in [
        (5u32, &[2095usize, 612, 177, 2731, 1903, 4085][..]),
        (8, &[1291, 442, 3297, 3594, 3080, 3776, 1580, 537, 2470]),
    ] {
        let g = Geometry::new(4096, 224, 64, 16, t, 0, 0)?;
        assert!(rt; g.raw_len() == 4320);
        let mut image = [0xffu8; 4320];
        for bit in bits {
            turn(&mut image, *bit / 8, 0x80 >> (*bit % 8));
        }
        let mut received = image;
        let read = EccPage.decode(&g, &mut received);
        assert!(rt;
            read == PageRead {
                corrected: 0,
                greatest: 0,
                failed: 1
            }
        );
        assert!(rt; received == image);
    }
    Ok(())
}

#[test]
fn erased_steps(rt: HostRuntime) {
    let mut step = [0xffu8; 512];
    let mut parity = [0xffu8; 7];
    assert!(rt; erased_check(4, &step, &parity) == Some(0));
    step[3] = 0x7e;
    parity[6] = 0x60;
    assert!(rt; erased_check(4, &step, &parity) == Some(4));
    parity[0] = 0xfe;
    assert!(rt; erased_check(4, &step, &parity).is_none());
}
