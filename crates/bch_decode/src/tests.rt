ghost use Rattle.std.specs.Prelude.{◌<◌, ◌≤◌};

use super::*;
use bch_encode::parity;
use std::process::Abort;

// SplitMix64's output number `index` from a seed.
fn mix(seed: u64, index: u64) -> u64 {
    let step = index.wrapping_add(1).wrapping_mul(0x9e37_79b9_7f4a_7c15);
    let z = seed.wrapping_add(step);
    let z = (z ^ (z >> 30)).wrapping_mul(0xbf58_476d_1ce4_e5b9);
    let z = (z ^ (z >> 27)).wrapping_mul(0x94d0_49bb_1331_11eb);
    z ^ (z >> 31)
}

// Turns over one bit of a word: of the step, or of the parity behind it.
fn turn(step: &mut [u8; 512], parity: &mut [u8; 26], place: usize)
    requires { place < 4304 }
{
    if place < 4096 {
        step[place / 8] ^= 0x80 >> (place % 8);
    } else {
        parity[(place - 4096) / 8] ^= 0x80 >> (place % 8);
    }
}

// In how many bits two lists of bytes differ.
fn bits_apart(xs: &[u8], ys: &[u8]) -> u32 {
    let mut bits = 0u32;
    for (x, y) in xs.iter().zip(ys) {
        bits = bits.wrapping_add((x ^ y).count_ones());
    }
    bits
}

// A seeded code word with so many wrong bits: corrected up to t, and beyond it an answer that a
// check from outside accepts.
fn seeded_word(rt: &impl Abort, t: u32, wrong: u32, seed: u64)
    requires { (0 < t) × (t ≤ 16) }
{
    let len = ((13 * t + 7) / 8) as usize;
    let mut step = [0u8; 512];
    for (i, byte) in step.iter_mut().enumerate() {
        *byte = (mix(seed, i as u64) & 0xff) as u8;
    }
    let mut bytes = [0u8; 26];
    parity(t, &step, &mut bytes[..len]);

    let mut received = step;
    let mut received_bytes = bytes;
    for draw in 512u64..552 {
        if bits_apart(&received, &step).wrapping_add(bits_apart(&received_bytes, &bytes)) < wrong {
            let place = (mix(seed, draw) % u64::from(4096 + 13 * t)) as usize;
            turn(&mut received, &mut received_bytes, place);
        }
    }
    let mut decoded = received;
    let mut decoded_bytes = received_bytes;
    match decode(t, &mut decoded, &mut decoded_bytes[..len]) {
        Decoded::Corrected(n) => {
            let corrected = bits_apart(&received, &decoded).wrapping_add(bits_apart(
                &received_bytes,
                &decoded_bytes,
            ));
            assert!(rt;
                n == corrected && n <= t,
                "t {t}, {wrong} wrong, seed {seed}: {n}"
            );
            assert!(rt;
                wrong > t || (n == wrong && decoded == step && decoded_bytes == bytes),
                "t {t}, {wrong} wrong, seed {seed}"
            );
            let mut again = [0u8; 26];
            parity(t, &decoded, &mut again[..len]);
            assert!(rt;
                decoded_bytes == again,
                "t {t}, {wrong} wrong, seed {seed}: no code word"
            );
        }
        Decoded::Failed => {
            assert!(rt; wrong > t, "t {t}, {wrong} wrong, seed {seed}: failed");
            assert!(rt;
                decoded == received && decoded_bytes == received_bytes,
                "t {t}, {wrong} wrong, seed {seed}: changed"
            );
        }
    }
}

// Words with 0 to t + 2 wrong bits, six of each.
#[test]
fn seeded_words(rt: HostRuntime) {
    for t in [1u32, 2, 4, 8, 16] {
        assert!(rt; 0 < t && t <= 16);
        for wrong in 0..t + 3 {
            for round in 0u64..6 {
                seeded_word(&rt, t, wrong, u64::from(t * 1000 + wrong * 10) + round);
            }
        }
    }
}

// Answers worked out from the polynomials of the code, and for t = 5 and t = 8 two words that
// lib/bch miscorrects.
#[test]
fn words_from_outside(rt: HostRuntime) {
    let mut generator = [0u8; 512];
    generator[508..].copy_from_slice(&[0x04, 0xd5, 0x15, 0x4b]);
    for t in [1u32, 2, 4] {
        assert!(rt; 0 < t && t <= 4);
        let len = ((13 * t + 7) / 8) as usize;
        let mut step = generator;
        let mut bytes = [0u8; 7];
        let want = if t < 4 {
            Decoded::Corrected(0)
        } else {
            Decoded::Failed
        };
        assert!(rt; decode(t, &mut step, &mut bytes[..len]) == want, "t {t}");
        assert!(rt; step == generator && bytes == [0u8; 7], "t {t}");
    }

    let mut step = [0u8; 512];
    step[0] = 0xf0;
    let mut bytes = [0u8, 0, 0, 0, 0, 0, 0x0f];
    assert!(rt; decode(4, &mut step, &mut bytes) == Decoded::Corrected(4));
    assert!(rt; step == [0u8; 512] && bytes == [0u8, 0, 0, 0, 0, 0, 0x0f]);

    for (t, places) in [
        (
            5u32,
            [2095usize, 612, 177, 2731, 1903, 4085, 4096, 4096, 4096],
        ),
        (8, [1291, 442, 3297, 3594, 3080, 3776, 1580, 537, 2470]),
    ] {
        assert!(rt; 0 < t && t <= 8);
        let len = ((13 * t + 7) / 8) as usize;
        let mut step = [0xffu8; 512];
        let mut bytes = [0u8; 26];
        parity(t, &step, &mut bytes[..len]);
        let mut none = [0u8; 26];
        for place in places {
            if place < 4096 {
                turn(&mut step, &mut none, place);
            }
        }
        let mut decoded = step;
        let mut decoded_bytes = bytes;
        assert!(rt;
            decode(t, &mut decoded, &mut decoded_bytes[..len]) == Decoded::Failed,
            "t {t}"
        );
        assert!(rt; decoded == step && decoded_bytes == bytes, "t {t}");
    }
}
