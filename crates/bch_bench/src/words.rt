// Seeded words.
ghost use Rattle.std.specs.Prelude.{◌<◌, ◌≤◌, ◌*◌, ◌+◌};

use bch_quick::parity_quick;

/// What is done with each word.
#[derive(Clone, Copy)]
pub enum Operation {
    /// Nothing.
    Make,
    /// Its parity is written.
    Encode,
    /// It is decoded.
    Decode,
    /// It is decoded by the plain decoder.
    Search,
}

/// The operation with this name, or `Decode`.
pub fn operation_named(name: &str) -> Operation {
    if name == "make" {
        Operation::Make
    } else if name == "encode" {
        Operation::Encode
    } else if name == "search" {
        Operation::Search
    } else {
        Operation::Decode
    }
}

/// A step with its parity.
#[derive(Clone, Copy)]
pub struct Word {
    pub step: [u8; 512],
    pub parity: [u8; 26],
}

// SplitMix64's output number `index` from a seed.
fn mix(seed: u64, index: u64) -> u64 {
    let step = index.wrapping_add(1).wrapping_mul(0x9e37_79b9_7f4a_7c15);
    let z = seed.wrapping_add(step);
    let z = (z ^ (z >> 30)).wrapping_mul(0xbf58_476d_1ce4_e5b9);
    let z = (z ^ (z >> 27)).wrapping_mul(0x94d0_49bb_1331_11eb);
    z ^ (z >> 31)
}

// Turns one bit over.
fn turn(word: &mut Word, place: usize)
    requires { place < 4304 }
{
    if place < 4096 {
        word.step[place / 8] ^= 0x80 >> (place % 8);
    } else {
        word.parity[(place - 4096) / 8] ^= 0x80 >> (place % 8);
    }
}

// Whether a number is among the first `count`.
fn is_among(numbers: &[u32; 32], count: usize, number: u32) -> bool {
    numbers.iter().take(count).any(|other| *other == number)
}

/// A code word for t wrong bits in which `wrong` bits, at most 32, are turned over.
pub fn word_of(t: u32, wrong: u32, index: u64) -> Word
    requires { (0 < t) × (t ≤ 16) }
{
    let mut word = Word {
        step: [0; 512],
        parity: [0; 26],
    };
    for (i, byte) in word.step.iter_mut().enumerate() {
        *byte = (mix(index, i as u64) & 0xff) as u8;
    }
    let len = ((13 * t + 7) / 8) as usize;
    let step = word.step;
    parity_quick(t, &step, &mut word.parity[..len]);
    let bits = 4096 + 13 * t;
    let mut places = [0u32; 32];
    let mut count = 0usize;
    for draw in 512u64..612 {
        let place = (mix(index, draw) % u64::from(bits)) as u32;
        if count < 32 && (count as u32) < wrong && !is_among(&places, count, place) {
            places[count] = place;
            count += 1;
            turn(&mut word, place as usize);
        }
    }
    word
}
