ghost use Rattle.std.specs.Prelude.{◌<◌, ◌≤◌};

use super::*;

// A code word for t wrong bits in which some bits are turned over, and how many are wrong.
type Row = (u32, &'static [usize], Decoded14);

const ROWS: [Row; 9] = [
    (1, &[], Decoded14::Corrected(0)),
    (1, &[4185], Decoded14::Corrected(1)),
    (1, &[475, 8205], Decoded14::Failed),
    (2, &[148, 8219], Decoded14::Corrected(2)),
    (4, &[849, 2569, 4080, 8247], Decoded14::Corrected(4)),
    (4, &[1854, 4039, 6091, 6238, 8247], Decoded14::Failed),
    (
        8,
        &[29, 1178, 2075, 2166, 2273, 2614, 6380, 8303],
        Decoded14::Corrected(8),
    ),
    (
        8,
        &[87, 2717, 2727, 3258, 3355, 3431, 3530, 4739, 8303],
        Decoded14::Failed,
    ),
    (
        16,
        &[
            55, 353, 1067, 1081, 2387, 2719, 2976, 3225, 4322, 4895, 4937, 5437, 5536, 5917, 6278,
            8415,
        ],
        Decoded14::Corrected(16),
    ),
];

// SplitMix64's output number `index` from the seed 7, of which the low byte is taken.
fn seeded(index: u64) -> u8 {
    let step = index.wrapping_add(1).wrapping_mul(0x9e37_79b9_7f4a_7c15);
    let z = step.wrapping_add(7);
    let z = (z ^ (z >> 30)).wrapping_mul(0xbf58_476d_1ce4_e5b9);
    let z = (z ^ (z >> 27)).wrapping_mul(0x94d0_49bb_1331_11eb);
    ((z ^ (z >> 31)) & 0xff) as u8
}

// The step that has seeded bytes.
fn seeded_step() -> [u8; 1024] {
    let mut step = [0u8; 1024];
    for (i, byte) in step.iter_mut().enumerate() {
        *byte = seeded(i as u64);
    }
    step
}

// The parity of a step, and zeros behind it.
fn parity_of(t: u32, step: &[u8; 1024]) -> [u8; 28]
    requires { (0 < t) × (t ≤ 16) }
{
    let mut parity = [0u8; 28];
    parity14(t, step, &mut parity[..((14 * t + 7) / 8) as usize]);
    parity
}

// The stored parity of a step, and zeros behind it.
fn stored_of(t: u32, step: &[u8; 1024]) -> [u8; 28]
    requires { (0 < t) × (t ≤ 16) }
{
    let mut mask = [0u8; 28];
    mask14(t, &mut mask[..((14 * t + 7) / 8) as usize]);
    let mut stored = parity_of(t, step);
    for i in 0usize..28 {
        stored[i] ^= mask[i];
    }
    stored
}

// Turns over one bit of a word: of the step, or of the parity behind it.
fn turn(step: &mut [u8; 1024], parity: &mut [u8; 28], place: usize)
    requires { place < 8416 }
{
    if place < 8192 {
        step[place / 8] ^= 0x80 >> (place % 8);
    } else {
        parity[(place - 8192) / 8] ^= 0x80 >> (place % 8);
    }
}

// Whether a seeded code word with these bits turned over is answered so: put right, or left as it
// is where it fails.
fn is_answered(t: u32, turned: &[usize], answer: Decoded14) -> bool
    requires { (0 < t) × (t ≤ 16) }
{
    let step = seeded_step();
    let parity = parity_of(t, &step);
    let mut received = step;
    let mut received_parity = parity;
    for place in turned {
        if *place < 8416 {
            turn(&mut received, &mut received_parity, *place);
        }
    }
    let mut decoded = received;
    let mut decoded_parity = received_parity;
    let len = ((14 * t + 7) / 8) as usize;
    if decode14(t, &mut decoded, &mut decoded_parity[..len]) != answer {
        return false;
    }
    match answer {
        Decoded14::Corrected(_) => decoded == step && decoded_parity == parity,
        Decoded14::Failed => decoded == received && decoded_parity == received_parity,
    }
}

// Which rows are answered as a decoder from outside answers them.
fn answered_rows() -> [bool; 9] {
    let mut answered = [false; 9];
    for i in 0usize..9 {
        let (t, turned, answer) = ROWS[i];
        if 0 < t && t <= 16 {
            answered[i] = is_answered(t, turned, answer);
        }
    }
    answered
}

#[test]
fn words_from_outside(rt: HostRuntime) {
    assert_eq!(rt; answered_rows(), [true; 9]);
}

// The parity for 8 and for 16 wrong bits, out of an independent division by the generator.
#[test]
fn parities_from_outside(rt: HostRuntime) {
    let mut eight = [0u8; 28];
    eight[..14].copy_from_slice(&[
        0xe6, 0x9c, 0x6e, 0x44, 0x3f, 0x76, 0x8d, 0x7c, 0xc4, 0xd7, 0x11, 0x57, 0x24, 0xa6,
    ]);
    let sixteen = [
        0xeb, 0x2f, 0x18, 0xa5, 0xf2, 0x72, 0x27, 0xbb, 0x2d, 0x04, 0x5c, 0xf2, 0x8e, 0x9a, 0x5c,
        0xfa, 0xd1, 0xc1, 0xcc, 0xc4, 0xd2, 0x81, 0x0e, 0xd1, 0x16, 0x9b, 0x67, 0xcf,
    ];
    let mut one_off = [0xffu8; 1024];
    one_off[1023] = 0xfe;
    let mut stored = [0u8; 28];
    stored[0] = 0xff;
    stored[1] = 0x53;
    let step = seeded_step();
    let found = [
        parity_of(8, &step),
        parity_of(16, &step),
        stored_of(1, &one_off),
    ];
    assert_eq!(rt; found, [eight, sixteen, stored]);
}
