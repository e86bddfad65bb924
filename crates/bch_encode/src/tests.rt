use super::*;

// The low byte of SplitMix64's output number `index` from a seed.
fn seed_byte(seed: u64, index: u64) -> u8 {
    let step = index.wrapping_add(1).wrapping_mul(0x9e37_79b9_7f4a_7c15);
    let z = seed.wrapping_add(step);
    let z = (z ^ (z >> 30)).wrapping_mul(0xbf58_476d_1ce4_e5b9);
    let z = (z ^ (z >> 27)).wrapping_mul(0x94d0_49bb_1331_11eb);
    ((z ^ (z >> 31)) & 0xff) as u8
}

// Bytes out of lib/bch and of an independent division by the generator.
#[test]
fn parities_of_lib_bch(rt: HostRuntime) {
    let mut seeded = [0u8; 512];
    for (i, byte) in seeded.iter_mut().enumerate() {
        *byte = seed_byte(7, i as u64);
    }
    let mut one_off = [0xffu8; 512];
    one_off[511] = 0xfe;
    let ones = [0xffu8; 512];

    let mut found = [0u8; 2];
    parity(1, &seeded, &mut found);
    assert_eq!(rt; found, [0xab, 0x10]);

    let mut found = [0u8; 13];
    parity(8, &seeded, &mut found);
    assert_eq!(rt;
        found,
        [
            0xfb, 0x8b, 0x56, 0xf7, 0x2e, 0xe6, 0x21, 0x2f, 0x19, 0xd3, 0x66, 0x8b, 0xe4
        ]
    );

    let mut found = [0u8; 26];
    parity(16, &seeded, &mut found);
    assert_eq!(rt;
        found,
        [
            0xae, 0x40, 0x1b, 0x75, 0x8c, 0x08, 0x0d, 0x26, 0x39, 0x31, 0x7e, 0x32, 0x2a, 0xea,
            0xd6, 0xd7, 0xfe, 0x1d, 0x76, 0x92, 0xdb, 0x64, 0x0e, 0xf5, 0x23, 0x63
        ]
    );

    let mut found = [0u8; 7];
    parity(4, &[0u8; 512], &mut found);
    assert_eq!(rt; found, [0u8; 7]);
    let mut erased = [0u8; 7];
    parity(4, &ones, &mut erased);
    assert_eq!(rt; erased, [0xd7, 0xec, 0x33, 0xc6, 0x69, 0x53, 0x80]);

    // The mask is the complement of an erased step's parity, in all bits.
    let mask = erased.map(|byte| !byte);
    assert_eq!(rt; mask, [0x28, 0x13, 0xcc, 0x39, 0x96, 0xac, 0x7f]);
    parity(4, &one_off, &mut found);
    for (i, byte) in found.iter_mut().enumerate() {
        *byte ^= mask[i];
    }
    assert_eq!(rt; found, [0xba, 0xdc, 0xfb, 0xc5, 0x47, 0x95, 0x4f]);
}
