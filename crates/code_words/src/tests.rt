use super::*;
use nand_model::Bytes;
use std::alloc::{AllocError, Global};
use std::test::Fail;

const TEXT: &[u8] =
    b"unit 0 corrected 4\n 00000000 32 ffffffffffffffffffffffffffffffffffffffffffffffffffffffffffffffff\n\
unit 1 failed\n 00000000 1 e0ffffffffffffffffffffffffffffffffffffffffffffffffffffffffffffff\n 00000020 31 \
ffffffffffffffffffffffffffffffffffffffffffffffffffffffffffffffff\n";

// A step of bytes 0xFF with its stored parity for 4 wrong bits, and in the first byte of the step
// four wrong bits; then the same with a fifth.
fn two_units(alloc: Global) -> Result<Bytes, AllocError> {
    let mut units = Bytes::filled(alloc, 0xff, 2 * 1031)?;
    let bytes = units.as_mut_slice();
    if bytes.len() == 2062 {
        bytes[0] = 0xf0;
        bytes[1031] = 0xe0;
    }
    Ok(units)
}

fn read_units(alloc: Global) -> Result<Bytes, AllocError> {
    let units = two_units(alloc)?;
    if unit_refusal(4, units.as_slice()).is_some() {
        return Bytes::with_room(alloc, 0);
    }
    decode_units(alloc, 4, units.as_slice())
}

// A step with one bit 0, for a code of one wrong bit: its stored parity, and how many bytes there are.
fn stored(alloc: Global) -> Result<(usize, u8, u8), AllocError> {
    let mut step = Bytes::filled(alloc, 0xff, 1024)?;
    let bytes = step.as_mut_slice();
    if bytes.len() == 1024 {
        bytes[1023] = 0xfe;
    }
    if step_refusal(step.as_slice()).is_some() {
        return Ok((0, 0, 0));
    }
    let units = encode_units(alloc, 1, step.as_slice())?;
    let units = units.as_slice();
    match units {
        [.., first, last] => Ok((units.len(), *first, *last)),
        _ => Ok((0, 0, 0)),
    }
}

#[test]
fn texts_of_units(rt: HostRuntime) -> Result<(), Fail> {
    let text = read_units(rt.alloc())?;
    assert_eq!(rt; text.as_slice(), TEXT);
    assert_eq!(rt; stored(rt.alloc())?, (1026, 0xff, 0x53));
    Ok(())
}
