// Words of plans from the rules of the language.
use nand_model::{ItemList, Tear};
use plan_grammar::{Piece, PlanKind};
use plan_words::{
    LineError, Words, chip_numbers, device_number, is_name, numbers, pieces, small_numbers, tear,
};
use std::alloc::{AllocError, Global};
use std::test::Fail;

// Spans, each with a space before it.
fn spans_told(alloc: Global, spans: &ItemList<(u32, u32)>) -> Result<String, AllocError> {
    let mut told = String::from_str(alloc, "spans")?;
    for (from, to) in spans.iter() {
        told.push_str(format!(in alloc; " {from}-{to}")?.as_str())?;
    }
    Ok(told)
}

// A tear, or why the word is none.
fn tear_told(alloc: Global, word: &str) -> Result<String, AllocError> {
    match tear(alloc, word.as_bytes()) {
        Ok(Tear::Nothing) => String::from_str(alloc, "none"),
        Ok(Tear::Everything) => String::from_str(alloc, "all"),
        Ok(Tear::Seed(seed)) => format!(in alloc; "seed {seed}"),
        Ok(Tear::Spans(spans)) => spans_told(alloc, &spans),
        Err(error) => error.to_string(alloc),
    }
}

#[test]
fn reads_tears(rt: HostRuntime) -> Result<(), Fail> {
    let rows = [
        ("spans:0-4,4-0x8,4319-4320", "spans 0-4 4-8 4319-4320"),
        ("seed:010", "seed 10"),
        ("none", "none"),
        ("all", "all"),
        ("", "BadNumber"),
        ("None", "BadNumber"),
        ("seed:", "BadNumber"),
        ("seed:-1", "BadNumber"),
        ("spans:", "BadNumber"),
        ("spans:4-4", "BadNumber"),
        ("spans:8-4", "BadNumber"),
        ("spans:0-4,3-8", "BadNumber"),
        ("spans:0-4,", "BadNumber"),
        ("spans:0-4321", "BadNumber"),
    ];
    for (word, told) in rows {
        assert_eq!(rt; tear_told(rt.alloc(), word)?.as_str(), told, "{word}");
    }
    Ok(())
}

// A piece of data.
fn piece_told(alloc: Global, piece: &Piece) -> Result<String, AllocError> {
    match piece {
        Piece::Fill { byte, len } => format!(in alloc; "fill {byte} {len} "),
        Piece::Seed { seed, len } => format!(in alloc; "seed {seed} {len} "),
        Piece::Hex(bytes) => format!(in alloc; "hex {:?} ", bytes.as_slice()),
    }
}

// The pieces of a line, or why they are none.
fn pieces_told(alloc: Global, line: &str) -> Result<String, AllocError> {
    let mut told = String::new(alloc);
    match pieces(alloc, Words::of(line.as_bytes())) {
        Ok(pieces) => {
            for piece in pieces.iter() {
                told.push_str(piece_told(alloc, piece)?.as_str())?;
            }
            Ok(told)
        }
        Err(error) => error.to_string(alloc),
    }
}

#[test]
fn reads_pieces(rt: HostRuntime) -> Result<(), Fail> {
    let rows = [
        (
            " fill:fF:3 seed:0x10:2\thex:00aB # hex:0",
            "fill 255 3 seed 16 2 hex [0, 171] ",
        ),
        ("fill:f:1", "BadNumber"),
        ("fill:0x:1", "BadNumber"),
        ("fill:00:1:2", "BadNumber"),
        ("seed:1", "BadNumber"),
        ("hex:a", "BadNumber"),
        ("hex:0g", "BadNumber"),
        ("HEX:00", "BadNumber"),
    ];
    for (line, told) in rows {
        assert_eq!(rt; pieces_told(rt.alloc(), line)?.as_str(), told, "{line}");
    }
    Ok(())
}

// The numbers of a line, each with a space before it, or why they are none.
fn numbers_told(alloc: Global, line: &str) -> Result<String, AllocError> {
    let mut told = String::new(alloc);
    match numbers(alloc, Words::of(line.as_bytes())) {
        Ok(numbers) => {
            for number in numbers.iter() {
                told.push_str(format!(in alloc; " {number}")?.as_str())?;
            }
            Ok(told)
        }
        Err(error) => error.to_string(alloc),
    }
}

#[test]
fn reads_numbers(rt: HostRuntime) -> Result<(), Fail> {
    let rows = [
        ("4294967295 0 007 4294967296", " 4294967295 0 7 4294967296"),
        ("0x10\t7", " 16 7"),
        ("", ""),
        ("7 x", "BadNumber"),
    ];
    for (line, told) in rows {
        assert_eq!(rt; numbers_told(rt.alloc(), line)?.as_str(), told, "{line}");
    }
    Ok(())
}

// How many numbers below 2^32 a line has.
fn small_count(alloc: Global, line: &str) -> Result<usize, LineError> {
    Ok(small_numbers(alloc, Words::of(line.as_bytes()))?.len())
}

#[test]
fn reads_small_numbers(rt: HostRuntime) {
    let bad_number = LineError::Broken(PlanKind::BadNumber);
    let rows = [
        ("0x10\t7", Ok(2)),
        ("4294967295 0 007 4294967296", Err(bad_number)),
    ];
    for (line, count) in rows {
        assert_eq!(rt; small_count(rt.alloc(), line), count);
    }
}

#[test]
fn reads_names_and_devices(rt: HostRuntime) {
    assert_eq!(rt; (is_name(b"a_1"), is_name(b"_a1")), (true, false));
    let devices = [
        device_number(b"mtd18446744073709551615"),
        device_number(b"mtd00"),
    ];
    assert_eq!(rt; devices, [Some(18446744073709551615), None]);
    let chips = [chip_numbers(b"0x1.02"), chip_numbers(b"1.2.3")];
    assert_eq!(rt; chips, [Some((1, 2)), None]);
}
