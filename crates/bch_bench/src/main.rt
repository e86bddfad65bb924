//! Runs the encoder and the decoder of BCH codes on seeded words, so that their instructions can be
//! counted: the words are an operation (`make`, `encode`, `decode` or `search`), t, how many bits
//! are wrong, and how many words. `make` only makes the words, and `search` takes the plain
//! decoder.
#![tactic(auto)]

mod words;

ghost use Rattle.std.specs.Prelude.{◌<◌, ◌≤◌, ◌*◌, ◌+◌, ◌/◌, ◌≡◌};

use bch_decode::{Decoded, decode};
use bch_quick::{decode_quick, parity_quick};
use std::{env, io};
use words::{Operation, operation_named, word_of};

// What came of the words.
#[derive(Clone, Copy)]
struct Totals {
    corrected: u64,
    failed: u64,
}

// One word more.
fn run(operation: Operation, t: u32, wrong: u32, index: u64, totals: Totals) -> Totals
    requires { (0 < t) × (t ≤ 16) }
{
    let word = word_of(t, wrong, index);
    let mut step = word.step;
    let mut parity = word.parity;
    let len = ((13 * t + 7) / 8) as usize;
    let mut totals = totals;
    let decoded = match operation {
        Operation::Make => Decoded::Corrected(0),
        Operation::Encode => {
            parity_quick(t, &step, &mut parity[..len]);
            if parity == word.parity {
                Decoded::Corrected(0)
            } else {
                Decoded::Failed
            }
        }
        Operation::Decode => decode_quick(t, &mut step, &mut parity[..len]),
        Operation::Search => decode(t, &mut step, &mut parity[..len]),
    };
    match decoded {
        Decoded::Corrected(n) => totals.corrected = totals.corrected.wrapping_add(u64::from(n)),
        Decoded::Failed => totals.failed = totals.failed.wrapping_add(1),
    }
    totals
}

fn main(rt: HostRuntime) -> io::Result<()> {
    let mut numbers = [4u32, 4, 10];
    let mut operation = Operation::Decode;
    for (place, word) in env::args(&rt)?.skip(1).enumerate() {
        if place == 0 {
            operation = operation_named(word.as_str());
        } else if place <= 3 {
            if let Ok(number) = word.as_str().parse::<u32>() {
                numbers[place - 1] = number;
            }
        }
    }
    let mut totals = Totals {
        corrected: 0,
        failed: 0,
    };
    let t = numbers[0];
    if 0 < t && t <= 16 {
        for index in 0..numbers[2] {
            totals = run(operation, t, numbers[1], u64::from(index), totals);
        }
    }
    let corrected = totals.corrected;
    let failed = totals.failed;
    println!(rt; "corrected {corrected} failed {failed}")?;
    Ok(())
}
