// Inputs that are refused.
ghost use Rattle.std.specs.Prelude.{◌≡◌, ◌<◌, ◌≤◌};
ghost use Rattle.code_words.specs.Inputs.{refusal_of};
ghost use Rattle.code_words.specs.Units.{unit_bytes};

use crate::encode::{STEP, stored_len};

/// Why an input is refused.
#[derive(Clone, Copy, PartialEq, Eq, Debug)]
pub enum InputRefusal {
    /// It has more than 16,777,216 bytes.
    TooLong,
    /// Its last piece is not whole.
    NotMultiple,
}

const LONGEST: usize = 16_777_216;

// Why bytes are no input of whole pieces of `size` bytes.
fn refusal(size: usize, bytes: &[u8]) -> Option<InputRefusal>
    requires { 0 < size }
    ensures { result ≡ refusal_of size bytes.now }
{
    if bytes.len() > LONGEST {
        Some(InputRefusal::TooLong)
    } else if bytes.len() % size == 0 {
        None
    } else {
        Some(InputRefusal::NotMultiple)
    }
}

/// Why bytes are no input of whole steps, which are to be encoded.
pub fn step_refusal(bytes: &[u8]) -> Option<InputRefusal>
    ensures { result ≡ refusal_of 1024 bytes.now }
{
    refusal(STEP, bytes)
}

/// Why bytes are no input of whole units, which are to be decoded: of steps with their stored
/// parities for t wrong bits, from 1 to 16.
pub fn unit_refusal(t: u32, bytes: &[u8]) -> Option<InputRefusal>
    requires { (0 < t) × (t ≤ 16) }
    ensures { result ≡ refusal_of (unit_bytes t) bytes.now }
{
    refusal(STEP + stored_len(t), bytes)
}
