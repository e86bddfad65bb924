// What the outside is: a source of bytes to read, and a sink for bytes to write.
ghost use Rattle.std.specs.Prelude.{◌≡◌, ℕ, ◌<◌, ◌≤◌, ◌^◌, List, Option, length, take, IfOk, OnOk, OnErr};
ghost use Rattle.std.specs.Io.KnownBytes.{prepend_known, append_known, IsAtEnd};
ghost use Rattle.nand_model.specs.Counts.{HasRisen};

use thiserror::Error;

/// A read or a write that failed. The count of faults of its source or sink rose in that call.
#[derive(Clone, Copy, Debug, PartialEq, Eq, Error)]
#[error("the outside failed")]
pub struct Failed;

/// A source of bytes. It may tell the bytes that it has left, and tells them either always or
/// never.
///
/// Its count of faults is a `u64` that never falls, and that stays at 2^64 - 1.
pub trait Source {
    // The bytes that reads will give from here on, where they are told.
    ghost left: { Self → Option (List ℕ) };

    ghost faults: { Self → ℕ };

    /// Puts the next bytes into the front of `buf` and answers their number. 0 for a buffer that is
    /// not empty is the end of the input.
    ///
    /// Errors: `Failed` only where the count of faults rose in this call, and then no byte was
    /// taken. It rises in no other call.
    fn read(&mut self, buf: &mut [u8]) -> Result<usize, Failed>
        ensures count { faults self.old ≤ faults self.new }
        ensures counted { faults self.new < 2 ^ 64 }

        ensures within { IfOk result (λ n. n ≤ length buf.new) }
        ensures next { IfOk result
            (λ n. left self.old ≡ prepend_known (take n buf.new) (left self.new)) }
        ensures end { IfOk result (λ n. n ≡ 0 → 0 < length buf.new → IsAtEnd (left self.new)) }
        ensures calm { OnOk result (faults self.new ≡ faults self.old) }

        ensures risen { OnErr result (HasRisen (faults self.old) (faults self.new)) }
        ensures failed { OnErr result (left self.new ≡ left self.old) };
}

/// A sink for bytes. It may tell the bytes that it holds, and tells them either always or never.
///
/// Its count of faults is a `u64` that never falls, and that stays at 2^64 - 1.
pub trait Sink {
    // The bytes that were written, where they are told.
    ghost held: { Self → Option (List ℕ) };

    ghost faults: { Self → ℕ };

    /// Takes a prefix of `bytes` and answers its length, which is at least 1 where `bytes` is not
    /// empty.
    ///
    /// Errors: `Failed` only where the count of faults rose in this call, and then no byte was
    /// taken.
    fn write(&mut self, bytes: &[u8]) -> Result<usize, Failed>
        ensures count { faults self.old ≤ faults self.new }
        ensures counted { faults self.new < 2 ^ 64 }

        ensures within { IfOk result (λ n. n ≤ length bytes.now) }
        ensures some { IfOk result (λ n. 0 < length bytes.now → 0 < n) }
        ensures grown { IfOk result
            (λ n. held self.new ≡ append_known (held self.old) (take n bytes.now)) }

        ensures risen { OnErr result (HasRisen (faults self.old) (faults self.new)) }
        ensures failed { OnErr result (held self.new ≡ held self.old) };
}
