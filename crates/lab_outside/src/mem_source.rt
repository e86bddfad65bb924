// A source over bytes in memory, with calls that fail where they are told to.
ghost use Rattle.std.specs.Prelude.{◌≡◌, ◌↔◌, ◌≤◌, ◌<◌, ◌^◌, ◌++◌, min, length, take, drop, Some, IsErr, IfOk, OnErr, Contains};
ghost use Rattle.lab_outside.specs.Outside.{raised};

use crate::calls::Calls;
use crate::{Failed, Source};
use nand_model::{BlockList, Bytes};
use std::marker::Model;

/// A source that gives the bytes of a list in order, at most `piece` of them in a call, and fails
/// at chosen calls.
#[derive(Drop)]
pub struct MemSource {
    bytes: Bytes,
    start: usize,
    piece: usize,
    calls: Calls,
}

impl Model for MemSource {
    ghost use Rattle.std.specs.Prelude.{◌<◌, ◌≤◌, length, drop};
    ghost use Rattle.lab_outside.specs.MemSource.{MemInput};

    ghost Value = { MemInput };

    ghost view = { λ s. record { left = drop s.start s.bytes; piece = s.piece; failing = s.calls.failing; calls = s.calls.made; faults = s.calls.faults } };

    ghost invariant = { λ s. (s.start ≤ length s.bytes) × (0 < s.piece) };
}

impl MemSource {
    /// A source of these bytes that fails exactly at the call numbers in `failing`, counted from 1.
    pub fn new(bytes: Bytes, piece: usize, failing: BlockList) -> MemSource
        requires { 0 < piece }
        ensures { result ≡ record
            { left = bytes; piece = piece; failing = failing; calls = 0; faults = 0 } }
    {
        MemSource {
            bytes,
            start: 0,
            piece,
            calls: Calls::new(failing),
        }
    }
}

impl Source for MemSource {
    ghost left = { λ s. Some s.left };

    ghost faults = { λ s. s.faults };

    /// The next bytes: at most `piece` of them, as many as are left and as `buf` holds. The rest of
    /// `buf` stays.
    ///
    /// Errors: `Failed` exactly where the number of this call is one of those that fail. Nothing
    /// but the counts of calls and of faults changes then.
    fn read(&mut self, buf: &mut [u8]) -> Result<usize, Failed>
        ensures fails { IsErr result ↔ Contains self.old.failing (raised self.old.calls) }
        ensures failed { OnErr result (self.new
            ≡ record self.old { calls = raised self.old.calls; faults = raised self.old.faults }) }
        ensures untouched { OnErr result (buf.new ≡ buf.old) }

        ensures number { IfOk result
            (λ n. n ≡ min (length self.old.left) (min self.old.piece (length buf.old))) }
        ensures front { IfOk result (λ n. buf.new ≡ take n self.old.left ++ drop n buf.old) }
        ensures given { IfOk result (λ n. self.new
            ≡ record self.old { left = drop n self.old.left; calls = raised self.old.calls }) }

        ensures pieces { 0 < self.new.piece }
        ensures count { self.old.faults ≤ self.new.faults }
        ensures counted { self.new.faults < 2 ^ 64 }
    {
        self.calls.begin()?;
        let left = &self.bytes.as_slice()[self.start..];
        let count = left.len().min(self.piece).min(buf.len());
        buf[..count].copy_from_slice(&left[..count]);
        self.start += count;
        Ok(count)
    }
}
