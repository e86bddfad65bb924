// A sink that holds its bytes in memory, with calls that fail where they are told to.
ghost use Rattle.std.specs.Prelude.{◌≡◌, ◌↔◌, ◌≤◌, ◌<◌, ◌^◌, ◌-◌, ◌++◌, ◌⊎◌, [], min, length, take, Some, IsErr, IfOk, OnErr, Contains};
ghost use Rattle.lab_outside.specs.Outside.{raised};

use crate::calls::Calls;
use crate::{Failed, Sink};
use nand_model::BlockList;
use std::alloc::{AllocError, Global};
use std::marker::Model;

/// A sink that takes at most `piece` bytes in a call, holds at most `room` bytes, and fails at
/// chosen calls.
#[derive(Drop)]
pub struct MemSink {
    bytes: Vec<u8>,
    room: usize,
    piece: usize,
    calls: Calls,
}

impl Model for MemSink {
    ghost use Rattle.std.specs.Prelude.{◌<◌, ◌≤◌, vec_len, vec_capacity};
    ghost use Rattle.lab_outside.specs.MemSink.{MemOutput};

    ghost Value = { MemOutput };

    ghost view = { λ s. record { held = s.bytes.items; room = s.room; piece = s.piece; failing = s.calls.failing; calls = s.calls.made; faults = s.calls.faults } };

    ghost invariant = { λ s. (vec_len s.bytes ≤ s.room) × (s.room ≤ vec_capacity s.bytes) × (0 < s.piece) };
}

impl MemSink {
    /// An empty sink with memory for `room` bytes, which fails exactly at the call numbers in
    /// `failing`, counted from 1, and where it is full.
    pub fn new(
        alloc: Global,
        room: usize,
        piece: usize,
        failing: BlockList,
    ) -> Result<MemSink, AllocError>
        requires { 0 < piece }
        ensures { IfOk result (λ sink. sink
            ≡ record {
              held = [];
              room = room;
              piece = piece;
              failing = failing;
              calls = 0;
              faults
                  = 0;
            }) }
    {
        Ok(MemSink {
            bytes: Vec::with_capacity(alloc, room)?,
            room,
            piece,
            calls: Calls::new(failing),
        })
    }

    /// Lends the bytes that were written, at most `room`.
    pub fn bytes(&self) -> &[u8]
        ensures held { result.now ≡ self.now.held }
        ensures within { length self.now.held ≤ self.now.room }
    {
        &self.bytes
    }
}

impl Sink for MemSink {
    ghost held = { λ s. Some s.held };

    ghost faults = { λ s. s.faults };

    /// Takes the front of `bytes`: at most `piece` bytes, as many as there is room for. It takes no
    /// memory.
    ///
    /// Errors: `Failed` exactly where the number of this call is one of those that fail, or where
    /// there is no room left for bytes that are not empty. Nothing but the counts of calls and of
    /// faults changes then.
    fn write(&mut self, bytes: &[u8]) -> Result<usize, Failed>
        ensures fails { IsErr result
            ↔ (Contains self.old.failing (raised self.old.calls)
            ⊎ ((0 < length bytes.now) × (length self.old.held ≡ self.old.room))) }
        ensures failed { OnErr result (self.new
            ≡ record self.old { calls = raised self.old.calls; faults = raised self.old.faults }) }

        ensures number { IfOk result
            (λ n. n ≡ min (length bytes.now)
            (min self.old.piece (self.old.room - length self.old.held))) }
        ensures taken { IfOk result (λ n. self.new
            ≡ record self.old {
              held = self.old.held
                  ++ take n bytes.now;
              calls = raised self.old.calls;
            }) }

        ensures pieces { 0 < self.new.piece }
        ensures within { length self.new.held ≤ self.new.room }
        ensures count { self.old.faults ≤ self.new.faults }
        ensures counted { self.new.faults < 2 ^ 64 }
    {
        self.calls.begin()?;
        let room_left = self.room - self.bytes.len();
        if room_left == 0 && !bytes.is_empty() {
            return Err(self.calls.fail());
        }
        let count = bytes.len().min(self.piece).min(room_left);
        self.bytes.extend_from_slice(&bytes[..count]).unwrap();
        Ok(count)
    }
}
