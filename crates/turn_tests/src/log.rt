// A log of the numbers of passes, and the act that adds one.
ghost use Rattle.std.specs.Prelude.{◌≡◌, ◌<◌, ◌^◌, true, false, [], length};

use std::alloc::Global;
use turnstile::{Act, Tagged};

/// A log of the numbers of passes, under a tag.
#[derive(Drop)]
pub struct Log {
    pub tag: u8,
    pub entries: Vec<u32>,
}

impl Log {
    /// An empty log, which takes no memory.
    pub fn new(alloc: Global, tag: u8) -> Log
        ensures tag { result.tag ≡ tag }
        ensures empty { result.entries.items ≡ [] }
    {
        Log {
            tag,
            entries: Vec::new(alloc),
        }
    }
}

impl Tagged for Log {
    type Tag = u8;

    type Entry = u32;

    ghost tag = { λ l. l.tag };

    ghost history = { λ l. l.entries.items };

    ghost names = { λ tag entry. entry };

    fn entries(&self) -> u64 {
        self.entries.len() as u64
    }
}

/// Adds its pass's number to a log, where there is memory. It keeps how many entries it found and
/// left.
#[derive(Drop)]
pub struct AddNumber {
    pub number: u32,
    pub done: bool,
    pub found: usize,
    pub left: usize,
}

impl AddNumber {
    /// An act of the pass with this number, which is not done.
    pub fn new(number: u32) -> AddNumber
        ensures number { result.number ≡ number }
        ensures todo { result.done ≡ false }
    {
        AddNumber {
            number,
            done: false,
            found: 0,
            left: 0,
        }
    }
}

impl Act<Log> for AddNumber {
    ghost use Rattle.std.specs.Prelude.{◌≡◌, length};

    ghost is_done = { λ w. w.done };

    ghost number = { λ w. w.number };

    ghost does = { λ w l v m. (v.found ≡ length l.entries.items) × (v.left ≡ length m.entries.items) };

    fn act(&mut self, value: &mut Log) {
        self.done = true;
        self.found = value.entries.len();
        let _ = value.entries.push(self.number).is_ok();
        self.left = value.entries.len();
    }
}
