// What a session passes before each of its turns.

use std::sync::atomic::AtomicBool;
use std::sync::atomic::Ordering::SeqCst;
use std::thread;

/// A gate that each session of a boot on threads passes before each of its turns.
pub trait Gate {
    /// Lets the session pass. `turn` is the number of its earlier passes in this boot, which stays
    /// at 2^64 - 1.
    fn pass(&self, session: u32, turn: u64);
}

/// A gate that is always open.
#[derive(Clone, Copy, Debug, PartialEq, Eq)]
pub struct OpenGate;

impl Gate for OpenGate {
    fn pass(&self, _session: u32, _turn: u64) {}
}

/// A gate that two sessions can pass only beside each other: the first pass of one and the second
/// pass of the other wait for each other. Either gives up after so many looks.
#[derive(Drop)]
pub struct HoldGate {
    held: u32,
    until: u32,
    looks: u64,
    held_came: AtomicBool,
    until_came: AtomicBool,
    gave_up: AtomicBool,
}

impl HoldGate {
    /// A gate at which session `held` waits in its first pass until session `until` comes to its
    /// second pass, and session `until` there until session `held` comes to its first.
    pub fn new(held: u32, until: u32, looks: u64) -> HoldGate {
        HoldGate {
            held,
            until,
            looks,
            held_came: AtomicBool::new(false),
            until_came: AtomicBool::new(false),
            gave_up: AtomicBool::new(false),
        }
    }

    /// Whether a session gave up.
    pub fn gave_up(&self) -> bool {
        self.gave_up.load(SeqCst)
    }

    // Waits until the other one has come, for so many looks.
    fn wait_for(&self, came: &AtomicBool) {
        for _ in 0..self.looks {
            if came.load(SeqCst) {
                return;
            }
            thread::yield_now();
        }
        self.gave_up.store(true, SeqCst);
    }
}

impl Gate for HoldGate {
    fn pass(&self, session: u32, turn: u64) {
        if session == self.held && turn == 0 {
            self.held_came.store(true, SeqCst);
            self.wait_for(&self.until_came);
        }
        if session == self.until && turn == 1 {
            self.until_came.store(true, SeqCst);
            self.wait_for(&self.held_came);
        }
    }
}
