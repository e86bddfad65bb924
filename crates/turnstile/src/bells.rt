// What a pass sleeps on until its ticket is served. The rule knows nothing of it, and no clause
// rests on it.
ghost use Rattle.std.specs.Prelude.{◌<◌, length};

use std::alloc::{AllocError, Global};
use std::sync::Wait;
use std::sync::atomic::AtomicU64;
use std::sync::atomic::Ordering::SeqCst;

// One bell for each pass. The tickets out follow each other and are at most as many, so each has a
// bell of its own.
#[derive(Drop)]
pub(crate) struct Bells {
    bells: Vec<AtomicU64>,
    ghost some: { 0 < length bells.items },
}

impl Bells {
    // One bell for each pass.
    pub(crate) fn new(alloc: Global, passes: u32) -> Result<Bells, AllocError>
        requires { 0 < passes }
    {
        let mut bells = Vec::with_capacity(alloc, passes as usize)?;
        for _ in 0..passes {
            bells.push(AtomicU64::new(0))?;
        }
        Ok(Bells { bells })
    }

    // The bell of a ticket.
    fn bell(&self, ticket: u64) -> &AtomicU64 {
        let place = ticket % self.bells.len() as u64;
        &self.bells[place as usize]
    }

    // How often the bell of this ticket has rung.
    pub(crate) fn rings(&self, ticket: u64) -> u64 {
        self.bell(ticket).load(SeqCst)
    }

    // Sleeps until the bell of this ticket rings, where it has rung just so often. It may also
    // return for no reason.
    pub(crate) fn sleep<R: Wait>(&self, rt: &R, ticket: u64, rings: u64) {
        self.bell(ticket).park(rt, (rings & 0xffff_ffff) as u32);
    }

    // Rings the bell of this ticket, which wakes those that sleep on it.
    pub(crate) fn ring(&self, ticket: u64) {
        let bell = self.bell(ticket);
        bell.fetch_add(1, SeqCst);
        bell.wake_all();
    }
}
