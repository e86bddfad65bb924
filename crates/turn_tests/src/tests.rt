ghost use Rattle.std.specs.Prelude.{◌≡◌, ℕ, ◌<◌, length, slice_index_or, All, IfOk};
ghost use Rattle.turnstile.specs.Passes.{IsPassOf};

use crate::{AddNumber, Log};
use item_list::ItemList;
use std::alloc::{AllocError, Global};
use std::sync::Wait;
use std::test::Fail;
use std::thread;
use std::thread::Threads;
use turnstile::{Pass, Turnstile};

// Takes a turn, and answers how many entries the act found and left.
fn write<R: Wait>(rt: &R, turnstile: &Turnstile<Log>, pass: &mut Pass<Log>) -> (usize, usize)
    requires { IsPassOf turnstile.now pass.old }
    ensures of { IsPassOf turnstile.now pass.new }
    ensures number { pass.new.number ≡ pass.old.number }
    ensures left { result.1 ≡ length pass.new.seen }
{
    let mut act = AddNumber::new(pass.number());
    turnstile.turn(rt, pass, &mut act);
    (act.found, act.left)
}

// Takes so many turns, and hands the pass back.
fn write_all<R: Wait>(rt: &R, turnstile: &Turnstile<Log>, pass: Pass<Log>, turns: u32) -> Pass<Log>
    requires { IsPassOf turnstile.now pass }
    ensures of { IsPassOf turnstile.now result }
    ensures number { result.number ≡ pass.number }
{
    let mut pass = pass;
    for _ in 0..turns {
        write(rt, turnstile, &mut pass);
    }
    pass
}

// Each pass takes so many turns, on a thread of its own.
fn write_beside<R: Threads + Wait + Sync>(
    rt: &R,
    turnstile: &Turnstile<Log>,
    passes: Vec<Pass<Log>>,
    turns: u32,
) -> Result<Vec<Pass<Log>>, AllocError>
    requires { All (IsPassOf turnstile.now) passes.items }
    ensures len { IfOk result (λ v. length v.items ≡ length passes.items) }
    ensures of { IfOk result (λ v. (i : ℕ) (d : _) → i < length passes.items
        → IsPassOf turnstile.now (slice_index_or v.items i d)) }
    ensures number { IfOk result (λ v. (i : ℕ) (d : _) → i < length passes.items
        → (slice_index_or v.items i d).number ≡ (slice_index_or passes.items i d).number) }
{
    thread::map_vec(rt, passes, &|pass| write_all(rt, turnstile, pass, turns))
}

// What each pass has seen in the end.
fn seen_of(alloc: Global, passes: &[Pass<Log>]) -> Result<Vec<u64>, AllocError> {
    let mut seen = Vec::new(alloc);
    for pass in passes {
        seen.push(pass.seen())?;
    }
    Ok(seen)
}

// Makes a turnstile with so many passes, each of which takes so many turns on a thread of its own,
// and closes it. Answers the log, and how much of it each pass has seen.
fn run<R: Threads + Wait + Sync>(
    rt: &R,
    alloc: Global,
    passes: u32,
    turns: u32,
) -> Result<(Log, Vec<u64>), AllocError>
    requires { 0 < passes }
    ensures { IfOk result (λ ended. ended.0.tag ≡ 7) }
{
    let (turnstile, list) = Turnstile::new(alloc, Log::new(alloc, 7), passes)?;
    let after = write_beside(rt, &turnstile, list.into_vec(), turns)?;
    let seen = seen_of(alloc, &after)?;
    Ok((turnstile.close(ItemList::from_vec(after)), seen))
}

// The place after the last entry of this number.
fn place_after(entries: &[u32], number: usize) -> u64 {
    let mut after = 0;
    for (k, entry) in entries.iter().enumerate() {
        if *entry as usize == number {
            after = k as u64 + 1;
        }
    }
    after
}

#[test]
fn passes_take_turns_on_threads(rt: HostRuntime) -> Result<(), Fail> {
    for (passes, turns) in [(2, 1000), (64, 100)] {
        let (log, seen) = run(&rt, rt.alloc(), passes, turns)?;
        assert_eq!(rt; log.entries.len(), (passes * turns) as usize);
        for (number, seen) in seen.iter().enumerate() {
            let own = log
                .entries
                .iter()
                .filter(|n| **n as usize == number)
                .count();
            assert_eq!(rt; own, turns as usize);
            assert_eq!(rt; *seen, place_after(&log.entries, number));
        }
    }
    Ok(())
}

#[test]
fn a_pass_sees_what_its_acts_found_and_left(rt: HostRuntime) -> Result<(), Fail> {
    let (turnstile, mut passes) = Turnstile::new(rt.alloc(), Log::new(rt.alloc(), 7), 2)?;
    let Some(mut one) = passes.take_first() else {
        panic!(rt; "no pass");
    };
    let Some(mut two) = passes.take_first() else {
        panic!(rt; "one pass");
    };
    assert_eq!(rt;
        (one.number(), one.seen(), two.number(), two.seen()),
        (0, 0, 1, 0)
    );
    assert_eq!(rt; write(&rt, &turnstile, &mut one), (0, 1));
    assert_eq!(rt; write(&rt, &turnstile, &mut two), (1, 2));
    assert_eq!(rt; write(&rt, &turnstile, &mut two), (2, 3));
    assert_eq!(rt; (one.seen(), two.seen()), (1, 3));
    assert_eq!(rt; write(&rt, &turnstile, &mut one), (3, 4));
    assert_eq!(rt; (one.seen(), two.seen()), (4, 3));
    Ok(())
}
