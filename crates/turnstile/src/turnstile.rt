// The turnstile.
ghost use Rattle.std.specs.Prelude.{◌≡◌, ℕ, ◌+◌, ◌%◌, ◌^◌, ◌<◌, [], ◌∷◌, ◌++◌, length, map, false, true, Some, None, IfOk, OnOk};
ghost use Rattle.turnstile.specs.Turns.{pass_count, new_pass, idle_view, first_view};
ghost use Rattle.turnstile.specs.Plays.{Served, without_ticket, kept_by, given_to};
ghost use Rattle.turnstile.specs.Seats.{RestsAs, HasDrawn, HasTicket, HasWorked, IsAtWork, HasMarked, IsMarked, HasTurned, Keeps, with_pass};
ghost use Rattle.turnstile.specs.Passes.{IsPassOf, new_standing, new_standings, AreAllPasses, AllSaw, TakesTurn, own};

use crate::bells::Bells;
use crate::pass::{Pass, PassList};
use crate::rule::{About, Draw, EndOfPass, Look, Mark, NextPass, Serve, Turns};
use crate::tagged::{Act, Tagged};
use crate::view::View;
use atomic_table::{Refused, Seat, Table};
use item_list::ItemList;
use std::alloc::{AllocError, Global};
use std::marker::Model;
use std::snapshot::Snapshot;
use std::sync::Wait;

// The word with the next ticket.
const NEXT: usize = 0;

// The word with the ticket that is served.
const SERVING: usize = 1;

// The word with the length of the history.
const FRONT: usize = 2;

/// A ticket lock round a value: each pass draws a ticket, waits until it is served, and lets one
/// act work on the value.
///
/// Contracts see its table, the tag of its value and the number of its passes (`Lock`).
#[derive(Drop)]
pub struct Turnstile<T: Tagged> {
    table: Table<T, View<T::Tag, T::Entry>, About<T>, Turns, Global>,
    bells: Bells,
}

impl<T: Tagged> Model for Turnstile<T> {
    ghost use Rattle.std.specs.Prelude.{◌≡◌, ◌<◌};
    ghost use Rattle.turnstile.specs.Passes.{Lock};

    ghost Value = { Lock T.Tag };

    ghost view = { λ t. record {
      table = t.table.shared.table_id;
      tag = T.tag t.table.shared.key.start.value;
      passes = t.table.shared.key.passes;
    } };

    ghost invariant = { λ t. (t.table.shared.table_id.words ≡ 3)
        × (t.table.shared.table_id.slots ≡ 1)
        × (0 < t.table.shared.key.passes) };
}

impl<T: Tagged> Turnstile<T> {
    /// A turnstile round a value with an empty history, and its passes, which are numbered from 0
    /// on.
    ///
    /// On want of memory the value is dropped.
    pub fn new(
        alloc: Global,
        value: T,
        passes: u32,
    ) -> Result<(Turnstile<T>, PassList<T>), AllocError>
        requires some { 0 < passes }
        requires fresh { T.history value ≡ [] }
        ensures tag { IfOk result (λ made. made.0.tag ≡ T.tag value) }
        ensures many { IfOk result (λ made. made.0.passes ≡ passes) }
        ensures passes { IfOk result (λ made. made.1 ≡ new_standings made.0 0 passes) }
    {
        let about = About {
            start: Snapshot::of(&value),
            passes,
        };
        let bells = Bells::new(alloc, passes)?;
        let mut slots = Vec::with_capacity(alloc, 1)?;
        slots.push_reserved(value);
        let (table, seat) = match Table::new(alloc, &[0, 0, 0], slots, &about) {
            Ok(made) => made,
            Err(Refused { slots: _ }) => return Err(AllocError),
        };
        let turnstile = Turnstile { table, bells };
        let list = turnstile.deal(alloc, seat, passes)?;
        Ok((turnstile, list))
    }

    // Gives each pass a seat of its own, with the first seat for the last.
    fn deal(
        &self,
        alloc: Global,
        seat: Seat<T, View<T::Tag, T::Entry>>,
        passes: u32,
    ) -> Result<PassList<T>, AllocError>
        requires table { seat.table_id ≡ self.now.table }
        requires many { (passes ≡ self.now.passes) × (0 < passes) }
        requires first { seat.me ≡ (first_view self.now.tag passes, []) }
        ensures { IfOk result (λ list. list ≡ new_standings self.now 0 passes) }
    {
        let mut seat = seat;
        let mut list = ItemList::new(alloc);
        let last = passes - 1;
        for number in 0..last {
            let next = self.split(&mut seat);
            self.add(&mut list, number, next)?;
        }
        self.add(&mut list, last, seat)?;
        Ok(list)
    }

    // A new seat, with the first pass of this one.
    fn split(&self, seat: &mut Seat<T, View<T::Tag, T::Entry>>) -> Seat<T, View<T::Tag, T::Entry>>
        requires table { seat.old.table_id ≡ self.now.table }
        requires idle { (seat.old.me.0.ticket ≡ None) × (seat.old.me.0.turn ≡ None) }
        ensures table { seat.new.table_id ≡ seat.old.table_id }
        ensures kept { seat.new.me ≡ (kept_by seat.old.me.0, seat.old.me.1) }
        ensures new_table { result.table_id ≡ seat.old.table_id }
        ensures given { result.me ≡ (given_to seat.old.me.0, []) }
    {
        self.table.shared.split_seat::<NextPass>(seat)
    }

    // Adds the new pass of this seat.
    fn add(
        &self,
        list: &mut PassList<T>,
        number: u32,
        seat: Seat<T, View<T::Tag, T::Entry>>,
    ) -> Result<(), AllocError>
        requires table { seat.table_id ≡ self.now.table }
        requires me { seat.me ≡ (idle_view self.now.tag (new_pass number ∷ []), []) }
        ensures { OnOk result (list.new ≡ list.old ++ new_standing self.now number ∷ []) }
    {
        let pass = Pass {
            number,
            seen: 0,
            seat,
        };
        list.append(pass)
    }

    /// Takes a turn with an act of this pass that is not done: draws a ticket, waits until it is
    /// served, and lets the act work on the value once.
    ///
    /// The history that the act finds begins with what the pass had seen, and names the pass
    /// nowhere after that. The pass has then seen the history that the act leaves. No memory is
    /// taken but what the act takes.
    pub fn turn<R: Wait, A: Act<T>>(&self, rt: &R, pass: &mut Pass<T>, act: &mut A)
        requires of { IsPassOf self.now pass.old }
        requires todo { A.is_done act.old ≡ false }
        requires number { A.number act.old ≡ pass.old.number }
        ensures done { A.is_done act.new ≡ true }
        ensures number { A.number act.new ≡ A.number act.old }
        ensures turn { TakesTurn T.tag T.history T.names A.does self.now
            act.old act.new pass.old pass.new }
    {
        pass.seen = self.take_turn(rt, &mut pass.seat, act);
    }

    // The turn of a pass's seat. It answers the length of the history then.
    fn take_turn<R: Wait, A: Act<T>>(
        &self,
        rt: &R,
        seat: &mut Seat<T, View<T::Tag, T::Entry>>,
        act: &mut A,
    ) -> u64
        requires table { seat.old.table_id ≡ self.now.table }
        requires todo { A.is_done act.old ≡ false }
        requires rests { (seen : ℕ) × RestsAs (A.number act.old) seen seat.old.me }
        ensures table { seat.new.table_id ≡ seat.old.table_id }
        ensures done { A.is_done act.new ≡ true }
        ensures number { A.number act.new ≡ A.number act.old }
        ensures turned { HasTurned T.tag T.history T.names A.does (A.number act.old)
            act.old act.new result seat.old.me seat.new.me }
    {
        let ticket = self.draw(seat);
        self.wait_for(rt, seat, ticket);
        let front = self.work(seat, act);
        self.mark(seat, front);
        self.serve_next(seat);
        front
    }

    // Draws a ticket.
    fn draw(&self, seat: &mut Seat<T, View<T::Tag, T::Entry>>) -> u64
        requires table { seat.old.table_id ≡ self.now.table }
        requires idle { (seat.old.me.0.ticket ≡ None) × (seat.old.me.0.turn ≡ None) }
        requires backed { 0 < pass_count seat.old.me.0 }
        ensures table { seat.new.table_id ≡ seat.old.table_id }
        ensures drew { HasDrawn result seat.old.me seat.new.me }
    {
        self.table.shared.fetch_add::<Draw>(seat, NEXT, 1)
    }

    // Waits until the ticket is served. The seat then has the value.
    fn wait_for<R: Wait>(&self, rt: &R, seat: &mut Seat<T, View<T::Tag, T::Entry>>, ticket: u64)
        requires table { seat.old.table_id ≡ self.now.table }
        requires ticket { HasTicket ticket seat.old.me }
        ensures table { seat.new.table_id ≡ seat.old.table_id }
        ensures served { Served T.tag T.history T.names seat.old.me seat.new.me }
    {
        for _ in rt.forever() {
            let rings = self.bells.rings(ticket);
            let found = self.table.shared.load::<Look<T>>(seat, SERVING);
            if found == ticket {
                return;
            }
            self.bells.sleep(rt, ticket, rings);
        }
        unreachable!()
    }

    // Lets the act work on the value that the seat holds, and answers the length of its history.
    fn work<A: Act<T>>(&self, seat: &mut Seat<T, View<T::Tag, T::Entry>>, act: &mut A) -> u64
        requires table { seat.old.table_id ≡ self.now.table }
        requires todo { A.is_done act.old ≡ false }
        requires holds { (found : T) × (seat.old.me.1 ≡ (0, found) ∷ []) }
        ensures table { seat.new.table_id ≡ seat.old.table_id }
        ensures done { A.is_done act.new ≡ true }
        ensures number { A.number act.new ≡ A.number act.old }
        ensures worked { HasWorked T.tag T.history T.names A.does (A.number act.old)
            act.old act.new result seat.old.me seat.new.me }
    {
        let value = seat.slot_mut(&self.table.shared, 0);
        act.act(value);
        value.entries()
    }

    // Stores the front of the history.
    fn mark(&self, seat: &mut Seat<T, View<T::Tag, T::Entry>>, front: u64)
        requires table { seat.old.table_id ≡ self.now.table }
        requires work { IsAtWork T.tag T.history T.names front seat.old.me }
        ensures table { seat.new.table_id ≡ seat.old.table_id }
        ensures marked { HasMarked T.history seat.old.me seat.new.me }
    {
        self.table.shared.store::<Mark<T>>(seat, FRONT, front);
    }

    // Gives the value back, and serves the next ticket.
    fn serve_next(&self, seat: &mut Seat<T, View<T::Tag, T::Entry>>)
        requires table { seat.old.table_id ≡ self.now.table }
        requires marked { IsMarked T.tag T.history seat.old.me }
        ensures table { seat.new.table_id ≡ seat.old.table_id }
        ensures passed { seat.new.me ≡ (without_ticket seat.old.me.0, []) }
    {
        let served = self.table.shared.fetch_add::<Serve>(seat, SERVING, 1);
        self.call(served.wrapping_add(1));
    }

    // Wakes the pass that has this ticket, where it was drawn.
    fn call(&self, ticket: u64) {
        if self.table.shared.peek(NEXT) != ticket {
            self.bells.ring(ticket);
        }
    }

    /// Takes the value out, once all passes have come back, in the order of their numbers.
    ///
    /// The value has the tag. Its history begins with what each pass has seen, and names that pass
    /// nowhere after that. No memory is taken.
    pub fn close(self, passes: PassList<T>) -> T
        requires { AreAllPasses self passes }
        ensures tag { T.tag result ≡ self.tag }
        ensures saw { AllSaw T.names self (T.history result) passes }
    {
        let seat = self.gather(passes);
        let Turnstile { table, bells: _ } = self;
        let mut closed = table.close_with(seat);
        let value = closed.take(0);
        closed.free();
        value
    }

    // One seat with all passes.
    fn gather(&self, passes: PassList<T>) -> Seat<T, View<T::Tag, T::Entry>>
        requires { AreAllPasses self.now passes }
        ensures table { result.table_id ≡ self.now.table }
        ensures all { result.me ≡ (idle_view self.now.tag (map own passes), []) }
    {
        // Reading the table shows that there is a pass.
        let _ = &self.table;
        let mut passes = passes;
        let Some(first) = passes.take_first() else {
            unreachable!()
        };
        let mut seat = first.into_seat();
        while let Some(pass) = passes.take_first() {
            self.join(&mut seat, pass);
        }
        seat
    }

    // Takes a pass in.
    fn join(&self, seat: &mut Seat<T, View<T::Tag, T::Entry>>, pass: Pass<T>)
        requires of { IsPassOf self.now pass }
        requires table { seat.old.table_id ≡ self.now.table }
        requires keeps { Keeps self.now.tag seat.old.me }
        ensures table { seat.new.table_id ≡ seat.old.table_id }
        ensures joined { seat.new.me ≡ (with_pass seat.old.me.0 (own pass), []) }
    {
        self.table
            .shared
            .join_seat::<EndOfPass>(seat, pass.into_seat());
    }
}
