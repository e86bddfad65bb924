// A pass of a turnstile.
ghost use Rattle.std.specs.Prelude.{◌≡◌, length};
ghost use Rattle.turnstile.specs.Passes.{IsSeatOf};

use crate::tagged::Tagged;
use crate::view::View;
use atomic_table::Seat;
use item_list::ItemList;
use std::marker::Model;

/// The right to take turns at a turnstile. It keeps how much of the history it has seen.
///
/// Contracts see its turnstile's table and tag, its number and the history that it has seen
/// (`Standing`).
#[derive(Drop)]
pub struct Pass<T: Tagged> {
    pub(crate) number: u32,
    pub(crate) seen: u64,
    pub(crate) seat: Seat<T, View<T::Tag, T::Entry>>,
}

impl<T: Tagged> Model for Pass<T> {
    ghost use Rattle.turnstile.specs.Passes.{Standing};
    ghost use Rattle.turnstile.specs.Seats.{RestsAs, seen_in};

    ghost Value = { Standing T.Tag T.Entry };

    ghost view = { λ p. record {
      table = p.seat.table_id;
      tag = p.seat.me.0.tag;
      number = p.number;
      seen = seen_in p.seat.me.0.passes;
    } };

    ghost invariant = { λ p. RestsAs p.number p.seen p.seat.me };
}

/// A list of passes.
pub type PassList<T> = ItemList<Pass<T>>;

impl<T: Tagged> Pass<T> {
    // The seat alone.
    pub(crate) fn into_seat(self) -> Seat<T, View<T::Tag, T::Entry>>
        ensures table { result.table_id ≡ self.table }
        ensures me { IsSeatOf self result.me }
    {
        let Pass { seat, .. } = self;
        seat
    }

    /// Its number, counted from 0.
    pub fn number(&self) -> u32
        ensures { result ≡ self.now.number }
    {
        self.number
    }

    /// How many entries of the history it has seen.
    pub fn seen(&self) -> u64
        ensures { result ≡ length self.now.seen }
    {
        self.seen
    }
}
