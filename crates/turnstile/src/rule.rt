// The rule of the turnstile's table, and the kinds of step at it. The table has two words for
// tickets, one for the front of the history, and one slot for the value.
ghost use Rattle.turnstile.specs.Turns.{Stands, first_view};
ghost use Rattle.turnstile.specs.Plays.{drew, looked, marked, passed, kept_by, given_to, joined, spent};

use crate::tagged::Tagged;
use crate::view::View;
use atomic_table::{Join, Play, Split, TableRule};
use std::marker::PhantomData;
use std::snapshot::Snapshot;

/// What a table is told when it is made: its value, which has the tag, and the number of passes.
#[derive(Drop)]
pub struct About<T> {
    pub start: Snapshot<T>,
    pub passes: u32,
}

/// Who has the value, and what each pass has seen.
pub struct Turns;

impl<T: Tagged> TableRule<T, View<T::Tag, T::Entry>, About<T>> for Turns {
    ghost holds = { λ about. Stands T.tag T.history T.names (T.tag about.start.value) about.passes };

    ghost first = { λ about. first_view (T.tag about.start.value) about.passes };
}

/// A ticket is drawn.
pub struct Draw;

impl<T: Tagged> Play<T, View<T::Tag, T::Entry>> for Draw {
    ghost then = { drew };
}

/// The number served is looked at. Where it is the ticket, the seat has the value.
pub struct Look<T> {
    of: PhantomData<T>,
}

impl<T: Tagged> Play<T, View<T::Tag, T::Entry>> for Look<T> {
    ghost then = { looked T.tag T.history T.names };
}

/// The front of the history is stored.
pub struct Mark<T> {
    of: PhantomData<T>,
}

impl<T: Tagged> Play<T, View<T::Tag, T::Entry>> for Mark<T> {
    ghost then = { marked T.history };
}

/// The next ticket is served.
pub struct Serve;

impl<T: Tagged> Play<T, View<T::Tag, T::Entry>> for Serve {
    ghost then = { passed };
}

/// A pass goes to a seat of its own.
pub struct NextPass;

impl<G, E> Split<View<G, E>> for NextPass {
    ghost left = { kept_by };

    ghost right = { given_to };
}

/// A seat takes in the passes of another.
pub struct EndOfPass;

impl<G, E> Join<View<G, E>> for EndOfPass {
    ghost both = { joined };

    ghost spent = { spent };
}
