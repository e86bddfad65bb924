// What a seat at the turnstile's table knows.
use std::collections::LinkedList;

/// A pass by its number, and the history that it has seen. No value of it is made.
pub struct Seen<E> {
    pub number: u32,
    pub entries: LinkedList<E>,
}

/// What a seat knows. No value of it is made.
pub struct View<G, E> {
    /// The tag, `None` once the seat is spent.
    pub tag: Option<G>,

    /// The passes that the seat has or keeps.
    pub passes: LinkedList<Seen<E>>,

    /// Its ticket, between draw and pass.
    pub ticket: Option<u64>,

    /// The history of the value, while the seat has the turn.
    pub turn: Option<LinkedList<E>>,
}
