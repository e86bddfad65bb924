// How a turn is answered.

/// What a turn came to.
#[derive(Clone, Copy, Debug, PartialEq, Eq)]
pub enum Turn {
    /// One step was done.
    Did,
    /// The session has nothing in flight, and the session of this number has an operation in flight
    /// on the chip of its next operation.
    Held(u32),
    /// The session's commands are over; of an attach turn: all chips are attached.
    Done,
    /// The controller is dark.
    Dark,
}
