// Two sessions on two chips, played by the rules alone: an operation begins, has its page events,
// and is answered.
use ctl_core::Turn;

/// What a note says.
#[derive(Clone, Copy, Debug, PartialEq, Eq)]
pub enum Told {
    /// A chip was attached.
    Attached(u32),
    /// A session began an operation on a device.
    Began(u32, u32),
    /// A session was answered: that its erase or its mark was done, or this state of the block.
    Answered(u32, u32),
    /// Something else.
    Other,
}

/// Where a session stands: how many operations are answered, and how many page events the one in
/// flight still has.
#[derive(Clone, Copy)]
pub struct Side {
    answered: u32,
    left: Option<u32>,
}

/// The device of a session's next operation, which is the only one on its chip, and the number of
/// its page events.
fn next(session: u32, answered: u32) -> Option<(u32, u32)> {
    match (session, answered) {
        (0, 0) => Some((0, 1)),
        (0, 1) => Some((1, 0)),
        (1, 0) => Some((0, 0)),
        (1, 1) => Some((1, 2)),
        _ => None,
    }
}

impl Side {
    pub const START: Side = Side {
        answered: 0,
        left: None,
    };

    // The device of the operation in flight.
    fn holds(self, session: u32) -> Option<u32> {
        match (self.left, next(session, self.answered)) {
            (Some(_), Some((dev, _))) => Some(dev),
            _ => None,
        }
    }

    /// A turn of a session beside the other one: where it stands then, how the turn is answered,
    /// and what is noted.
    pub fn turn(self, session: u32, other: Side) -> (Side, Turn, Option<Told>) {
        match (self.left, next(session, self.answered)) {
            (Some(0), _) => {
                let after = Side {
                    answered: self.answered.saturating_add(1),
                    left: None,
                };
                // Session 0 sees the block marked where session 1 is done with its mark.
                let worn = session == 0 && self.answered == 1 && other.answered == 2;
                (
                    after,
                    Turn::Did,
                    Some(Told::Answered(session, u32::from(worn))),
                )
            }
            (Some(left), _) => {
                let after = Side {
                    left: Some(left - 1),
                    ..self
                };
                (after, Turn::Did, None)
            }
            (None, None) => (self, Turn::Done, None),
            (None, Some((dev, events))) => {
                let by = if session == 0 { 1 } else { 0 };
                if other.holds(by) == Some(dev) {
                    return (self, Turn::Held(by), None);
                }
                let after = Side {
                    left: Some(events),
                    ..self
                };
                (after, Turn::Did, Some(Told::Began(session, dev)))
            }
        }
    }

    /// Whether both operations are answered.
    pub fn done(self) -> bool {
        self.answered >= 2
    }
}
