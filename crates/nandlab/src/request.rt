// What the words of a call ask for.
ghost use Rattle.std.specs.Prelude.{◌≡◌};
ghost use Rattle.nandlab.specs.Words.{most_read};

/// The greatest number of bytes of a plan, and of steps or units of a code.
const MOST_BYTES: usize = 16_777_216;

/// The greatest number of bytes of a script of bus cycles.
const MOST_SCRIPT_BYTES: usize = 1_048_576;

/// What the words of a call ask for.
#[derive(Clone, Copy, Debug, PartialEq, Eq)]
pub enum Request {
    /// The canonical text of a plan.
    Check,
    /// The report of a plan's replay.
    Replay,
    /// The report of a plan's run. Its replay is taken for it.
    Run,
    /// The summary of the plan that is made from a number.
    Make(u64),
    /// What a script of bus cycles does at a new chip.
    Bus,
    /// Steps of 1024 bytes with their stored parities, for a code that corrects so many bits.
    Encode(u32),
    /// What is read of steps of 1024 bytes by their stored parities, for such a code.
    Decode(u32),
}

impl Request {
    /// The most bytes that it may be given. None comes where it reads nothing.
    pub fn most_read(self) -> Option<usize>
        ensures { result ≡ most_read self }
    {
        match self {
            Request::Check | Request::Replay | Request::Run => Some(MOST_BYTES),
            Request::Encode(_) | Request::Decode(_) => Some(MOST_BYTES),
            Request::Bus => Some(MOST_SCRIPT_BYTES),
            Request::Make(_) => None,
        }
    }
}
