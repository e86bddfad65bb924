// How sessions ended.
ghost use Rattle.std.specs.Prelude.{◌≡◌, ◌<◌, [], length, slice_get, OnOk, OnErr, IfErr};
ghost use Rattle.session_steps.specs.Ended.{with_outcome};

use nand_model::{ItemList, Outcome, Stats};
use std::alloc::{AllocError, Global};
use std::marker::Model;

/// The ends of a controller's sessions, in order.
pub type OutcomeList = ItemList<SessionEnd>;

/// Device numbers with the statistics of each.
pub type StatsList = ItemList<(u32, Stats)>;

/// How a session ended: whether it was cut short, and the outcomes of its finished commands.
#[derive(Drop)]
pub struct SessionEnd {
    session: u32,
    cut: bool,
    outcomes: Vec<Outcome>,
}

impl Model for SessionEnd {
    ghost use Rattle.session_steps.specs.Ended.{EndOfSession};

    ghost Value = { EndOfSession };

    ghost view = { λ e. record { session = e.session; cut = e.cut; outcomes = e.outcomes.items } };
}

impl SessionEnd {
    /// The end of a session without commands; `cut` tells that the controller went dark before all
    /// commands were finished. It takes no memory.
    pub fn new(alloc: Global, session: u32, cut: bool) -> SessionEnd
        ensures { result ≡ record { session = session; cut = cut; outcomes = [] } }
    {
        SessionEnd {
            session,
            cut,
            outcomes: Vec::new(alloc),
        }
    }

    // The end of a session whose finished commands had these outcomes.
    pub(crate) fn with_outcomes(session: u32, cut: bool, outcomes: Vec<Outcome>) -> SessionEnd
        ensures { result ≡ record { session = session; cut = cut; outcomes = outcomes.items } }
    {
        SessionEnd {
            session,
            cut,
            outcomes,
        }
    }

    /// Adds the outcome of a finished command. Where memory runs out, it is handed back and all is
    /// as before.
    pub fn push(&mut self, outcome: Outcome) -> Result<(), (Outcome, AllocError)>
        ensures ok { OnOk result (self.new ≡ with_outcome self.old outcome) }
        ensures err { OnErr result (self.new ≡ self.old) }
        ensures handed_back { IfErr result (λ refused. refused.0 ≡ outcome) }
    {
        match self.outcomes.push(outcome) {
            Ok(()) => Ok(()),
            Err(refused) => Err((refused.value, AllocError)),
        }
    }

    /// The number of the session.
    pub fn session(&self) -> u32
        ensures { result ≡ self.now.session }
    {
        self.session
    }

    /// Whether the controller went dark before all commands of the session were finished.
    pub fn cut(&self) -> bool
        ensures { result ≡ self.now.cut }
    {
        self.cut
    }

    /// The number of finished commands.
    pub fn len(&self) -> usize
        ensures { result ≡ length self.now.outcomes }
    {
        self.outcomes.len()
    }

    /// Lends the outcome of the finished command at place `n`, counted from 0.
    pub fn get(&self, n: usize) -> &Outcome
        requires { n < length self.now.outcomes }
        ensures { slice_get self.now.outcomes n ≡ Some result.now }
    {
        &self.outcomes[n]
    }
}
