// Why a line is not taken.
ghost use Rattle.std.specs.Prelude.{◌≡◌};
ghost use Rattle.plan_words.specs.declared.error.LineError.TheVariants.{Broken, OutOfMemory};

use plan_grammar::PlanKind;
use std::alloc::AllocError;
use thiserror::Error;

/// Why a line is not taken.
#[derive(Clone, Copy, Debug, PartialEq, Eq, Error)]
pub enum LineError {
    /// A rule is broken, and this is the first one.
    #[error("{0}")]
    Broken(PlanKind),
    /// Memory ran out.
    #[error("out of memory")]
    OutOfMemory,
}

impl From<PlanKind> for LineError {
    ghost from_gives = { λ kind error. error ≡ Broken kind };

    fn from(kind: PlanKind) -> LineError {
        LineError::Broken(kind)
    }
}

impl From<AllocError> for LineError {
    ghost from_gives = { λ _ error. error ≡ OutOfMemory };

    fn from(_memory: AllocError) -> LineError {
        LineError::OutOfMemory
    }
}
