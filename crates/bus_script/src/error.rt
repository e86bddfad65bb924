// Why a script is not run to its end.
ghost use Rattle.std.specs.Prelude.{◌≡◌};
ghost use Rattle.bus_script.specs.Answer.{script_error};
ghost use Rattle.bus_script.specs.declared.error.CycleError.TheVariants.{Memory as NoMemory};
ghost use Rattle.bus_script.specs.declared.error.ScriptError.TheVariants.{Memory};

use plan_grammar::PlanKind;
use std::alloc::AllocError;
use thiserror::Error;

/// Why cycles are not run to their end.
#[derive(Clone, Copy, Debug, PartialEq, Eq, Error)]
pub enum CycleError {
    /// This cycle, counted from 1, is the first illegal one.
    #[error("cycle {cycle}: Illegal")]
    Illegal { cycle: usize },
    /// Memory ran out.
    #[error("out of memory")]
    Memory,
}

impl From<AllocError> for CycleError {
    ghost from_gives = { λ _ error. error ≡ NoMemory };

    fn from(_memory: AllocError) -> CycleError {
        CycleError::Memory
    }
}

/// Why a script is not run to its end.
#[derive(Clone, Copy, Debug, PartialEq, Eq, Error)]
pub enum ScriptError {
    /// The bytes are no script: this line, counted from 1, is the first that breaks a rule, and this
    /// is the first rule that it breaks. Bytes without words are refused at the line after the last,
    /// and too many of them at line 0.
    #[error("line {line}: {kind}")]
    Refused { line: u32, kind: PlanKind },
    /// This cycle, counted from 1, is the first illegal one.
    #[error("cycle {cycle}: Illegal")]
    Illegal { cycle: usize },
    /// Memory ran out.
    #[error("out of memory")]
    Memory,
}

impl From<AllocError> for ScriptError {
    ghost from_gives = { λ _ error. error ≡ Memory };

    fn from(_memory: AllocError) -> ScriptError {
        ScriptError::Memory
    }
}

impl From<CycleError> for ScriptError {
    ghost from_gives = { λ cycles error. error ≡ script_error cycles };

    fn from(cycles: CycleError) -> ScriptError {
        match cycles {
            CycleError::Illegal { cycle } => ScriptError::Illegal { cycle },
            CycleError::Memory => ScriptError::Memory,
        }
    }
}
