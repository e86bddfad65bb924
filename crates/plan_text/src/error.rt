// Why bytes are not read as a plan.
ghost use Rattle.std.specs.Prelude.{◌≡◌};
ghost use Rattle.plan_text.specs.declared.error.PlanError.TheVariants.{Memory};

use plan_grammar::PlanKind;
use std::alloc::AllocError;
use thiserror::Error;

/// Why bytes are not read as a plan.
#[derive(Clone, Copy, Debug, PartialEq, Eq, Error)]
pub enum PlanError {
    /// They are no plan: this line, counted from 1, is the first that breaks a rule, and this is the
    /// first rule that it breaks. A plan that ends too early is refused at the line after its last,
    /// and one of too many bytes at line 0.
    #[error("line {line}: {kind}")]
    Refused { line: u32, kind: PlanKind },
    /// Memory ran out.
    #[error("out of memory")]
    Memory,
}

impl From<AllocError> for PlanError {
    ghost from_gives = { λ _ error. error ≡ Memory };

    fn from(_memory: AllocError) -> PlanError {
        PlanError::Memory
    }
}
