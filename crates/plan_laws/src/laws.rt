// What holds of all plans.
ghost use Rattle.plan_grammar.specs.Laws.{ReadsAgain};
ghost use Rattle.plan_laws.specs.Within.{PlansAreReady, PlansKeepLimits};

/// The canonical text of a plan is read as the same plan, where it has at most 16,777,216 bytes and
/// no line of more than 65,536.
pub fn canonical_texts_are_read_again()
    ensures { ReadsAgain }
{}

/// What a plan names is there, and nothing in it passes a limit.
pub fn plans_keep_limits()
    ensures { PlansKeepLimits }
{}

/// A plan gives each controller what it needs at its start of each boot, whatever its chips are, as
/// long as they have the plan's sizes.
pub fn plans_are_ready<W>()
    ensures { PlansAreReady W }
{}
