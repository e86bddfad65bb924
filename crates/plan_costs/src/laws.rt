// How the costs of a plan grow by a command.
ghost use Rattle.plan_costs.specs.Laws.{CostsGrow};

/// With one more command in the last session of the last boot, the costs of all commands grow by
/// what that command costs without pages that fail, and by what the pages that may fail cost more,
/// over the nandwrites of the boot on the command's device alone.
pub fn costs_grow()
    ensures { CostsGrow }
{}
