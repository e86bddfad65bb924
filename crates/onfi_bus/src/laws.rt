// What one cycle at a time comes to, over whole lists of cycles.
ghost use Rattle.std.specs.Prelude.{◌≡◌, ◌↔◌, ℕ, [], ◌∷◌, ◌++◌, List, None};
ghost use Rattle.nand_model.specs.declared.geometry.Geometry.{Geometry};
ghost use Rattle.onfi_bus.specs.Moves.{step_of};
ghost use Rattle.onfi_bus.specs.Phrases.{Beat, IsLegal, Leads};
ghost use Rattle.onfi_bus.specs.Runs.{AreLegal, IsFirstIllegal, cycles_of};
ghost use Rattle.onfi_bus.specs.declared.cycle.Cycle.{Cycle};
ghost use Rattle.onfi_bus.specs.declared.phase.Act.{Act};
ghost use Rattle.onfi_bus.specs.declared.phase.Phase.{Phase};
ghost use Rattle.onfi_bus.specs.declared.phase.Phase.TheVariants.{Idle};

/// Cycles that were not refused, one after another from the start, are those of a legal list, and
/// each does what the phrases say. Every legal list is taken so. A cycle is refused exactly where
/// no legal list begins with what came so far and this cycle.
pub fn cycles_are_phrases()
    ensures legal { (g : Geometry) (list : List Beat) (phase : Phase) →
        Leads g Idle list phase → IsLegal g list }
    ensures taken { (g : Geometry) (list : List Beat) → IsLegal g list →
        (phase : Phase) × Leads g Idle list phase }
    ensures refused { (g : Geometry) (list : List Beat) (phase : Phase) (cycle : Cycle) →
        Leads g Idle list phase →
        ((step_of g phase cycle ≡ None) ↔ ((act : Act) → IsLegal g (list ++ (cycle, act) ∷ []) → ⊥)) }
{}

/// Cycles that begin a list of whole phrases do one thing alone, and none of them is the first
/// illegal one.
pub fn cycles_have_one_meaning()
    ensures one { (g : Geometry) (one other : List Beat) → IsLegal g one → IsLegal g other →
        cycles_of one ≡ cycles_of other → one ≡ other }
    ensures never_both { (g : Geometry) (cycles : List Cycle) (n : ℕ) → AreLegal g cycles →
        IsFirstIllegal g cycles n → ⊥ }
{}
