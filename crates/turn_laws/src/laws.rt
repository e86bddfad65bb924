// Laws of how long a boot is.
ghost use Rattle.std.specs.Prelude.{ℕ, List};
ghost use Rattle.nand_model.specs.Chip.{ChipState, FaultModel};
ghost use Rattle.command_model.specs.Boot.{Boot};
ghost use Rattle.run_model.specs.Run.{HaveOneNumberEach};
ghost use Rattle.run_model.specs.Start.{CanRunBoot};
ghost use Rattle.turn_laws.specs.Laws.{BusyTurnsAreFew, EventsAreTurns, AttachesAreShort};

/// A boot of commands that can be run ends, where each session has one number: whatever the turns,
/// few of them do anything, and each does at most one event. An attach has at most an event for
/// each block and sixteen more.
pub fn courses_end<W>()
    ensures turns { (model : FaultModel W) (boot : Boot) (starts : List (ChipState W))
        (attaches : ℕ) (turns : List ℕ) →
        CanRunBoot boot starts → HaveOneNumberEach boot.sessions →
        BusyTurnsAreFew model boot starts attaches turns }
    ensures events { (model : FaultModel W) (boot : Boot) (starts : List (ChipState W))
        (attaches : ℕ) (turns : List ℕ) →
        EventsAreTurns model boot starts attaches turns }
    ensures attaches { (model : FaultModel W) (boot : Boot) (starts : List (ChipState W))
        (attaches : ℕ) →
        AttachesAreShort model boot starts attaches }
{}
