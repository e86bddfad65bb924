ghost use Rattle.std.specs.Prelude.{ℕ, List, ◌≡◌, Contains};
ghost use Rattle.nand_model.specs.Chip.{ChipState, FaultModel};
ghost use Rattle.nand_model.specs.Partitions.{Partitions};
ghost use Rattle.command_model.specs.Boot.{Boot};
ghost use Rattle.run_model.specs.Course.{Course, course_after};
ghost use Rattle.run_model.specs.Laws.{RepliesDependOnTheChip};
ghost use Rattle.run_model.specs.Run.{AreBoots, CoursesAreFaithful, RunsAreFaithful, HaveOneNumberEach};
ghost use Rattle.nand_model.specs.declared.geometry.Geometry.{Geometry};
ghost use Rattle.nand_model.specs.declared.words.Command.{Command};
ghost use Rattle.run_laws.specs.Replay.{IsReplayed};
ghost use Rattle.run_laws.specs.Turns.{AttachIsStep, TurnIsStep, BusyTurnsSuffice, HaveChips, SomeTurnIsBusy};

/// Whatever the turns, the cut, the flips and the failures of a boot, its notes are a history of
/// one thread whose traces are what befell the chips, and each session's operations are those of
/// its commands, in order and each once.
pub fn every_interleaving<W>()
    ensures { (model : FaultModel W) (boot : Boot) (starts : List (ChipState W)) (attaches : ℕ)
        (turns : List ℕ) →
        CoursesAreFaithful model boot starts attaches turns }
{}

/// The same over all boots of a run, each from the states that the one before it left.
pub fn every_run<W>()
    ensures { (model : FaultModel W) (partitions : Partitions) (starts : List (ChipState W))
        (boots : List Boot)
        (turns : List (List ℕ)) (courses : List (Course W)) →
        ((boot : Boot) → Contains boots boot → boot.partitions ≡ partitions) →
        AreBoots model starts boots turns courses →
        RunsAreFaithful model partitions starts boots courses }
{}

/// A chip's replies depend on that chip alone: where it starts alike in two boots without flips and
/// cuts, with the same partitions, the same operations in order are answered alike.
pub fn chips_stand_alone<W>()
    ensures { (model : FaultModel W) → RepliesDependOnTheChip model }
{}

/// An attach step of a course changes nothing where the controller is dark or all chips are
/// attached, and is else one page event.
pub fn attach_steps_are_events<W>()
    ensures { (model : FaultModel W) (boot : Boot) (starts : List (ChipState W))
        (sizes : Command → Geometry) (attaches : ℕ) (turns : List ℕ) →
        AttachIsStep model boot sizes (course_after model boot starts attaches turns) }
{}

/// A turn of a session changes nothing where it is idle, and is else one step: an operation begins,
/// or one page event is done, or the operation is answered. So the turns of a list that are not
/// idle lead to the same course.
pub fn turns_are_steps<W>()
    ensures one_step { (model : FaultModel W) (boot : Boot) (sizes : Command → Geometry)
        (course : Course W) (session : ℕ) →
        TurnIsStep model boot sizes course session }
    ensures busy_turns { (model : FaultModel W) (boot : Boot) (starts : List (ChipState W))
        (turns : List ℕ) (course : Course W) →
        BusyTurnsSuffice model boot starts turns course }
{}

/// A boot goes on: while a course is not over and all its chips are attached, the turn of some
/// session of the boot is not idle, where each session has one number and the chip of each
/// command's device is there.
pub fn courses_go_on<W>()
    ensures { (model : FaultModel W) (boot : Boot) (starts : List (ChipState W)) (attaches : ℕ)
        (turns : List ℕ) →
        HaveOneNumberEach boot.sessions → HaveChips boot starts →
        SomeTurnIsBusy boot starts (course_after model boot starts attaches turns) }
{}

/// A replay of a boot has one end: whatever the numbers of attach steps and rounds, two of its
/// courses that are over are the same.
pub fn replays_end_alike<W>()
    ensures { (model : FaultModel W) (boot : Boot) (starts : List (ChipState W))
        (schedule : List ℕ) (course other : Course W) → HaveOneNumberEach boot.sessions →
        IsReplayed model boot starts schedule course →
        IsReplayed model boot starts schedule other → other ≡ course }
{}
