// Laws of sessions.
ghost use Rattle.std.specs.Prelude.{◌≡◌, ◌++◌, List, Some};
ghost use Rattle.nand_model.specs.Partitions.{device_of, command_device};
ghost use Rattle.nand_model.specs.declared.geometry.Geometry.{Geometry};
ghost use Rattle.nand_model.specs.declared.words.Command.{Command};
ghost use Rattle.nand_model.specs.declared.words.Note.{Note};
ghost use Rattle.nand_model.specs.declared.words.Op.{Op};
ghost use Rattle.command_model.specs.Session.{SessionRun, next_op_of};
ghost use Rattle.command_model.specs.Taken.{IsTaken};
ghost use Rattle.session_steps.specs.Mirrors.{CanAllRun, Mirrors};
ghost use Rattle.session_steps.specs.Standing.{First};
ghost use Rattle.session_steps.specs.declared.session.Session.{Session};

/// A session stays where it stands while its controller makes more notes.
pub fn notes_leave_sessions()
    ensures { (sizes : Command → Geometry) (commands : List Command) (notes more : List Note)
        (session : Session) (run : SessionRun) →
        Mirrors sizes commands notes session run →
        Mirrors sizes commands (notes ++ more) session run }
{}

/// The next operation of commands that can be run is one that a chip takes, on the device of the
/// first of them.
pub fn next_operations_are_taken()
    ensures { (sizes : Command → Geometry) (run : SessionRun) (op : Op) →
        CanAllRun sizes run.commands → next_op_of sizes run.commands run.replies ≡ Some op →
        First (λ c. (device_of op ≡ command_device c) × IsTaken (sizes c) op) run.commands }
{}
