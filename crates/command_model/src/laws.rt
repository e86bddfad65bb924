//! Laws of commands.
ghost use Rattle.nand_model.specs.Partitions.{command_device};
ghost use Rattle.command_model.specs.Command.{script_of};
ghost use Rattle.command_model.specs.Laws.{AsksOnly, TroublesAreFew};
ghost use Rattle.nand_model.specs.declared.geometry.Geometry.{Geometry};
ghost use Rattle.nand_model.specs.declared.words.Command.{Command};

/// Whatever the replies, a command asks for operations of the device that it names alone.
pub fn commands_ask_one_device()
    ensures { (g : Geometry) (command : Command) →
        AsksOnly (command_device command) (script_of g command) }
{}

/// At most one written page of each block of a nandwrite is answered program failed or bad block,
/// for every list of replies.
pub fn troubles_are_few()
    ensures { (g : Geometry) → TroublesAreFew g }
{}
