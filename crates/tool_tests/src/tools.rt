// The calls of a tool without what their contracts say, which the tests do not need.
ghost use Rattle.command_model.specs.Runnable.{Fits};

use nand_model::{Command, Geometry, Outcome, Reply};
use std::alloc::{AllocError, Global};
use tool_steps::{Step, Tool};

/// The tool of a command.
pub fn start(alloc: Global, command: &Command, g: &Geometry) -> Result<Tool, AllocError>
    requires { Fits g.now command.now }
{
    Tool::start(alloc, command, g)
}

/// The next step, and whether the tool tells beforehand that it ends there.
pub fn next(tool: &mut Tool, last: Option<&Reply>) -> Result<(Step, bool), AllocError> {
    let ends = tool.ends(last);
    Ok((tool.next(last)?, ends))
}

/// The outcome of a command that is over.
pub fn outcome(tool: Tool) -> Option<Outcome> {
    if tool.ends(None) {
        Some(tool.finish())
    } else {
        None
    }
}
