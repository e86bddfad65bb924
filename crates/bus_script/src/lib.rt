//! Scripts of bus cycles: they are read, run at a new chip, and what they come to is printed.
#![tactic(auto)]

mod chip;
mod cycles;
mod error;
mod laws;
mod reader;
mod script;
mod text;
mod whole;

pub use cycles::{BusRun, run_cycles};
pub use error::{CycleError, ScriptError};
pub use laws::scripts_have_one_answer;
pub use reader::read_script;
pub use script::{Script, ScriptLines};
pub use text::illegal_text;
pub use whole::run_script;
