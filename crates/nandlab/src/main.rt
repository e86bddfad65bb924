//! nandlab: checks and replays plans over simulated NAND chips, runs scripts of bus cycles, and
//! encodes and decodes steps of 1024 bytes.
#![tactic(auto)]

mod answer;
mod exit;
#[cfg(test)]
mod failing;
mod refusal;
mod request;
mod status;
#[cfg(test)]
mod tests;
mod top;
mod words;

pub use exit::exit_status;
use lab_outside::{StdSink, StdSource};
pub use request::Request;
pub use status::{Status, code};
use std::process::ExitCode;
use std::{env, io};
pub use top::serial_top;

fn main(rt: HostRuntime) -> ExitCode {
    let (mut source, mut sink) = (StdSource::new(rt.reader()), StdSink::new(io::writer(&rt)));
    ExitCode::from(exit_status(rt.alloc(), env::args(&rt), &mut source, &mut sink))
}
