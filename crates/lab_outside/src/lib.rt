//! The outside of a run: sources of bytes and sinks of bytes, in memory and over std's readers and
//! writers, and the gates that sessions on threads pass.
#![tactic(auto)]

mod calls;
mod gate;
mod mem_sink;
mod mem_source;
mod outside;
mod reading;
mod std_sink;
mod std_source;
#[cfg(test)]
mod tests;
mod writing;

pub use gate::{Gate, HoldGate, OpenGate};
pub use mem_sink::MemSink;
pub use mem_source::MemSource;
pub use outside::{Failed, Sink, Source};
pub use reading::{ReadError, read_to_end};
pub use std_sink::StdSink;
pub use std_source::StdSource;
pub use writing::write_all;
