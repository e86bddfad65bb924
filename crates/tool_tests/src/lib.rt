//! Tests of commands and of sessions of commands, reply by reply.
#![tactic(auto)]

#[cfg(test)]
mod commands;
#[cfg(test)]
mod nandtest;
#[cfg(test)]
mod sessions;
#[cfg(test)]
mod told;
#[cfg(test)]
mod tools;
