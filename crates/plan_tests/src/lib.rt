//! Tests of plans' words, lines and texts, and of reports' lines.
#![tactic(auto)]

#[cfg(test)]
mod commands;
#[cfg(test)]
mod hostile;
#[cfg(test)]
mod plans;
#[cfg(test)]
mod printing;
#[cfg(test)]
mod reports;
#[cfg(test)]
mod words;
