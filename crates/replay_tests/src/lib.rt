//! Tests of replays in which power is cut, or table blocks fail, at each page event in turn.
#![tactic(auto)]

#[cfg(test)]
mod cuts;
#[cfg(test)]
mod failures;
#[cfg(test)]
mod reports;
