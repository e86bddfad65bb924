//! Definitions of what a chip goes through in a boot: its attach, its operations and the page
//! events of each.
#![tactic(auto)]
