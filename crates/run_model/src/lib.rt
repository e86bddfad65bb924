//! Definitions of whole runs: commands, the course of a controller in a boot, one-thread histories,
//! marks and what is read back.
#![tactic(auto)]
