//! Definitions of plans as data: chips, partitions, boots and sessions.
#![tactic(auto)]
