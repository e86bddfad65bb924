//! Definitions of what a report says of a run of a plan: the headline.
#![tactic(auto)]
