//! Laws of whole runs of a controller: every interleaving of its sessions is a history of one
//! thread.
#![tactic(auto)]

mod laws;

pub use laws::{
    attach_steps_are_events, chips_stand_alone, courses_go_on, every_interleaving, every_run,
    replays_end_alike, turns_are_steps,
};
