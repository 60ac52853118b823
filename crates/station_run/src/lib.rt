//! A whole run of the station, from its words to its status, over any bay.
#![tactic(auto)]

mod printing;
mod promises;
mod run;

pub use run::{run_command, station};
