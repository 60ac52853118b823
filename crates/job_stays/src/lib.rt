//! What runs of a job that stop leave of a drive, over any number of them.
#![tactic(auto)]

mod laws;

pub use laws::{ours_after_stops, stays_ours};
