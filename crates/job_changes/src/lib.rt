//! Which paths of its drives a run of a job changes.
#![tactic(auto)]

mod laws;

pub use laws::runs_change_their_own;
