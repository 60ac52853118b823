//! That a run of a job is refused exactly rightly.
#![tactic(auto)]

mod laws;

pub use laws::{one_first_refusal, refusals_are_by_the_maps, refusals_are_seen};
