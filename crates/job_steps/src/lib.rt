//! What a run of a job leaves on its drives wherever it stops, and when it calls its card clear.
#![tactic(auto)]

mod laws;

pub use laws::jobs_keep_to_the_steps;
