//! Why a run of a job drops a drive; and that it is complete where nothing fails.
#![tactic(auto)]

mod laws;

pub use laws::{drops_have_causes, sound_jobs_complete};
