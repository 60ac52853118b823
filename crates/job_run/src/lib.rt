//! The code of a job: a card is copied to drives, from the words to the status.
#![tactic(auto)]

mod attaching;
mod ending;
mod job;
mod refusing;
mod turning;

pub use job::{OffloadJob, run_offload};
