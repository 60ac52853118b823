//! What a run of a job reads of its card and of its drives: each file of the card once, and each copy and each list again before it counts.
#![tactic(auto)]

mod laws;

pub use laws::{read_back, read_once};
