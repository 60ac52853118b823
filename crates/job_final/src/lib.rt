//! What a run of a job leaves on each honest drive whose count did not rise: the final map, by whose list the drive verifies.
#![tactic(auto)]

mod laws;

pub use laws::{drives_end_final, final_lists_verify};
