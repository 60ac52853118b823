//! How a run ends, and why: what shows that a drive was lost, what each outcome says, and that a run in which nothing fails ends well.
#![tactic(auto)]

mod laws;

pub use laws::{
    ends_have_causes, honest_drives_fail_alone, losses_have_causes, other_lengths_were_read,
    renames_find_their_files, sound_runs_are_complete, words_are_said,
};
