//! Which calls the turns of a run make, that none follows a failure, and that each rename finds its file.
#![tactic(auto)]

mod laws;

pub use laws::{
    a_run_knows_what_it_does, calls_are_its_own, none_after_failure, renames_find_their_files,
    runs_that_keep_no_part_are_ready,
};
