//! Which calls a run of a job makes: on its own devices alone, with its folders attached first and in the order of its words, none
//! after a failure, and none that must fail.
#![tactic(auto)]

mod laws;

pub use laws::{
    no_call_follows_a_failure, no_call_must_fail, runs_attach_their_folders, runs_call_their_own,
};
