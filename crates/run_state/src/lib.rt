//! Where a run of an offload stands between two turns, and what one turn may do. The code of a run and the laws of runs both
//! stand on this.
#![tactic(auto)]

mod drive;
mod laws;
mod outcome;
mod phase;

pub use drive::DriveRun;
pub use laws::{
    a_turn_calls_its_own, a_turn_is_left_until_the_end, another_turn_is_beside,
    starts_within_the_bound, turns_alone, turns_keep_the_rules, turns_pass_over_drives,
};
pub use outcome::{Outcome, RunTurn};
pub use phase::Phase;
