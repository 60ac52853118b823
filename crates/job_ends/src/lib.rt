//! How a run of a job ends: its lines in their order, its status, and the cause of its end.
#![tactic(auto)]

mod laws;

pub use laws::{
    all_sealed_only_at_zero, counts_show_the_end, ends_give_lines_and_causes,
    lines_not_said_are_five,
};
