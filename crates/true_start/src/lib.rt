//! A run of an order that is true of its drives and of its card: what the laws of runs ask of a run as it is made holds of it, and
//! so does what they say of its ends and of the steps of its drives.
#![tactic(auto)]

mod laws;

pub use laws::{
    calls_before_the_turns, ends_of_true_orders, steps_of_true_orders, true_orders_start_ready,
    what_is_ready_is_known,
};
