//! That all copies of a run go at the pace of the window.
#![tactic(auto)]

mod laws;

pub use laws::copies_go_at_the_pace;
