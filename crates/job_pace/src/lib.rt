//! That all copies of a run of a job go at the pace of the window.
#![tactic(auto)]

mod laws;

pub use laws::follows_windows;
