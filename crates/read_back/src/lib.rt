//! Reading a copy on a drive again.
#![tactic(auto)]

mod back;
mod pieces;

pub use back::{ReadBackError, read_back};
