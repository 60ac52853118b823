//! What on a drive stands in the way of an offload: the first planned path that is occupied.
#![tactic(auto)]

mod occupied;
#[cfg(test)]
mod tests;

pub use occupied::first_occupied;
