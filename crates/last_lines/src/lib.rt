//! Lines that are said one after another, as far as they can be, and the end of a run by them.
#![tactic(auto)]

mod ending;
mod saying;
#[cfg(test)]
mod tests;

pub use ending::{end, end_two, say_memory};
pub use saying::{say, say_lines};
