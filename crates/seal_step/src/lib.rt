//! Sealing a drive: the list of an offload is written in parts, read again, and gets its name.
#![tactic(auto)]

mod drafting;
mod error;
mod parts;
mod reading;
mod sealing;
#[cfg(test)]
mod tests;

pub use error::SealError;
pub use sealing::seal;
