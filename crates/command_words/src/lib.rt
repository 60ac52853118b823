//! The words of a command line, and the command that they are.
#![tactic(auto)]

mod command;
mod folders;
mod offload;
mod rows;
#[cfg(test)]
mod tests;
mod words;

pub use command::{Command, WordsError};
pub use rows::read_words;
pub use words::WordList;
