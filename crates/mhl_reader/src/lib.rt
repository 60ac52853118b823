//! The reader of hash lists: what a document means, or its first fault (docs/FORMATS.md, "Reading a list").
#![tactic(auto)]

mod entries;
mod error;
mod found;
mod laws;
mod reader;
mod reading;
mod values;

pub use error::ReadError;
pub use laws::reading_is_exact;
pub use reading::read_list;

#[cfg(test)]
mod tests;
