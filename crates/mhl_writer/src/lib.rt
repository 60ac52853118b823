//! Hash lists as values, and their one canonical text, whole or part by part.
#![tactic(auto)]

mod lines;
mod note;
mod parts;
mod values;
mod writing;

pub use note::NoteText;
pub use parts::{EntryPart, HeadPart, part_entry, part_head, part_tail};
pub use values::{Creator, HashEntry, HashList};
pub use writing::write_list;

#[cfg(test)]
mod tests;
