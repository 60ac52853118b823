//! The files of a device's listing by path, with a mark on those that a list names.
#![tactic(auto)]

mod folder;
#[cfg(test)]
mod tests;

pub use folder::Folder;
