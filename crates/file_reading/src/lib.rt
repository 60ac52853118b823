//! A file of a drive, read piece by piece or whole.
#![tactic(auto)]

mod listed;
mod piece;
mod whole;

pub use listed::{Content, ListReadError, ListedFile, list_and_read, listed_size};
pub use piece::read_piece;
pub use whole::{ReadWholeError, read_whole};
