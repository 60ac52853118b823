// What words ask for.
use path_text::{Kinds, Label, PathText};
use thiserror::Error;

/// What the words ask for. The folder words are taken from the words, at the places of their row.
#[derive(Debug, Drop)]
pub enum Command {
    /// `offload NAME USER@HOST COPIES[:KINDS] CARD DRIVE..`: the card is copied to so many drives, and called clear where so
    /// many are sealed as COPIES says; the lists on the drives show digests of these kinds.
    Offload {
        name: Label,
        user: Label,
        host: Label,
        copies: u32,
        kinds: Kinds,
        drives: u32,
    },
    /// `verify LIST DRIVE`: the drive's files against the list at a path of one part on it.
    Verify {
        list: PathText,
    },
    /// `print LIST DRIVE`: the table of the list at a path of one part on the drive.
    Print {
        list: PathText,
    },
}

/// Why words are no command.
#[derive(Clone, Copy, Debug, PartialEq, Eq, Error)]
pub enum WordsError {
    /// The words fit no row (docs/FORMATS.md, "Words").
    #[error("the words fit no command")]
    Words,
    #[error("out of memory")]
    Memory,
}
