//! The files of a plan.

use path_text::{Moment, PathText};

/// A file that a plan names: its path below the folder of the card, its size in bytes, and when it was changed last.
#[derive(Debug, Drop)]
pub struct PlannedFile {
    pub path: PathText,
    pub size: u64,
    pub modified: Moment,
}
