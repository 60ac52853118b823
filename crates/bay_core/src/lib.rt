//! The outside of the station: cards, drives, output, clock and picker, by the calls that were made on them.
#![tactic(auto)]

mod bay;
mod event;
mod failed;
mod laws;
mod texts;

pub use bay::Bay;
pub use event::{DriveGot, Event, FileInfo, Listing};
pub use failed::{DriveFailed, Failed, ListError};
pub use laws::{
    left_by_its_calls, left_in_turn, left_within, prefix_of_prefix, read_is_left,
    settled_after_sync, settled_when_attached, untouched_stays,
};
pub use texts::{Bytes, NameText};
