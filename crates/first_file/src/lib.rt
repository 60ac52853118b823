//! The first file of an offload: a drive is attached, an offload is begun on it, and the first file of the plan is copied
//! and recorded. Wherever that stops, the drive is left with a prefix of the offload's steps that holds what was announced.
#![tactic(auto)]

mod aloud;
mod copying;
mod error;
mod first;

pub use aloud::{begin_aloud, record_aloud};
pub use copying::copy_file;
pub use error::FirstFileError;
pub use first::offload_first_file;
