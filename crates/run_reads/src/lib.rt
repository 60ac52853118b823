//! What the turns of a run read of its card and of its drives: each planned file once, and each copy again before it counts.
#![tactic(auto)]

mod laws;

pub use laws::{dones_are_dated, lines_are_read_back, parts_stand, reads_its_files, reads_once};
