//! Folders of the system as cards and drives, and standard output.
//!
//! What a real folder holds is not known to a contract, so nothing is told here of contents and
//! calls: only that each failed call was counted for its device, and that no other count changed.
#![tactic(auto)]

mod folder;
mod host_bay;
mod host_drive;
#[cfg(test)]
mod link_tests;
mod open_folder;
#[cfg(test)]
mod tests;

pub use host_bay::HostBay;
