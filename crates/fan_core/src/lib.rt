//! The window machine: which of a file's blocks is read or written next, over the drives.
#![tactic(auto)]

mod act;
mod counts;
mod drives;
#[cfg(test)]
mod tests;
mod window;

pub use act::Act;
pub use counts::Counts;
pub use drives::Drives;
pub use window::Window;
