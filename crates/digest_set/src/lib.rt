//! Digests that are fed in pieces, three of them side by side, and hexadecimal digits.
#![tactic(auto)]

mod digest;
mod fan;
mod hexadecimal;
mod runs;
#[cfg(test)]
mod tests;
mod triple;

pub use digest::Digest;
pub use fan::Fan;
pub use hexadecimal::{hex_into, unhex_into};
pub use runs::{Md5Run, NoRun, Sha1Run, XxhRun};
pub use triple::{Triple, triple_of};
