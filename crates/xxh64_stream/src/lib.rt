//! XXH64, the 64-bit hash of xxHash, of a list of bytes that comes in pieces.
#![tactic(auto)]

mod hasher;
mod rest;
mod stripe;
#[cfg(test)]
mod tests;

pub use hasher::Xxh64;
