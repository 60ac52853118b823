//! One region, taken at the start and cut into blocks that are lent as slots.
#![tactic(auto)]

mod pool;
mod slot;
#[cfg(test)]
mod tests;

pub use pool::{BLOCK_BYTES, Pool};
pub use slot::Slot;
