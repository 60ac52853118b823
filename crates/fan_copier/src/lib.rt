//! One file from the card to several drives: each block is read once, digested, and written at each drive's own pace.
#![tactic(auto)]

mod blocks;
mod copy;
mod gather;
mod laws;
mod ring;
mod turn;
mod turning;

pub use copy::FileCopy;
pub use laws::{blocks_are_kept, copy_keeps_the_rest, copying_is_kept, slots_are_few};
pub use turn::Turn;
