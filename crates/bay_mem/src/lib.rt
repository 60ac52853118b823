//! Cards and drives in memory, by the calls that were made on them.
#![tactic(auto)]

mod changes;
mod failures;
mod faults;
mod images;
mod lies;
mod looks;
mod mem_bay;
mod mem_map;
mod mem_world;
mod places;

pub use mem_bay::MemBay;
pub use mem_map::MemMap;
