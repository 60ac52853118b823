//! What an offload copies: the files of an inventory, a plan over them, and the bytes of a plan.
#![tactic(auto)]

mod ancestors;
#[cfg(test)]
mod code_tests;
mod decoding;
mod encoding;
mod fields;
mod file;
mod inventory;
mod laws;
mod plan;

pub use decoding::{Decoded, PlanError, decode};
pub use encoding::{encode, encoded_len};
pub use fields::{eight_bytes, four_bytes, moment};
pub use file::PlannedFile;
pub use inventory::{BuildError, Inventory, MOST_FILES};
pub use laws::{one_plan, short_code};
pub use plan::{Plan, PlanMakeError};
