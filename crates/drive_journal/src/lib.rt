//! The journal of a drive: how far the drive has come in an offload, and the steps that change it, each whole at any
//! stop: files published, files placed with their record, gates opened, scratch files removed.
#![tactic(auto)]

mod gates;
mod journal;
mod laws;
mod looking;
mod order;
mod publishing;
mod record;
mod state;
#[cfg(test)]
mod tests;
mod tidying;

pub use gates::{open_gate, place};
pub use laws::{first_look, one_journal, short_journal};
pub use looking::{LookError, look};
pub use order::{DriveStart, Listed, Order};
pub use publishing::publish;
pub use record::{Gate, Rec};
pub use state::{Look, State};
pub use tidying::tidy;
