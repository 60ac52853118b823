//! The opening of an offload: its drives are looked at and its plan is made, and it may begin; or why it may not.
#![tactic(auto)]

mod error;
mod laws;
mod looking;
mod opening;
mod planning;
mod starting;

pub use error::FreshError;
pub use laws::one_refusal;
pub use opening::{open_fresh, open_plan};
