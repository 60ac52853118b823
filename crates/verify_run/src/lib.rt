//! Verifying the files of a drive against a list that lies on it.
#![tactic(auto)]

mod altered;
mod checking;
mod kinds;
mod loading;
mod reading;
mod saying;
mod verdict;
mod verifying;

pub use loading::{LoadError, load_list};
pub use verdict::{Outcome, Standing, Verdict, VerifyError};
pub use verifying::verify;
