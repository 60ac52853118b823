//! Texts of the station: paths, moments, and the scratch that lines are made in.
#![tactic(auto)]

mod kinds;
mod label;
mod laws;
mod moment;
mod naming;
mod parts;
mod path;
mod places;
mod scratch;

pub use kinds::Kinds;
pub use label::{Label, NameError};
pub use laws::list_name_is_path;
pub use moment::Moment;
pub use naming::list_name;
pub use parts::{ancestor_of, has_one_part};
pub use path::{PathError, PathText, is_control, is_control_name};
pub use places::is_clean;
pub use scratch::Scratch;
