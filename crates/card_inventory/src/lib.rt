//! The inventory of a card, from its listing.
#![tactic(auto)]

mod card;
mod error;
mod laws;
mod listing;

pub use card::inventory;
pub use error::InventoryError;
pub use laws::{one_answer, one_inventory};
pub use listing::inventory_of;
