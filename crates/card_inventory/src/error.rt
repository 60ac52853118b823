//! Why a card has no inventory.
ghost use Rattle.std.specs.Prelude.{◌≡◌};
ghost use Rattle.card_inventory.specs.declared.error.InventoryError.TheVariants.{Memory};
ghost use Rattle.card_inventory.specs.Listed.{refusal_by};

use copy_plan::BuildError;
use path_text::{PathError, PathText};
use std::alloc::{AllocError, AllocFailed};
use thiserror::Error;

/// Why a card or a listing has no inventory, in the order in which it is tested (docs/FORMATS.md, "Inventories").
#[derive(Debug, Drop, Error)]
pub enum InventoryError {
    /// The listing of the card failed, and the card's count rose.
    #[error("the card was not listed")]
    SourceFailed,
    #[error("no files")]
    EmptyCard,
    #[error("{count} files")]
    TooManyFiles { count: u64 },
    /// A file whose path is none. `index` is its place in the listing, from 0; the cause is never want of memory.
    #[error("no path at file {index}: {cause}")]
    BadPath { index: u64, cause: PathError },
    /// A file that was changed after the year 9999.
    #[error("a date after the year 9999")]
    BadDate { path: PathText },
    /// The bytes of all paths.
    #[error("paths of {sum} bytes")]
    TooManyBytes { sum: u64 },
    #[error("a control path")]
    Control { path: PathText },
    #[error("a file of 2^48 bytes or more")]
    TooBig { path: PathText },
    /// Two files with one path, or the first path is an ancestor of the second.
    #[error("two paths that clash")]
    Clash { first: PathText, second: PathText },
    /// It may come at any point.
    #[error("out of memory")]
    Memory,
}

impl From<BuildError> for InventoryError {
    ghost from_gives = { λ cause e. e ≡ refusal_by cause };

    fn from(cause: BuildError) -> InventoryError {
        match cause {
            BuildError::Empty => InventoryError::EmptyCard,
            BuildError::TooManyFiles { count } => InventoryError::TooManyFiles { count },
            BuildError::TooManyBytes { sum } => InventoryError::TooManyBytes { sum },
            BuildError::Control { path } => InventoryError::Control { path },
            BuildError::TooBig { path } => InventoryError::TooBig { path },
            BuildError::Clash { first, second } => InventoryError::Clash { first, second },
        }
    }
}

impl From<AllocError> for InventoryError {
    ghost from_gives = { λ _ e. e ≡ Memory };

    fn from(_e: AllocError) -> InventoryError {
        InventoryError::Memory
    }
}

impl<T: Drop> From<AllocFailed<T>> for InventoryError {
    ghost from_gives = { λ _ e. e ≡ Memory };

    fn from(_e: AllocFailed<T>) -> InventoryError {
        InventoryError::Memory
    }
}
