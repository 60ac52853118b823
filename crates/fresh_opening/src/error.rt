//! Why an offload is not begun.
ghost use Rattle.std.specs.Prelude.{◌≡◌};
ghost use Rattle.fresh_opening.specs.declared.error.FreshError.TheVariants.{Memory};
ghost use Rattle.fresh_opening.specs.Causes.{refusal_of_card, refusal_of_plan};

use card_inventory::InventoryError;
use copy_plan::PlanMakeError;
use path_text::PathText;
use std::alloc::{AllocError, AllocFailed};
use thiserror::Error;

/// Why an offload is not begun, in the order in which it is tested (docs/FORMATS.md, "The opening of an offload"). Drives
/// are their numbers in the order of the words, from 0.
#[derive(Debug, Drop, Error)]
pub enum FreshError {
    /// The card has no inventory, or could not be listed; the cause is never want of memory.
    #[error("the card has no inventory: {0}")]
    Inventory(InventoryError),
    /// The journal of drive `d` goes wrong at this byte, from 0.
    #[error("no journal on drive {d}: wrong at byte {at}")]
    NotAJournal { d: u32, at: u64 },
    /// Drive `d` has a journal.
    #[error("an offload was begun on drive {d}")]
    AlreadyBegun { d: u32 },
    /// A call failed on each drive, and all lines of that were said.
    #[error("no drive is left")]
    NoDrive,
    /// The name of the plan's list is the path of a file, or lies above it; the least such path.
    #[error("a path clashes with the name of the list")]
    Clash { list: PathText, path: PathText },
    /// Something on drive `d` stands in the way of this path of the plan, the first; the name of the list comes last.
    #[error("something on drive {d} stands in the way")]
    Occupied { d: u32, path: PathText },
    /// The line of a drive that was dropped was not said, and the count of the output rose.
    #[error("a line was not said")]
    OutFailed,
    /// It may come at any point.
    #[error("out of memory")]
    Memory,
}

impl From<InventoryError> for FreshError {
    ghost from_gives = { λ cause e. e ≡ refusal_of_card cause };

    fn from(cause: InventoryError) -> FreshError {
        match cause {
            InventoryError::Memory => FreshError::Memory,
            cause => FreshError::Inventory(cause),
        }
    }
}

impl From<PlanMakeError> for FreshError {
    ghost from_gives = { λ cause e. e ≡ refusal_of_plan cause };

    fn from(cause: PlanMakeError) -> FreshError {
        match cause {
            PlanMakeError::Clash { list, path } => FreshError::Clash { list, path },
            PlanMakeError::Memory => FreshError::Memory,
        }
    }
}

impl From<AllocError> for FreshError {
    ghost from_gives = { λ _ e. e ≡ Memory };

    fn from(_e: AllocError) -> FreshError {
        FreshError::Memory
    }
}

impl<T: Drop> From<AllocFailed<T>> for FreshError {
    ghost from_gives = { λ _ e. e ≡ Memory };

    fn from(_e: AllocFailed<T>) -> FreshError {
        FreshError::Memory
    }
}
