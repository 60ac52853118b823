//! The inventory of a card.
ghost use Rattle.std.specs.Prelude.{◌≡◌, ◌<◌, Err};
ghost use Rattle.bay_core.specs.Looks.{IsUntouched};
ghost use Rattle.bay_core.specs.Map.{Map, AllDated};
ghost use Rattle.bay_core.specs.Replay.{Source};
ghost use Rattle.bay_core.specs.Went.{Went, Only};
ghost use Rattle.bay_core.specs.World.{Rose, Steady};
ghost use Rattle.card_inventory.specs.declared.error.InventoryError.TheVariants.{SourceFailed};
ghost use Rattle.card_inventory.specs.Card.{SteadyGives, CardGives};

use crate::{InventoryError, inventory_of};
use bay_core::{Bay, ListError};
use copy_plan::Inventory;
use std::alloc::Global;

/// Lists a card and takes the inventory of the listing, as [`inventory_of`] does. It is the one call that is made, and
/// it changes nothing.
pub fn inventory<B: Bay>(alloc: Global, bay: &mut B, s: u32) -> Result<Inventory, InventoryError>
    requires { s < (B.world bay.old).attached.sources }
    ensures answer { CardGives s result (B.world bay.old) (B.world bay.new) }
    // Nothing but the card is called, and nothing is changed, whatever the answer.
    ensures untouched { Went (Only (Source s)) IsUntouched (B.world bay.old) (B.world bay.new) }
    ensures cause { result ≡ Err SourceFailed → Rose ((B.world bay.old).faults (Source s)) ((B.world bay.new).faults (Source s)) }
    // The inventory of a steady card of which each file's date is known.
    ensures steady { (m : Map) → Steady (B.world bay.old) s m → AllDated m ((B.world bay.old).attached.card_dates s) → SteadyGives m ((B.world bay.old).attached.card_dates s) result }
{
    match bay.source_list(alloc, s) {
        Ok(files) => inventory_of(alloc, files),
        Err(ListError::Failed) => Err(InventoryError::SourceFailed),
        Err(ListError::Memory) => Err(InventoryError::Memory),
    }
}
