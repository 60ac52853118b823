// Laws of inventories. Each is the contract of a function that does nothing.
ghost use Rattle.std.specs.Prelude.{◌≡◌, ◌≢◌, ◌↔◌, List, Result, Err};
ghost use Rattle.bay_core.specs.declared.event.FileInfo.{FileInfo};
ghost use Rattle.bay_core.specs.Map.{Map, Dates, Lists, AllDated};
ghost use Rattle.copy_plan.specs.declared.file.PlannedFile.{PlannedFile};
ghost use Rattle.card_inventory.specs.declared.error.InventoryError.{InventoryError};
ghost use Rattle.card_inventory.specs.declared.error.InventoryError.TheVariants.{Memory};
ghost use Rattle.card_inventory.specs.Listed.{IsInventoryOf, ListingGives};
ghost use Rattle.card_inventory.specs.Card.{IsInventoryOfCard};

/// A listing has one answer, but for want of memory: its inventory, or its first refusal.
pub fn one_answer()
    ensures { (listed : List FileInfo) (a b : Result (List PlannedFile) InventoryError) → ListingGives listed a → ListingGives listed b → a ≢ Err Memory → b ≢ Err Memory → a ≡ b }
{}

/// A card of which each file's date is known has one inventory at most, and it is that of each listing of the card.
pub fn one_inventory()
    ensures listing { (m : Map) (dates : Dates) (listed : List FileInfo) (files : List PlannedFile) → Lists m dates listed → AllDated m dates → (IsInventoryOf listed files ↔ IsInventoryOfCard m dates files) }
    ensures one { (m : Map) (dates : Dates) (a b : List PlannedFile) → IsInventoryOfCard m dates a → IsInventoryOfCard m dates b → a ≡ b }
{}
