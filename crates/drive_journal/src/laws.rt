// Laws of journals. Each is the contract of a function that does nothing.
ghost use Rattle.std.specs.Prelude.{◌≡◌, ℕ, ◌+◌, ◌<◌, ◌≤◌, List, [], ◌++◌, length, Some};
ghost use Rattle.bay_core.specs.declared.event.Event.{Event};
ghost use Rattle.bay_core.specs.declared.event.FileInfo.{FileInfo};
ghost use Rattle.bay_core.specs.Replay.{calls_on};
ghost use Rattle.bay_core.specs.World.{World};
ghost use Rattle.copy_plan.specs.Inventory.{most_files};
ghost use Rattle.copy_plan.specs.Plan.{PlanValue, IsPlan};
ghost use Rattle.drive_journal.specs.declared.record.Rec.{Rec};
ghost use Rattle.drive_journal.specs.Found.{JournalFound, Seen, IsLookedAt};
ghost use Rattle.drive_journal.specs.Journal.{AreRecords, journal_code, HoldsJournal, JournalFault};
ghost use Rattle.drive_journal.specs.Look.{longest_journal, next_gate};

/// Bytes hold one journal at most, and those that hold one have no fault.
pub fn one_journal()
    ensures one { (bytes : List ℕ) (p q : PlanValue) (recs others : List Rec) → HoldsJournal bytes p recs → HoldsJournal bytes q others → (p ≡ q) × (recs ≡ others) }
    ensures no_fault { (bytes : List ℕ) (p : PlanValue) (recs : List Rec) (at : ℕ) → HoldsJournal bytes p recs → JournalFault bytes at → ⊥ }
{}

/// The gate of the next record stands right behind the records, and a journal has at most 55,313,627 bytes with it. So
/// every gate that a plan's journal comes to may be handed to `place` and `open_gate`.
pub fn short_journal()
    ensures gate { (p : PlanValue) (recs : List Rec) → AreRecords 0 p.files recs → length (journal_code p recs) ≡ (next_gate p (length recs)).at }
    ensures bytes { (p : PlanValue) (recs : List Rec) → IsPlan p → AreRecords 0 p.files recs → length (journal_code p recs) + 1 ≤ longest_journal }
    ensures at { (p : PlanValue) (k : ℕ) → IsPlan p → k ≤ length p.files → (next_gate p k).at < longest_journal }
    ensures index { (p : PlanValue) (k : ℕ) → IsPlan p → k < length p.files → (next_gate p k).index < most_files }
{}

/// A drive on which no call was made before a look is found as the look saw it, whatever comes behind.
pub fn first_look()
    ensures { (d : ℕ) (files : List FileInfo) (found : JournalFound) (old new : World) (before all more : List Event) → Seen d files found old new → old.events ≡ Some before → new.events ≡ Some all → calls_on d before ≡ [] → IsLookedAt d (all ++ more) files found }
{}
