// Laws on the end of a run, and on what it loses on the way. Each is the contract of a function that does nothing else.
ghost use Rattle.std.specs.Prelude.{◌≡◌, ◌++◌, ℕ, List, true, Some};
ghost use Rattle.bay_core.specs.declared.event.Event.{Event};
ghost use Rattle.bay_core.specs.Map.{Map};
ghost use Rattle.bay_core.specs.World.{Honest};
ghost use Rattle.run_state.specs.declared.outcome.Outcome.TheVariants.{Changed};
ghost use Rattle.run_state.specs.Rules.{IsStart};
ghost use Rattle.run_state.specs.Runs.{Point, Runs};
ghost use Rattle.run_state.specs.State.{Ordered, is_of_run};
ghost use Rattle.run_ends.specs.Ends.{EndsRightly, GaveOtherLength, SaysRightly};
ghost use Rattle.run_ends.specs.Known.{IsKnownOnward, KnowsReadsOnward};
ghost use Rattle.run_ends.specs.Losses.{LosesByFaults, LosesRightly};
ghost use Rattle.run_ends.specs.Renames.{RenamesWhatIsThere};
ghost use Rattle.run_ends.specs.Whole.{AreSound, IsComplete, NoneRose};

use run_state::turns_keep_the_rules;

/// Each line `dropped` of a drive of a run has its cause before it, over drives that lie too. By a fault a drive is lost only where
/// its count rose since the run was made, and otherwise only where what was read back of it was not there, had another length,
/// other digests or another byte, as the line says.
pub fn losses_have_causes()
    ensures { (o : Ordered) (a b : Point) → IsStart o a.at → Runs o a b → (past L : List Event) → a.world.events ≡ Some past → b.world.events ≡ Some (past ++ L) → LosesRightly o a b L }
{
    turns_keep_the_rules();
}

/// An honest drive of a run is lost by a fault alone, whatever the others do.
pub fn honest_drives_fail_alone()
    ensures { (o : Ordered) (a b : Point) → IsStart o a.at → IsKnownOnward o a → Runs o a b → (past L : List Event) → a.world.events ≡ Some past → b.world.events ≡ Some (past ++ L) → LosesByFaults a L }
{
    turns_keep_the_rules();
}

/// Each outcome of a run has its cause, over every bay.
pub fn ends_have_causes()
    ensures { (o : Ordered) (a b : Point) → IsStart o a.at → Runs o a b → EndsRightly o a b }
{
    turns_keep_the_rules();
}

/// A line about a drive of a run that was not said ends the run, and a run that finished called the card clear where it was to.
pub fn words_are_said()
    ensures { (o : Ordered) (a b : Point) → IsStart o a.at → Runs o a b → (past L : List Event) → a.world.events ≡ Some past → b.world.events ≡ Some (past ++ L) → SaysRightly o a b L }
{
    turns_keep_the_rules();
}

/// A run ends by another length of a file only where the card's reads of that file gave that length.
pub fn other_lengths_were_read()
    ensures { (o : Ordered) (a b : Point) → IsStart o a.at → KnowsReadsOnward o a → Runs o a b → (i listed read : ℕ) → b.at.outcome ≡ Changed i listed read
        → (past L : List Event) → a.world.events ≡ Some past → b.world.events ≡ Some (past ++ L) → GaveOtherLength o i listed read L }
{
    turns_keep_the_rules();
}

/// A run with a steady card and honest drives, of which no count rises, loses no drive; and once it has ended, it has finished,
/// and each of its drives is sealed.
pub fn sound_runs_are_complete()
    ensures { (o : Ordered) (a b : Point) (card : Map) → IsStart o a.at → IsKnownOnward o a → AreSound o a card → Runs o a b → NoneRose a.world b.world → (all : List Event) → b.world.events ≡ Some all → IsComplete a b }
{
    turns_keep_the_rules();
}

/// Each rename of a run on an honest drive of it names a file that the drive has then: no run makes a drive's count rise by itself.
pub fn renames_find_their_files()
    ensures { (o : Ordered) (a b : Point) → IsStart o a.at → IsKnownOnward o a → Runs o a b → (d : ℕ) (start : Map) (past L : List Event) → is_of_run a.at.drives d ≡ true → Honest a.world d start past
        → b.world.events ≡ Some (past ++ L) → RenamesWhatIsThere d start past L }
{
    turns_keep_the_rules();
}
