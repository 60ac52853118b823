// Laws on the calls of a run, over any number of its turns. Each is the contract of a function that does nothing.
ghost use Rattle.std.specs.Prelude.{◌≡◌, ◌++◌, ℕ, List, Some, true};
ghost use Rattle.bay_core.specs.declared.event.Event.{Event};
ghost use Rattle.bay_core.specs.Map.{Map};
ghost use Rattle.bay_core.specs.Went.{Went};
ghost use Rattle.bay_core.specs.World.{Honest};
ghost use Rattle.run_state.specs.Calls.{IsOfRun};
ghost use Rattle.run_state.specs.Rules.{IsRun, IsStart};
ghost use Rattle.run_state.specs.Runs.{Point, Alone, Runs};
ghost use Rattle.run_state.specs.State.{Ordered, is_of_run};
ghost use Rattle.run_steps.specs.Parts.{PartsReady};
ghost use Rattle.run_ends.specs.Known.{IsKnownOnward, KnowsReadsOnward};
ghost use Rattle.run_ends.specs.Renames.{RenamesWhatIsThere};
ghost use Rattle.run_calls.specs.Failures.{NoneAfterFailure, NoneAfterLoss};
ghost use Rattle.run_calls.specs.Own.{NoListing};
ghost use Rattle.run_calls.specs.Ready.{KeepNoParts};

use run_state::{a_turn_calls_its_own, turns_alone, turns_keep_the_rules};
use run_steps::parts_stay_ready;

/// Turns with nothing between them call the run's card, its drives that are to be begun or were begun and are not sealed as the
/// turns begin, the output, the clock and the picker alone. They attach nothing, and list no card and no drive.
pub fn calls_are_its_own()
    ensures { (o : Ordered) (a b : Point) → IsRun o a.at → Alone o a b → Went (IsOfRun o a.at.drives) NoListing a.world b.world }
{
    turns_keep_the_rules();
    turns_alone();
    a_turn_calls_its_own();
}

/// Behind a call on a drive that failed comes the line of its loss, and no call on that drive; behind a read of the card that
/// failed, and behind a line that was not said, comes no call at all, and the run has ended by it; and behind a line `dropped` no
/// call is made on that drive. So it is over drives that lie too. Where others do something between the turns, it is so of
/// each drive of the run.
pub fn none_after_failure()
    ensures alone { (o : Ordered) (a b : Point) → IsRun o a.at → PartsReady o a → Alone o a b → (past L : List Event) → a.world.events ≡ Some past → b.world.events ≡ Some (past ++ L) → NoneAfterFailure b.at L }
    ensures beside { (o : Ordered) (a b : Point) → IsStart o a.at → PartsReady o a → Runs o a b → (d : ℕ) → is_of_run a.at.drives d ≡ true
        → (past L : List Event) → a.world.events ≡ Some past → b.world.events ≡ Some (past ++ L) → NoneAfterLoss d b.at L }
{
    turns_keep_the_rules();
    turns_alone();
    a_turn_calls_its_own();
    parts_stay_ready();
}

/// A run whose scratch files are as its next turn asks for them knows at each later point what it copied, records and seals
/// next; and from its begin on a copy knows the bytes that the card's reads of its file gave. So what `run_ends` says of runs
/// that know this holds of each that began so.
pub fn a_run_knows_what_it_does()
    ensures parts { (o : Ordered) (a : Point) → IsRun o a.at → PartsReady o a → IsKnownOnward o a }
    ensures reads { (o : Ordered) (a : Point) → IsStart o a.at → PartsReady o a → KnowsReadsOnward o a }
{
    turns_keep_the_rules();
    parts_stay_ready();
}

/// The scratch files of a run as it is made, of which no drive keeps a part, are as its first turn asks for them, whatever lies
/// on the drives.
pub fn runs_that_keep_no_part_are_ready()
    ensures { (o : Ordered) (a : Point) → IsStart o a.at → KeepNoParts a → PartsReady o a }
{}

/// Each rename of a run on an honest drive of it names a file that the drive has then, where each part that an honest drive
/// keeps as the run is made is there, and no longer than the next file. What the run wrote itself needs no premise.
pub fn renames_find_their_files()
    ensures { (o : Ordered) (a b : Point) → IsStart o a.at → PartsReady o a → Runs o a b → (d : ℕ) (start : Map) (past L : List Event) → is_of_run a.at.drives d ≡ true → Honest a.world d start past
        → b.world.events ≡ Some (past ++ L) → RenamesWhatIsThere d start past L }
{
    turns_keep_the_rules();
    parts_stay_ready();
    run_ends::renames_find_their_files();
}
