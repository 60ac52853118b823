//! What a run leaves on each honest drive that it sealed: the final map.
#![tactic(auto)]

ghost use Rattle.std.specs.Prelude.{◌≡◌, ◌≢◌, ◌++◌, ℕ, List, Some};
ghost use Rattle.bay_core.specs.declared.event.Event.{Event};
ghost use Rattle.bay_core.specs.Map.{Map};
ghost use Rattle.drive_journal.specs.declared.record.Rec.{Rec};
ghost use Rattle.recording.specs.Drives.{Copying};
ghost use Rattle.run_state.specs.declared.outcome.Outcome.TheVariants.{OutFailed};
ghost use Rattle.run_state.specs.Runs.{Point, Alone};
ghost use Rattle.run_state.specs.State.{Ordered, Found, Sealed, drive_at};
ghost use Rattle.run_steps.specs.Parts.{PartsReady};
ghost use Rattle.run_steps.specs.Steps.{IsFor};
ghost use Rattle.run_reads.specs.Parts.{Starts};
ghost use Rattle.run_final.specs.Final.{IsDatedSo, WasSealed};

use offload_law::steps_are_safe;
use run_state::{a_turn_calls_its_own, turns_alone, turns_keep_the_rules, turns_pass_over_drives};
use run_steps::{no_scratch_is_left, parts_stay_ready};

/// Each honest drive of a run that is sealed after turns with nothing between them, and was not found so, has its line `sealed`
/// among the calls since the run was made, unless a line was not said, whatever the other drives did. Before that line its list
/// was read back, with a record of each file; a record that was made in the run has the moment that was asked with the next call
/// after its file's copy. By these records, and by the moment that was asked for the list, the map of the drive is final, and nothing
/// is pending on it.
pub fn sealed_drives_are_final()
    ensures { (o : Ordered) (a b : Point) → Starts o a → PartsReady o a → (d : ℕ) (D : Copying) (attached card : Map) (past : List Event) → IsFor o d D attached card past a → Alone o a b
        → (L : List Event) → a.world.events ≡ Some past → b.world.events ≡ Some (past ++ L) → b.at.outcome ≢ OutFailed → drive_at b.at.drives.each d ≡ Sealed → ((recs : List Rec) → drive_at a.at.drives.each d ≢ Found recs)
        → WasSealed (IsDatedSo o) o a d D attached past L }
{
    steps_are_safe();
    a_turn_calls_its_own();
    turns_alone();
    turns_keep_the_rules();
    turns_pass_over_drives();
    parts_stay_ready();
    no_scratch_is_left();
}
