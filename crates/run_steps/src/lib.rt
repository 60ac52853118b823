//! The steps of an offload over any number of turns of a run: wherever they stop, each honest drive is left with a prefix of the
//! steps of its offload that holds what was announced for it, whatever the other drives do.
#![tactic(auto)]

ghost use Rattle.std.specs.Prelude.{◌≡◌, ℕ, false, List};
ghost use Rattle.bay_core.specs.declared.event.Event.{Event};
ghost use Rattle.bay_core.specs.Map.{Map};
ghost use Rattle.offload_law.specs.Lines.{announces};
ghost use Rattle.recording.specs.Drives.{Copying};
ghost use Rattle.run_state.specs.Rules.{IsRun};
ghost use Rattle.run_state.specs.Runs.{Point, Runs, is_about};
ghost use Rattle.run_state.specs.State.{Ordered};
ghost use Rattle.run_steps.specs.Parts.{PartsReady, AreClean};
ghost use Rattle.run_steps.specs.Steps.{IsFor, KeepsToTheSteps};

use recording::keeping_is_safe;
use run_state::turns_keep_the_rules;

/// Any number of turns leave the scratch files of every honest drive that was begun and is not sealed as the next turn asks for
/// them: what a copy was given lies in the parts of its drives, a file that came whole is in the part until it is recorded,
/// between two files there is no part but one that is kept for the next, and no file waits for its name. Of fresh drives, and
/// once the last drive is sealed, it says nothing.
pub fn parts_stay_ready()
    ensures { (o : Ordered) (a b : Point) → IsRun o a.at → PartsReady o a → Runs o a b → PartsReady o b }
{
    turns_keep_the_rules();
}

/// Where drives are sealed, an honest drive that was begun and is not sealed has no scratch file, also where it kept a part.
pub fn no_scratch_is_left()
    ensures { (o : Ordered) (a b : Point) → IsRun o a.at → PartsReady o a → Runs o a b → AreClean b }
{
    turns_keep_the_rules();
    parts_stay_ready();
}

/// A line that is about another drive, or about none, announces nothing for this one. So the turns that pass over a drive that is
/// gone announce nothing for it (`run_state::turns_pass_over_drives`).
pub fn lines_about_others_announce_nothing()
    ensures { (d n : ℕ) (line : List ℕ) → is_about d line ≡ false → announces d n line ≡ 0 }
{}

/// Any number of turns of a run, and what others do between them, keep each honest drive of the run to the steps of its offload,
/// whatever the other drives do. So it is where the rules of the run hold, the scratch files of its honest drives are as the
/// next turn asks for them, and the offload goes by the run's plan, from the map that the drive had at a moment of rest, with
/// the records that the run has of the drive, and from a steady card. Where the run goes on, or ended otherwise than by a line
/// that was not said, the records that it has of the drive are on the drive, and announced, but for a drive that was found
/// sealed.
pub fn turns_keep_to_the_steps()
    ensures { (o : Ordered) (a b : Point) → IsRun o a.at → PartsReady o a → (d : ℕ) (D : Copying) (attached card : Map) (past : List Event) → IsFor o d D attached card past a → Runs o a b → KeepsToTheSteps d D attached past b }
{
    turns_keep_the_rules();
    parts_stay_ready();
    keeping_is_safe();
}
