// A law of the runs of jobs: the contract of a function that does nothing else.
ghost use Rattle.std.specs.Prelude.{◌≡◌, ◌++◌, ℕ, List, Some};
ghost use Rattle.bay_core.specs.declared.event.Event.{Event};
ghost use Rattle.bay_core.specs.World.{World};
ghost use Rattle.command_words.specs.Jobs.{Job};
ghost use Rattle.job_story.specs.Ends.{JobEnd};
ghost use Rattle.job_story.specs.Run.{run_with};
ghost use Rattle.job_story.specs.Story.{Story};
ghost use Rattle.job_steps.specs.Prefix.{CrashPrefix, CallsClear};

use offload_law::announced_steps;
use run_lines::{clears_rightly, lines_in_order};
use run_state::{turns_alone, turns_pass_over_drives};
use true_start::{calls_before_the_turns, steps_of_true_orders, true_orders_start_ready};

/// Whatever the words, the card and the calls that fail, wherever a run of a job stops, within a write too, each honest drive that
/// was ours as it was attached is left with a prefix of the steps of an offload of the card. It has every step that was announced
/// for it, and at most one more; the rest is as it was; and the plan is the run's, or that of the journal which the drive had. So
/// it is where the run was refused, where the drive was dropped, and where the run never came to it.
///
/// The run calls its card clear only behind the lines `sealed` of just so many of its drives as its line says, which are no fewer
/// than the words require. Each of these that is honest and was ours as it was attached is after all steps in each map that a stop
/// from then on may leave of it, whichever are left of the others.
///
/// No drive was attached before. Earlier calls of the bay announce nothing, and a line `clear` among them is none of the run's.
pub fn jobs_keep_to_the_steps()
    ensures prefix { (job : Job) (end : JobEnd) (result : ℕ) (old new : World) → Story job end result old new → old.attached.drives ≡ 0
        → (past since : List Event) → old.events ≡ Some past → new.events ≡ Some (past ++ since) → CrashPrefix (run_with job old new since) }
    ensures clear { (job : Job) (end : JobEnd) (result : ℕ) (old new : World) → Story job end result old new → old.attached.drives ≡ 0
        → (past since : List Event) → old.events ≡ Some past → new.events ≡ Some (past ++ since) → CallsClear (run_with job old new since) }
{
    announced_steps();
    turns_alone();
    turns_pass_over_drives();
    calls_before_the_turns();
    steps_of_true_orders();
    true_orders_start_ready();
    clears_rightly();
    lines_in_order();
}
