// Laws on the ends of runs of jobs. Each is the contract of a function that does nothing else.
ghost use Rattle.std.specs.Prelude.{◌≡◌, ◌≤◌, ℕ, List, length};
ghost use Rattle.bay_core.specs.declared.event.Event.{Event};
ghost use Rattle.bay_core.specs.World.{World};
ghost use Rattle.command_words.specs.Jobs.{Job};
ghost use Rattle.job_story.specs.Ends.{JobEnd};
ghost use Rattle.job_story.specs.Run.{Run, run_with};
ghost use Rattle.job_story.specs.Story.{Story};
ghost use Rattle.job_calls.specs.Told.{RanTold};
ghost use Rattle.job_ends.specs.Counts.{EndCounts};
ghost use Rattle.job_ends.specs.Ends.{EndGives, ZeroWhere, FiveWhere};

use offload_law::announced_steps;
use run_calls::{
    a_run_knows_what_it_does, calls_are_its_own, none_after_failure,
    runs_that_keep_no_part_are_ready,
};
use run_ends::{ends_have_causes, other_lengths_were_read};
use run_lines::{lines_in_order, one_line_each};
use run_state::{turns_alone, turns_keep_the_rules};

/// What the counts and the numbers of devices show of the end of a run, also over a bay that tells no calls. The status is that of
/// the end; or 5, where the end has a line and the output's count rose. An end by a fault, of an attach, the card or the output, is
/// only where that count rose in the run, and one by the length of a file names two lengths that differ. A run that could not
/// attach a folder has attached just the folders before it; any other has all.
///
/// Nothing was attached before the run.
pub fn counts_show_the_end()
    ensures { (run : Run) (end : JobEnd) (result : ℕ) → Story run.job end result run.before run.after → run.before.attached.sources ≡ 0 → run.before.attached.drives ≡ 0 → EndCounts run end result }
{
    turns_keep_the_rules();
    turns_alone();
    calls_are_its_own();
    ends_have_causes();
    a_run_knows_what_it_does();
    runs_that_keep_no_part_are_ready();
}

/// Each end of a run has its lines, its status and its cause. A run that came to its end has said of each drive all its words, or a
/// first part of them and a loss, round by round and in a round drive by drive, then `clear` just where it is due, and no other
/// line; every drive has its line `sealed` and the status is 0, or one has a line `dropped` and it is 1. A run of whose words a line
/// was not said has said some of them, or all, and no other line, and the status is 5. Any other run has said some of its words,
/// and then the last lines of its end, as far as they could be said, and no other line. A refused run, one that could not attach a
/// folder, and one that wanted memory changed and settled no drive. A run that ended by a file of another length has read that
/// length of a planned file, and its card is not steady.
///
/// A job has at least one drive, and requires one sealed drive at least.
pub fn ends_give_lines_and_causes()
    ensures { (job : Job) (end : JobEnd) (result : ℕ) (old new : World) (past since : List Event) → RanTold job end result old new past since → 1 ≤ length job.drives → 1 ≤ job.copies → EndGives (run_with job old new since) end result }
{
    turns_keep_the_rules();
    turns_alone();
    calls_are_its_own();
    ends_have_causes();
    a_run_knows_what_it_does();
    runs_that_keep_no_part_are_ready();
    lines_in_order();
    one_line_each();
    other_lengths_were_read();
    announced_steps();
}

/// Every drive of the words has its line `sealed`, heard or not, only where the status is 0; or where it is 5 and the output's count
/// rose.
///
/// A job has at least one drive.
pub fn all_sealed_only_at_zero()
    ensures { (job : Job) (end : JobEnd) (result : ℕ) (old new : World) (past since : List Event) → RanTold job end result old new past since → 1 ≤ length job.drives → ZeroWhere (run_with job old new since) result }
{
    turns_keep_the_rules();
    turns_alone();
    calls_are_its_own();
    ends_have_causes();
    a_run_knows_what_it_does();
    runs_that_keep_no_part_are_ready();
    lines_in_order();
    one_line_each();
    other_lengths_were_read();
    announced_steps();
}

/// A line of a run that was not said makes its status 5, whichever line it is.
pub fn lines_not_said_are_five()
    ensures { (job : Job) (end : JobEnd) (result : ℕ) (old new : World) (past since : List Event) → RanTold job end result old new past since → FiveWhere (run_with job old new since) result }
{
    calls_are_its_own();
    none_after_failure();
    runs_that_keep_no_part_are_ready();
}
