// Laws on the pace of a run of a job. Each is the contract of a function that does nothing else.
ghost use Rattle.std.specs.Prelude.{ℕ, List};
ghost use Rattle.bay_core.specs.declared.event.Event.{Event};
ghost use Rattle.bay_core.specs.World.{World};
ghost use Rattle.command_words.specs.Jobs.{Job};
ghost use Rattle.job_story.specs.Ends.{JobEnd};
ghost use Rattle.job_story.specs.Run.{run_with};
ghost use Rattle.job_calls.specs.Told.{RanTold};
ghost use Rattle.job_pace.specs.Pace.{FollowsWindows};

use run_calls::calls_are_its_own;
use run_pace::copies_go_at_the_pace;

/// But for its lines, the calls of a run are copies of the plan's files and other calls between them. Each copy writes its empty
/// pieces first; then each pick is followed, before the next one, by just the act that the window of 16 slots gives for it: the
/// reads of the card's next block, the write of a drive's next block to its part, or the read at the size. No other call picks,
/// reads a file of a card or writes to a part. A run that made no turn has no such call at all.
pub fn follows_windows()
    ensures { (job : Job) (end : JobEnd) (result : ℕ) (old new : World) (past since : List Event) → RanTold job end result old new past since → FollowsWindows (run_with job old new since) }
{
    calls_are_its_own();
    copies_go_at_the_pace();
}
