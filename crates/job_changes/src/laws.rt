// Laws on the changes of a run of a job. Each is the contract of a function that does nothing else.
ghost use Rattle.std.specs.Prelude.{ℕ, List};
ghost use Rattle.bay_core.specs.declared.event.Event.{Event};
ghost use Rattle.bay_core.specs.World.{World};
ghost use Rattle.command_words.specs.Jobs.{Job};
ghost use Rattle.job_story.specs.Ends.{JobEnd};
ghost use Rattle.job_story.specs.Run.{run_with};
ghost use Rattle.job_calls.specs.Told.{RanTold};
ghost use Rattle.job_changes.specs.Changes.{ChangesItsOwn};

use run_calls::calls_are_its_own;

/// Over all calls of a run, also of one over drives that lie, a write is to the journal of a drive or to one of its two scratch files;
/// a rename gives the scratch file that is written whole the name of the journal or of the list of the run's plan, and the part the
/// path of a file of that plan; and what is removed is a scratch file. So it is of calls that failed too. Every other path of a drive
/// stays as it was, and a run that has no plan makes no such call and no barrier. On a card no call changes anything.
pub fn runs_change_their_own()
    ensures { (job : Job) (end : JobEnd) (result : ℕ) (old new : World) (past since : List Event) → RanTold job end result old new past since → ChangesItsOwn (run_with job old new since) }
{
    calls_are_its_own();
}
