// Laws on the calls of a run of a job. Each is the contract of a function that does nothing.
ghost use Rattle.std.specs.Prelude.{ℕ, List};
ghost use Rattle.bay_core.specs.declared.event.Event.{Event};
ghost use Rattle.bay_core.specs.Went.{AllOn};
ghost use Rattle.bay_core.specs.World.{World};
ghost use Rattle.command_words.specs.Jobs.{Job};
ghost use Rattle.job_story.specs.Ends.{JobEnd};
ghost use Rattle.job_story.specs.Run.{run_with};
ghost use Rattle.job_calls.specs.Calls.{IsOfJob, AttachesInOrder, NoneAfterFailure};
ghost use Rattle.job_calls.specs.Fails.{FailsNone};
ghost use Rattle.job_calls.specs.Places.{Numbers, HoldsItsPlaces};
ghost use Rattle.job_calls.specs.Told.{RanTold};

use run_calls::{
    calls_are_its_own, none_after_failure, renames_find_their_files,
    runs_that_keep_no_part_are_ready,
};
use run_reads::reads_its_files;
use run_state::turns_alone;

/// A run of a job calls its card, its drives, the output, the clock and the picker alone, and it attaches.
pub fn runs_call_their_own()
    ensures { (job : Job) (end : JobEnd) (result : ℕ) (old new : World) (past since : List Event) → RanTold job end result old new past since → AllOn (IsOfJob job) since }
{
    calls_are_its_own();
}

/// The first calls of a run attach the folders of its job, in the order of the words: all of them; or a first part, behind which
/// the next one could not be attached and the run ended by that. What was attached has what its place gave.
pub fn runs_attach_their_folders()
    ensures attaches { (job : Job) (end : JobEnd) (result : ℕ) (old new : World) (past since : List Event) → RanTold job end result old new past since → AttachesInOrder job end result since }
    ensures numbers { (job : Job) (end : JobEnd) (result : ℕ) (old new : World) (past since : List Event) → RanTold job end result old new past since → Numbers (run_with job old new since) }
    ensures places { (job : Job) (end : JobEnd) (result : ℕ) (old new : World) (past since : List Event) → RanTold job end result old new past since → HoldsItsPlaces (run_with job old new since) past }
{
    calls_are_its_own();
}

/// Behind a call on a drive that failed comes the line of its loss, and no call on that drive, and so it is behind each line
/// `dropped`, since a failure may not be seen; behind an attach or a call on the card that failed come the last lines of the run
/// alone; and behind a line that was not said nothing.
pub fn no_call_follows_a_failure()
    ensures { (job : Job) (end : JobEnd) (result : ℕ) (old new : World) (past since : List Event) → RanTold job end result old new past since → NoneAfterFailure end result since }
{
    calls_are_its_own();
    none_after_failure();
    runs_that_keep_no_part_are_ready();
}

/// No count rises by a call that must fail: a run reads files of a steady card that are there, and renames files of an honest
/// drive that are there then.
pub fn no_call_must_fail()
    ensures { (job : Job) (end : JobEnd) (result : ℕ) (old new : World) (past since : List Event) → RanTold job end result old new past since → FailsNone (run_with job old new since) }
{
    calls_are_its_own();
    reads_its_files();
    renames_find_their_files();
    runs_that_keep_no_part_are_ready();
    turns_alone();
}
