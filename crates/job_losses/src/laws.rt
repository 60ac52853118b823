// Laws of the runs of jobs. Each is the contract of a function that does nothing else.
ghost use Rattle.std.specs.Prelude.{◌≡◌, ◌++◌, ◌≤◌, ℕ, List, length, Some};
ghost use Rattle.bay_core.specs.declared.event.Event.{Event};
ghost use Rattle.bay_core.specs.World.{World};
ghost use Rattle.command_words.specs.Jobs.{Job};
ghost use Rattle.job_story.specs.Ends.{JobEnd};
ghost use Rattle.job_story.specs.Run.{run_with};
ghost use Rattle.job_story.specs.Story.{Story};
ghost use Rattle.job_losses.specs.Complete.{Completes};
ghost use Rattle.job_losses.specs.Drops.{DropsRightly};

use offload_law::announced_steps;
use run_ends::words_are_said;
use run_lines::one_line_each;
use run_state::{turns_alone, turns_keep_the_rules};
use true_start::{ends_of_true_orders, true_orders_start_ready};

/// Each line `dropped` of a run of a job, whether it was heard or not, has its cause before it, over drives that lie too. By a
/// fault a drive is dropped only where its count rose in the run. By any other loss it is only where the last calls before the line
/// read its part back, or its list, and these reads gave what the line says: no file, another length, other digests or another
/// byte, against what the card gave, or against the list of the records that were written to the drive. So an honest drive is
/// dropped only where its own count rose, whatever the others do.
///
/// A job has at most eight drives.
pub fn drops_have_causes()
    ensures { (job : Job) (end : JobEnd) (result : ℕ) (old new : World) → Story job end result old new → length job.drives ≤ 8
        → (past since : List Event) → old.events ≡ Some past → new.events ≡ Some (past ++ since) → DropsRightly (run_with job old new since) }
{
    turns_alone();
    turns_keep_the_rules();
    true_orders_start_ready();
    ends_of_true_orders();
}

/// A run of a job with a steady card and honest drives, in which no count rises, is complete unless it was refused: each drive has
/// its line `sealed`, the card was called clear, and the status is 0. Only memory may be wanting; then the status is 9, and no
/// call of the run may have changed or settled a drive.
///
/// A job requires one sealed drive at least, and no more than it has drives.
pub fn sound_jobs_complete()
    ensures { (job : Job) (end : JobEnd) (result : ℕ) (old new : World) → Story job end result old new → 1 ≤ job.copies → job.copies ≤ length job.drives
        → (past since : List Event) → old.events ≡ Some past → new.events ≡ Some (past ++ since) → Completes (run_with job old new since) end result }
{
    turns_alone();
    turns_keep_the_rules();
    ends_of_true_orders();
    words_are_said();
    one_line_each();
    announced_steps();
}
