// Laws of the runs of jobs. Each is the contract of a function that does nothing else.
ghost use Rattle.std.specs.Prelude.{ℕ, List};
ghost use Rattle.bay_core.specs.declared.event.Event.{Event};
ghost use Rattle.bay_core.specs.Map.{Map};
ghost use Rattle.bay_core.specs.World.{World};
ghost use Rattle.command_words.specs.Jobs.{Job};
ghost use Rattle.copy_plan.specs.Plan.{PlanValue};
ghost use Rattle.drive_journal.specs.declared.record.Rec.{Rec};
ghost use Rattle.run_final.specs.Final.{IsMadeFinal};
ghost use Rattle.job_story.specs.Ends.{JobEnd};
ghost use Rattle.job_story.specs.Run.{run_with};
ghost use Rattle.job_calls.specs.Told.{RanTold};
ghost use Rattle.job_final.specs.Final.{IsFinal, Verifies};

use job_losses::drops_have_causes;
use run_final::sealed_drives_are_final;
use run_lines::one_line_each;
use run_state::{turns_alone, turns_keep_the_rules};
use true_start::true_orders_start_ready;
use verified_law::a_sealed_list_verifies;

/// Where a run of a job ended with the status 0 or 1, with a steady card, each honest drive whose count did not rise has its line
/// `sealed`, whatever became of the others. Before that line its list was read back, of one record for each file, each with the
/// moment that was asked for the file, and of the moment that was asked for the list. Nothing is pending on the drive, and its map is
/// final: no scratch file; each file of the card at its path; a journal of just the run's plan, these records and a closed gate; the
/// text of the list under its name; and everything else as it was.
///
/// It was the run that began the drive: one that finds a journal is refused.
pub fn drives_end_final()
    ensures { (job : Job) (end : JobEnd) (result : ℕ) (old new : World) (past since : List Event) → RanTold job end result old new past since → IsFinal (run_with job old new since) result }
{
    drops_have_causes();
    sealed_drives_are_final();
    one_line_each();
    turns_alone();
    turns_keep_the_rules();
    true_orders_start_ready();
}

/// On a drive whose map is final the list verifies: it reads, and by whatever it reads as each file of the plan is checked, and none
/// is missing, altered or unchecked.
pub fn final_lists_verify()
    ensures { (card start m : Map) (p : PlanValue) (recs : List Rec) (finish : ℕ) → IsMadeFinal card start p recs finish m → Verifies p m }
{
    a_sealed_list_verifies();
}
