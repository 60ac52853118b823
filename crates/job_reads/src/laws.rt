// Laws on the reads of a run of a job. Each is the contract of a function that does nothing else.
ghost use Rattle.std.specs.Prelude.{ℕ, List};
ghost use Rattle.bay_core.specs.declared.event.Event.{Event};
ghost use Rattle.bay_core.specs.World.{World};
ghost use Rattle.command_words.specs.Jobs.{Job};
ghost use Rattle.job_story.specs.Ends.{JobEnd};
ghost use Rattle.job_story.specs.Run.{run_with};
ghost use Rattle.job_calls.specs.Told.{RanTold};
ghost use Rattle.job_reads.specs.Backs.{ReadsBack};
ghost use Rattle.job_reads.specs.Reads.{ReadsOnce};

use run_calls::calls_are_its_own;
use run_reads::{dones_are_dated, reads_its_files, reads_once};
use run_state::{turns_alone, turns_keep_the_rules, turns_pass_over_drives};

/// Over all calls of a run each path of its card is read from its start on, each read where the one before ended, so that no byte
/// is asked for again that was given. Before a drive gives its part the path of a file, or tries to, the file was read to its size,
/// where one byte more was asked for and none came; after that it is not read. A part gets the path of no other file, and no
/// other file is read.
pub fn read_once()
    ensures { (job : Job) (end : JobEnd) (result : ℕ) (old new : World) (past since : List Event) → RanTold job end result old new past since → ReadsOnce (run_with job old new since) }
{
    calls_are_its_own();
    reads_its_files();
    reads_once();
    turns_alone();
}

/// Before each line `done` of a drive of a run, whether it was heard or not, the copy of the file was settled on that drive and
/// read back there, and had the digests that were recorded, which are those of what the card gave; the record's date is the
/// moment that was asked with the next call after the copy's end. Before each line `sealed` the list was settled and read back
/// there, and was just the text of the list of the run's plan, the records that were written to the drive, one of each file, and
/// the moment that was asked for it. So it is over drives that lie too.
pub fn read_back()
    ensures { (job : Job) (end : JobEnd) (result : ℕ) (old new : World) (past since : List Event) → RanTold job end result old new past since → ReadsBack (run_with job old new since) }
{
    calls_are_its_own();
    dones_are_dated();
    turns_alone();
    turns_keep_the_rules();
    turns_pass_over_drives();
}
