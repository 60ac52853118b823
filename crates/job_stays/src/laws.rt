// Laws of runs that stop: the contracts of functions that do nothing else.
ghost use Rattle.job_story.specs.Run.{Run};
ghost use Rattle.job_steps.specs.Prefix.{CrashPrefix};
ghost use Rattle.job_stays.specs.Stays.{StaysOurs, AfterRuns};

use offload_law::one_progress;

/// Wherever a run of a job stops, within a write too, each map that the stop may leave of an honest drive that was ours is ours
/// again, on the same steady card, and after at least the steps that were announced for the drive: by what it had at its attach,
/// or by a line of the run. So what holds of a run that begins with a drive that is ours holds of the run that begins with what
/// this one left. It follows from `CrashPrefix` alone, whichever run that holds of.
pub fn stays_ours()
    ensures { (run : Run) → CrashPrefix run → StaysOurs run }
{
    one_progress();
}

/// After any number of runs on one steady card, each with words and a plan of its own, each stopped at some moment, and each begun
/// with what the last one left, an honest drive that was ours is ours, and none of its steps was taken back. Counted from the map
/// that any one of the runs left, the steps that it announced are therefore never taken back by the runs after it.
pub fn ours_after_stops()
    ensures { AfterRuns }
{
    one_progress();
    stays_ours();
}
