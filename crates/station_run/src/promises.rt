// What a run of the station promises whose words are a job's: the contract of a function that does nothing else.
ghost use Rattle.std.specs.Prelude.{ℕ, List};
ghost use Rattle.bay_core.specs.World.{World};
ghost use Rattle.command_words.specs.Jobs.{Job, IsJob};
ghost use Rattle.job_steps.specs.Prefix.{CrashPrefix, CallsClear};
ghost use Rattle.station_run.specs.Promises.{OfJob, KeepsPromises};
ghost use Rattle.station_run.specs.Station.{HasRoom, Ran};

use job_calls::{
    no_call_follows_a_failure, no_call_must_fail, runs_attach_their_folders, runs_call_their_own,
};
use job_changes::runs_change_their_own;
use job_ends::{
    all_sealed_only_at_zero, counts_show_the_end, ends_give_lines_and_causes,
    lines_not_said_are_five,
};
use job_final::drives_end_final;
use job_losses::{drops_have_causes, sound_jobs_complete};
use job_pace::follows_windows;
use job_reads::{read_back, read_once};
use job_refusals::{refusals_are_by_the_maps, refusals_are_seen};
use job_steps::jobs_keep_to_the_steps;
use offload_law::announced_steps;

/// Of each run whose words are a job's, where there was room for them, the laws of the runs of jobs hold. Where memory was wanting
/// before the words were read, nothing was attached, and no line `clear` was said.
pub fn runs_keep_their_promises()
    ensures prefix { (words : List (List ℕ)) (result : ℕ) (old new : World) → Ran words result old new → HasRoom words old.attached → OfJob CrashPrefix words old new }
    ensures clear { (words : List (List ℕ)) (result : ℕ) (old new : World) → Ran words result old new → HasRoom words old.attached → OfJob CallsClear words old new }
    ensures others { (words : List (List ℕ)) (result : ℕ) (old new : World) → Ran words result old new → HasRoom words old.attached → (job : Job) → IsJob words job → KeepsPromises job result old new }
{
    announced_steps();
    jobs_keep_to_the_steps();
    runs_call_their_own();
    runs_attach_their_folders();
    no_call_follows_a_failure();
    no_call_must_fail();
    read_once();
    read_back();
    follows_windows();
    runs_change_their_own();
    counts_show_the_end();
    ends_give_lines_and_causes();
    all_sealed_only_at_zero();
    lines_not_said_are_five();
    refusals_are_seen();
    refusals_are_by_the_maps();
    drives_end_final();
    drops_have_causes();
    sound_jobs_complete();
}
