// Laws of the refusals of runs of jobs. Each is the contract of a function that does nothing else.
ghost use Rattle.std.specs.Prelude.{◌≡◌, ◌+◌, ◌≤◌, ℕ, List, length};
ghost use Rattle.bay_core.specs.declared.event.Event.{Event};
ghost use Rattle.bay_core.specs.declared.event.FileInfo.{FileInfo};
ghost use Rattle.bay_core.specs.World.{World};
ghost use Rattle.fresh_opening.specs.declared.error.FreshError.{FreshError};
ghost use Rattle.fresh_opening.specs.Refusals.{Scene};
ghost use Rattle.command_words.specs.Jobs.{Job};
ghost use Rattle.job_story.specs.Ends.{JobEnd};
ghost use Rattle.job_story.specs.Run.{run_with};
ghost use Rattle.job_calls.specs.Told.{RanTold};
ghost use Rattle.job_refusals.specs.First.{IsFirstRefusal, NothingRefuses};
ghost use Rattle.job_refusals.specs.Mapped.{RefusesByMaps};
ghost use Rattle.job_refusals.specs.Sighted.{RefusesFirst, CallsCardFirst, PassesUnrefused, ListsItsFiles};

use run_calls::calls_are_its_own;

/// A run of a job is refused only with the first refusal that applies by what its calls saw: the attaches, then the listing of the
/// card, then the looks at its drives from the first on, up to the one that is refused, then the moment of its plan. Behind these
/// come the lines of the refusal, as far as they could be said, and no other call; so a refused run makes no call that may change
/// or settle a drive.
///
/// Each run calls a drive only behind the listing of its card, where that has an inventory.
///
/// A run makes such a call only where, by what it saw of all its drives, with its plan, no refusal applies.
///
/// What a steady card listed are its files, in each run that did not end for want of memory.
pub fn refusals_are_seen()
    ensures only { (job : Job) (end : JobEnd) (result : ℕ) (old new : World) (past since : List Event) → RanTold job end result old new past since → RefusesFirst (run_with job old new since) end result }
    ensures card_first { (job : Job) (end : JobEnd) (result : ℕ) (old new : World) (past since : List Event) → RanTold job end result old new past since → CallsCardFirst (run_with job old new since) }
    ensures passed { (job : Job) (end : JobEnd) (result : ℕ) (old new : World) (past since : List Event) → RanTold job end result old new past since → PassesUnrefused (run_with job old new since) }
    ensures listing { (job : Job) (end : JobEnd) (result : ℕ) (old new : World) (past since : List Event) → RanTold job end result old new past since → ListsItsFiles (run_with job old new since) end }
{
    calls_are_its_own();
}

/// Where the card was listed, and each drive of the words is honest or was dropped in the opening, a run of a job is refused only with
/// the first refusal by that listing, by the maps with which its drives were attached, and by the plan; and where these give a
/// refusal, the run is refused with that, unless something ended it before: memory was wanting, or the line of a drive that was lost
/// could not be said.
pub fn refusals_are_by_the_maps()
    ensures { (job : Job) (end : JobEnd) (result : ℕ) (old new : World) (past since : List Event) → RanTold job end result old new past since → RefusesByMaps (run_with job old new since) end }
{
    calls_are_its_own();
}

/// A listing, with what there is to see of at most eight drives and the plan, has one first refusal at most, and none where nothing
/// refuses the run.
pub fn one_first_refusal()
    ensures one { (listed : List FileInfo) (s : Scene) (a b : FreshError) → s.first + length s.sights ≤ 8 → IsFirstRefusal listed s a → IsFirstRefusal listed s b → a ≡ b }
    ensures none { (listed : List FileInfo) (s : Scene) (e : FreshError) → NothingRefuses listed s → IsFirstRefusal listed s e → ⊥ }
{}
