// Laws of runs of orders that are true. Each is the contract of a function that does nothing else.
ghost use Rattle.std.specs.Prelude.{◌≡◌, ◌++◌, ◌^◌, ◌<◌, ℕ, true, List, length, Some};
ghost use Rattle.std.specs.FinMap.{keys};
ghost use Rattle.bay_core.specs.declared.event.Event.{Event};
ghost use Rattle.bay_core.specs.Left.{Left, IsSettled};
ghost use Rattle.bay_core.specs.Looks.{IsUntouched};
ghost use Rattle.bay_core.specs.Map.{Map, Dates, AllDated};
ghost use Rattle.bay_core.specs.Replay.{reads};
ghost use Rattle.bay_core.specs.World.{Honest};
ghost use Rattle.copy_plan.specs.Plan.{PlanValue};
ghost use Rattle.crash_law.specs.Lines.{AllLines};
ghost use Rattle.card_inventory.specs.Card.{IsInventoryOfCard};
ghost use Rattle.drive_journal.specs.declared.order.DriveStart.TheVariants.{Gone};
ghost use Rattle.drive_journal.specs.declared.order.Order.{Order as AnOrder};
ghost use Rattle.fresh_opening.specs.Orders.{start_at};
ghost use Rattle.offload_law.specs.Clear.{IsCalledSealed};
ghost use Rattle.offload_law.specs.Stages.{Stage, IsAfterOn, HoldsPlan, IsOfCard, IsOurs, all_steps};
ghost use Rattle.offload_run.specs.declared.offload.Offload.{Offload};
ghost use Rattle.offload_run.specs.Offload.{ordered_of};
ghost use Rattle.recording.specs.Drives.{IsCopying};
ghost use Rattle.run_state.specs.declared.outcome.Outcome.TheVariants.{Changed};
ghost use Rattle.run_state.specs.Rules.{IsRun};
ghost use Rattle.run_state.specs.Runs.{Point, Alone, Runs};
ghost use Rattle.run_state.specs.State.{Ordered, is_of_run};
ghost use Rattle.run_steps.specs.Parts.{PartsReady};
ghost use Rattle.run_steps.specs.Steps.{IsFor, KeepsToTheSteps};
ghost use Rattle.run_reads.specs.Parts.{Starts};
ghost use Rattle.run_ends.specs.Ends.{GaveOtherLength};
ghost use Rattle.run_ends.specs.Known.{IsKnownOnward, KnowsReadsOnward};
ghost use Rattle.run_ends.specs.Losses.{LosesByFaults};
ghost use Rattle.run_ends.specs.Renames.{RenamesWhatIsThere};
ghost use Rattle.run_ends.specs.Whole.{IsComplete, NoneRose};
ghost use Rattle.true_start.specs.Sound.{IsSoundOrder};
ghost use Rattle.true_start.specs.Starts.{StartsTruly, IsDriveOf, offload_at};
ghost use Rattle.true_start.specs.Stops.{IsLeftWell, IsPlanOf, AnnouncesNone};

use drive_journal::one_journal;
use offload_law::{announced_steps, called_sealed, crash_prefix, greatest_told, one_progress};
use run_ends::{
    honest_drives_fail_alone, other_lengths_were_read, renames_find_their_files,
    sound_runs_are_complete,
};
use run_state::{turns_keep_the_rules, turns_pass_over_drives};
use run_steps::{lines_about_others_announce_nothing, parts_stay_ready, turns_keep_to_the_steps};

/// A run as it is made of an order that is true of its drives and of its card starts as the laws of runs ask: its scratch files
/// are as its first turn asks for them, no drive keeps a part but that of its next file, and each honest drive of it is one that
/// an offload by the order's plan goes on with. A plan whose files are the inventory of a card of which each date is known is a
/// plan of that card.
pub fn true_orders_start_ready()
    ensures parts { (order : AnOrder) (run : Offload) (a : Point) → StartsTruly order run a → PartsReady (ordered_of run) a }
    ensures starts { (order : AnOrder) (run : Offload) (a : Point) → StartsTruly order run a → Starts (ordered_of run) a }
    ensures drives { (order : AnOrder) (run : Offload) (a : Point) → StartsTruly order run a → (d : ℕ) (attached card : Map) (past : List Event) (dates : Dates) → IsDriveOf order d attached past card dates a.world
        → (stage : Stage) × IsFor (ordered_of run) d (offload_at order.plan card (reads attached past d) stage) attached card past a }
    ensures of_card { (card : Map) (dates : Dates) (p : PlanValue) → AllDated card dates → IsInventoryOfCard card dates p.files → IsOfCard card dates p }
{
    one_journal();
}

/// Where the scratch files of a run are as its next turn asks for them, it is known at each point from there what is read back
/// next; and a run as it is made knows at each point what its card gave.
pub fn what_is_ready_is_known()
    ensures known { (o : Ordered) (a : Point) → IsRun o a.at → PartsReady o a → IsKnownOnward o a }
    ensures reads { (o : Ordered) (a : Point) → Starts o a → KnowsReadsOnward o a }
{
    turns_keep_the_rules();
    parts_stay_ready();
}

/// The run of a true order, over any number of turns and whatever others do between them: an honest drive is lost by a fault
/// alone; the run ends by another length of a file only where the card's reads gave that length; its renames on honest drives
/// name files that are there; and where nothing is wrong with its devices and no count rises it loses no drive, and once it has
/// ended, each of its drives is sealed.
pub fn ends_of_true_orders()
    ensures losses { (order : AnOrder) (run : Offload) (a b : Point) → StartsTruly order run a → Runs (ordered_of run) a b → (past L : List Event) → a.world.events ≡ Some past → b.world.events ≡ Some (past ++ L) → LosesByFaults a L }
    ensures lengths { (order : AnOrder) (run : Offload) (a b : Point) → StartsTruly order run a → Runs (ordered_of run) a b → (i listed read : ℕ) → b.at.outcome ≡ Changed i listed read
        → (past L : List Event) → a.world.events ≡ Some past → b.world.events ≡ Some (past ++ L) → GaveOtherLength (ordered_of run) i listed read L }
    ensures renames { (order : AnOrder) (run : Offload) (a b : Point) → StartsTruly order run a → Runs (ordered_of run) a b → (d : ℕ) (start : Map) (past L : List Event) → is_of_run a.at.drives d ≡ true → Honest a.world d start past
        → b.world.events ≡ Some (past ++ L) → RenamesWhatIsThere d start past L }
    ensures complete { (order : AnOrder) (run : Offload) (a b : Point) (card : Map) → StartsTruly order run a → IsSoundOrder order card a.world → Runs (ordered_of run) a b → NoneRose a.world b.world → (all : List Event) → b.world.events ≡ Some all → IsComplete a b }
{
    true_orders_start_ready();
    what_is_ready_is_known();
    honest_drives_fail_alone();
    other_lengths_were_read();
    renames_find_their_files();
    sound_runs_are_complete();
}

/// The run of a true order keeps each honest drive of it to the steps of its offload, over any number of turns and whatever others
/// do between them. So wherever it stops, each map that may be left of the drive is after a prefix of the steps by the order's
/// plan, which has every announced one and at most one more; and once the drive was called sealed, after all of them. With
/// nothing between the turns the same holds of a drive that was gone before the run, by the plan of its own journal.
pub fn steps_of_true_orders()
    ensures keeps { (order : AnOrder) (run : Offload) (a b : Point) → StartsTruly order run a → Runs (ordered_of run) a b → (d : ℕ) (attached card : Map) (past : List Event) (dates : Dates) → IsDriveOf order d attached past card dates a.world
        → (stage : Stage) × IsCopying (offload_at order.plan card (reads attached past d) stage) × KeepsToTheSteps d (offload_at order.plan card (reads attached past d) stage) attached past b }
    ensures stops { (order : AnOrder) (run : Offload) (a b : Point) → StartsTruly order run a → Runs (ordered_of run) a b → (d : ℕ) (attached card : Map) (past : List Event) (dates : Dates) → IsDriveOf order d attached past card dates a.world
        → IsOfCard card dates order.plan → (L more : List Event) → b.world.events ≡ Some (past ++ (L ++ more)) → (I : Map) → Left attached (past ++ L) d I
        → IsLeftWell (IsPlanOf order.plan (reads attached past d)) card dates d (reads attached past d) L I }
    ensures sealed { (order : AnOrder) (run : Offload) (a b : Point) → StartsTruly order run a → Runs (ordered_of run) a b → (d : ℕ) (attached card : Map) (past : List Event) (dates : Dates) → IsDriveOf order d attached past card dates a.world
        → IsOfCard card dates order.plan → (before since more : List Event) → b.world.events ≡ Some (past ++ ((before ++ since) ++ more)) → IsCalledSealed d before → (I : Map) → Left attached (past ++ (before ++ since)) d I
        → IsAfterOn card dates I (all_steps card) }
    ensures gone { (order : AnOrder) (run : Offload) (a b : Point) → StartsTruly order run a → Alone (ordered_of run) a b → (d : ℕ) → d < 2 ^ 64 → start_at order.drives.items d ≡ Gone → (attached card : Map) (past : List Event) (dates : Dates)
        → Honest a.world d attached past → IsSettled attached past d → IsOurs card dates (reads attached past d) → (L more : List Event) → b.world.events ≡ Some (past ++ (L ++ more)) → (I : Map) → Left attached (past ++ L) d I
        → IsLeftWell (IsPlanOf order.plan (reads attached past d)) card dates d (reads attached past d) L I }
{
    true_orders_start_ready();
    turns_keep_to_the_steps();
    turns_pass_over_drives();
    lines_about_others_announce_nothing();
    crash_prefix();
    called_sealed();
    greatest_told();
    announced_steps();
    one_progress();
}

/// Before its first turn a run is of a job that has looked at its drives and said lines, none of which announces a step. A stop
/// within those calls leaves a drive that was ours as it was; and what is left of it once turns were made is left so behind
/// those calls too.
pub fn calls_before_the_turns()
    ensures stops { (d : ℕ) (attached card : Map) (past : List Event) (dates : Dates) → IsSettled attached past d → IsOurs card dates (reads attached past d) → (L : List Event) → IsUntouched L → AllLines (AnnouncesNone d (length (keys card))) L → (I : Map) → Left attached (past ++ L) d I
        → IsLeftWell (HoldsPlan (reads attached past d)) card dates d (reads attached past d) L I }
    ensures behind { (p : PlanValue) (d : ℕ) (start card : Map) (dates : Dates) (before L : List Event) (I : Map) → AllLines (AnnouncesNone d (length (keys card))) before → IsLeftWell (IsPlanOf p start) card dates d start L I → IsLeftWell (IsPlanOf p start) card dates d start (before ++ L) I }
{
    crash_prefix();
    announced_steps();
    one_progress();
}
