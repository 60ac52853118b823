// Laws on the lines of a run, over any number of its turns. Each is the contract of a function that does nothing.
ghost use Rattle.std.specs.Prelude.{◌≡◌, ◌++◌, List, Some};
ghost use Rattle.bay_core.specs.declared.event.Event.{Event};
ghost use Rattle.offload_law.specs.Clear.{AreCalledSealed};
ghost use Rattle.run_state.specs.Rules.{IsStart};
ghost use Rattle.run_state.specs.Runs.{Point, Alone, Runs};
ghost use Rattle.run_state.specs.State.{Ordered};
ghost use Rattle.run_lines.specs.Clear.{AreSealedOf, IsTurnsCall, StandsBehind, ClearsRightly};
ghost use Rattle.run_lines.specs.Lines.{OneLineEach, StandAmong, StandAlone, SaysBy};

use offload_law::announced_steps;
use run_state::{turns_alone, turns_keep_the_rules};

/// Of each drive of a run, one that lies too, the lines about it are `begun`, unless it was found sealed, a line `done` for each
/// file from the first on that it has no record of, in order, and `sealed`; or a first part of these without `sealed`, and then
/// at most one line `dropped`. Where the run came to its end, each has one of `sealed` and `dropped`.
pub fn one_line_each()
    ensures { (o : Ordered) (a b : Point) → IsStart o a.at → Runs o a b → (past L : List Event) → a.world.events ≡ Some past → b.world.events ≡ Some (past ++ L) → OneLineEach o a b L }
{
    turns_keep_the_rules();
}

/// The lines of a run stand in its order: `begun` drive by drive; then file by file `done` drive by drive; then `sealed` drive
/// by drive; a line `dropped` anywhere among them; and last the line `clear`, where it is due.
pub fn lines_in_order()
    ensures beside { (o : Ordered) (a b : Point) → IsStart o a.at → Runs o a b → (past L : List Event) → a.world.events ≡ Some past → b.world.events ≡ Some (past ++ L) → SaysBy o a b.at.outcome (StandAmong a L) }
    ensures alone { (o : Ordered) (a b : Point) → IsStart o a.at → Alone o a b → (past L : List Event) → a.world.events ≡ Some past → b.world.events ≡ Some (past ++ L) → SaysBy o a b.at.outcome (StandAlone L) }
{
    turns_keep_the_rules();
    turns_alone();
}

/// A run calls its card clear only where just so many drives as the line says were called sealed before it, which are no fewer
/// than are required, and one at least is; and at its end it has done so if so many are. Whose line `clear` it is, where others
/// say one too, is told by the turn that said it.
pub fn clears_rightly()
    ensures beside { (o : Ordered) (a b : Point) → IsStart o a.at → Runs o a b → (past L : List Event) → a.world.events ≡ Some past → b.world.events ≡ Some (past ++ L) → ClearsRightly o b L (AreSealedOf a.at.drives) (IsTurnsCall o a b past) }
    ensures alone { (o : Ordered) (a b : Point) → IsStart o a.at → Alone o a b → (past L : List Event) → a.world.events ≡ Some past → b.world.events ≡ Some (past ++ L) → ClearsRightly o b L AreCalledSealed (StandsBehind L) }
{
    turns_keep_the_rules();
    turns_alone();
    announced_steps();
}
