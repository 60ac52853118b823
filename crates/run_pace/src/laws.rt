// Laws on the pace of a run, over any number of its turns. Each is the contract of a function that does nothing.
ghost use Rattle.std.specs.Prelude.{◌≡◌, ◌++◌, List, Some};
ghost use Rattle.bay_core.specs.declared.event.Event.{Event};
ghost use Rattle.run_state.specs.Runs.{Point, Alone};
ghost use Rattle.run_state.specs.State.{Ordered};
ghost use Rattle.run_reads.specs.Parts.{Starts};
ghost use Rattle.run_pace.specs.Pace.{IsPaced, without_lines};

/// The turns of a run with nothing between them, but for their lines, are copies of planned files and other calls between them.
/// Each copy writes its empty pieces first; then each pick is followed, before the next one, by just the act that the window
/// gives for it: the reads of the next block of the card, or the write of a drive's next block to its part, or its compare where
/// the drive keeps its part, or the read at the size. No other call picks, reads a card or writes to a part.
pub fn copies_go_at_the_pace()
    ensures { (o : Ordered) (a b : Point) → Starts o a → Alone o a b → (past L : List Event) → a.world.events ≡ Some past → b.world.events ≡ Some (past ++ L) → IsPaced o a (without_lines L) }
{}
