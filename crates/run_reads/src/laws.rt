// Laws on the reads of a run, over any number of its turns. Each is the contract of a function that does nothing.
ghost use Rattle.std.specs.Prelude.{◌≡◌, ◌++◌, List, Some};
ghost use Rattle.bay_core.specs.declared.event.Event.{Event};
ghost use Rattle.run_state.specs.Rules.{IsRun};
ghost use Rattle.run_state.specs.Runs.{Point, Alone, Runs};
ghost use Rattle.run_state.specs.State.{Ordered};
ghost use Rattle.run_reads.specs.Backs.{IsDated, IsDatedAtOnce, LinesReadBack};
ghost use Rattle.run_reads.specs.Parts.{PartsStand, Starts};
ghost use Rattle.run_reads.specs.Reads.{ReadsItsFiles, ReadsOnce};

/// Between two turns, as long as the run goes on, each honest drive of it, once it was begun, until it is sealed, has no part,
/// or keeps that of its next file, no longer than it, but for the drives of a file that is under way; and a copy knows its
/// blocks and the parts of its drives.
pub fn parts_stand()
    ensures { (o : Ordered) (a b : Point) → Starts o a → Runs o a b → PartsStand o b }
{}

/// Before each line `done` of a drive of a run the file was read back, whose digests are those that were recorded and those
/// of what the card gave; before each line `sealed` the list was read back, which has a record of each file, found or made so,
/// unless the drive was found sealed. Drives that lie are none the less read. Of each file one record is made, the same for all
/// drives; its moment was asked after the copy of the file came to its end, and since then the file was not read.
pub fn lines_are_read_back()
    ensures { (o : Ordered) (a b : Point) → Starts o a → Runs o a b → (past L : List Event) → a.world.events ≡ Some past → b.world.events ≡ Some (past ++ L) → LinesReadBack (IsDated o) o a L }
{}

/// The same for turns with nothing between them: there the moment of a file was asked with the next call after its copy, and
/// until the file was recorded no other was asked, and no card was read.
pub fn dones_are_dated()
    ensures { (o : Ordered) (a b : Point) → Starts o a → Alone o a b → (past L : List Event) → a.world.events ≡ Some past → b.world.events ≡ Some (past ++ L) → LinesReadBack (IsDatedAtOnce o) o a L }
{}

/// A run reads each planned file of its card once, and to its end before a drive of it gives the file its name.
pub fn reads_once()
    ensures { (o : Ordered) (a b : Point) → Starts o a → Runs o a b → (past L : List Event) → a.world.events ≡ Some past → b.world.events ≡ Some (past ++ L) → ReadsOnce o a L }
{}

/// The turns of a run, with nothing between them, read no other file of a card, and no other card.
pub fn reads_its_files()
    ensures { (o : Ordered) (a b : Point) → IsRun o a.at → Alone o a b → (past L : List Event) → a.world.events ≡ Some past → b.world.events ≡ Some (past ++ L) → ReadsItsFiles o L }
{}
