//! The acts of an offload on one drive of a run. A run that keeps to the steps leaves the drive, wherever it stops, with a
//! prefix of the offload that holds every step announced for the drive.
#![tactic(auto)]

ghost use Rattle.std.specs.Prelude.{ℕ, List};
ghost use Rattle.bay_core.specs.declared.event.Event.{Event};
ghost use Rattle.bay_core.specs.Map.{Map};
ghost use Rattle.recording.specs.Drives.{Copying, IsCopying, Keeps, IsFound, LeavesPrefix};

use offload_law::steps_are_safe;

mod beginning;
mod filing;

pub use beginning::{begin_on, rejoin_on};
pub use filing::record_file;

/// A run that keeps to the steps on a drive leaves it, wherever it stops, with a prefix of them that holds every
/// announced one, and at most one more. It may begin at any moment at which the drive is at rest, whatever was called
/// on the bay before.
pub fn keeping_is_safe()
    ensures { (D : Copying) → IsCopying D → (d : ℕ) (attached : Map) (past L : List Event) → IsFound D d attached past → Keeps D d L → LeavesPrefix D d attached past L }
{
    steps_are_safe();
}
