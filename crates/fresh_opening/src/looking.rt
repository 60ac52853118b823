// The looks at the drives of an opening.
ghost use Rattle.std.specs.Prelude.{◌≡◌, ◌+◌, ◌<◌, ◌≤◌, [], ◌∷◌, length, map, MatchBool, MatchResult};
ghost use Rattle.bay_core.specs.Replay.{Output};
ghost use Rattle.bay_core.specs.Went.{Called, Ran, say_call};
ghost use Rattle.report_text.specs.Losses.{dropped_fault_text};
ghost use Rattle.fresh_opening.specs.Looks.{sight_by, AreDropped, LookGives, LooksDone, LooksEnd};

use crate::FreshError;
use bay_core::{Bay, FileInfo};
use drive_journal::{Look, LookError, State, look};
use path_text::Scratch;
use report_text::{Line, line_into};
use std::alloc::Global;

// What is kept of a look at a drive on which an offload may begin, or that was dropped.
#[derive(Drop)]
pub(crate) enum DriveSeen {
    // A call on it failed, and its line was said.
    Dropped,
    // It has no journal, and these files.
    Bare { listing: Vec<FileInfo> },
}

// Says that a drive was dropped. The answer is whether that was said.
fn say_dropped<B: Bay>(bay: &mut B, d: u32, line: &mut Scratch) -> bool
    ensures { Called Output (Ran (say_call (dropped_fault_text d) ∷ []) result) result (B.world bay.old) (B.world bay.new) }
{
    line_into(&Line::DroppedFault(d), line);
    bay.say(line.bytes()).is_ok()
}

// Looks at a drive; one on which a call fails is dropped, and that is said.
fn look_aloud<B: Bay>(
    alloc: Global,
    bay: &mut B,
    d: u32,
    line: &mut Scratch,
) -> Result<DriveSeen, FreshError>
    requires { d < (B.world bay.old).attached.drives }
    ensures { LookGives d result (B.world bay.old) (B.world bay.new) }
{
    let Look { state, listing } = match look(alloc, bay, d) {
        Ok(found) => found,
        Err(LookError::DriveFailed) => {
            if say_dropped(bay, d, line) {
                return Ok(DriveSeen::Dropped);
            }
            return Err(FreshError::OutFailed);
        }
        Err(LookError::NotAJournal { at }) => return Err(FreshError::NotAJournal { d, at }),
        Err(LookError::Memory) => return Err(FreshError::Memory),
    };
    match state {
        State::Fresh => Ok(DriveSeen::Bare { listing }),
        State::Begun { .. } | State::Sealed { .. } => Err(FreshError::AlreadyBegun { d }),
    }
}

// Whether each drive was dropped.
fn all_dropped(seen: &[DriveSeen]) -> bool
    ensures { MatchBool result (AreDropped (map sight_by seen.now)) (AreDropped (map sight_by seen.now) → ⊥) }
{
    for drive in seen {
        if let DriveSeen::Bare { .. } = drive {
            return false;
        }
    }
    true
}

// Looks at so many drives in turn, from the first on. One on which a call fails is dropped, and that is said. It ends at the
// first drive that has a journal, and where no drive is left.
pub(crate) fn look_at_each<B: Bay>(
    alloc: Global,
    bay: &mut B,
    first: u32,
    count: u32,
) -> Result<Vec<DriveSeen>, FreshError>
    requires few { first + count ≤ 8 }
    requires attached { first + count ≤ (B.world bay.old).attached.drives }
    ensures { MatchResult result (λ seen. LooksDone first count seen.items (B.world bay.old) (B.world bay.new)) (λ e. LooksEnd first count e (B.world bay.old) (B.world bay.new)) }
{
    let mut line = Scratch::new(alloc)?;
    let mut seen = Vec::new(alloc);
    for d in first..first + count {
        seen.push(look_aloud(alloc, bay, d, &mut line)?)?;
    }
    if all_dropped(&seen) {
        return Err(FreshError::NoDrive);
    }
    Ok(seen)
}
