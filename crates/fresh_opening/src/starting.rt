// Where the drives of an order begin.
ghost use Rattle.std.specs.Prelude.{◌≡◌, ◌+◌, ◌≤◌, length, map, replicate, IfOk, MatchResult};
ghost use Rattle.drive_journal.specs.declared.order.DriveStart.TheVariants.{Gone};
ghost use Rattle.fresh_opening.specs.Looks.{sight_by};
ghost use Rattle.fresh_opening.specs.Openings.{StartGives, StartsAre, StartsFail};

use crate::FreshError;
use crate::looking::DriveSeen;
use copy_plan::Plan;
use drive_journal::DriveStart;
use folder_listing::Folder;
use occupied_paths::first_occupied;
use std::alloc::{AllocError, Global};

// Drives that are not of the run, before the first that is.
fn drives_before(alloc: Global, first: u32) -> Result<Vec<DriveStart>, AllocError>
    ensures { IfOk result (λ starts. starts.items ≡ replicate first Gone) }
{
    let mut starts = Vec::new(alloc);
    for _ in 0..first {
        starts.push(DriveStart::Gone)?;
    }
    Ok(starts)
}

// Where drive d begins, if nothing on it stands in the way of the plan.
fn drive_start(
    alloc: Global,
    d: u32,
    plan: &Plan,
    seen: DriveSeen,
) -> Result<DriveStart, FreshError>
    ensures { StartGives d plan.now (sight_by seen) result }
{
    let listing = match seen {
        DriveSeen::Dropped => return Ok(DriveStart::Gone),
        DriveSeen::Bare { listing } => listing,
    };
    let folder = Folder::of_files(alloc, listing)?;
    match first_occupied(alloc, &folder, plan, None)? {
        Some(path) => Err(FreshError::Occupied {
            d,
            path: path.copy(alloc)?,
        }),
        None => Ok(DriveStart::Fresh),
    }
}

// Where each drive begins, of which the first has this number.
pub(crate) fn drive_starts(
    alloc: Global,
    first: u32,
    plan: &Plan,
    seen: Vec<DriveSeen>,
) -> Result<Vec<DriveStart>, FreshError>
    requires { first + length seen.items ≤ 8 }
    ensures { MatchResult result (λ starts. StartsAre first plan.now (map sight_by seen.items) starts.items) (StartsFail first plan.now (map sight_by seen.items)) }
{
    let mut starts = drives_before(alloc, first)?;
    for drive in seen {
        let d = starts.len() as u32;
        starts.push(drive_start(alloc, d, plan, drive)?)?;
    }
    Ok(starts)
}
