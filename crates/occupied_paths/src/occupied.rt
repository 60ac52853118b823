ghost use Rattle.std.specs.Prelude.{◌≡◌, ◌↔◌, ℕ, List, IsTrue, IsNone, IfOk, option_copied};
ghost use Rattle.std.specs.FinMap.{get};
ghost use Rattle.folder_listing.specs.Listing.{sizes_in};
ghost use Rattle.copy_plan.specs.Plan.{IsPlan, list_of};
ghost use Rattle.occupied_paths.specs.Occupied.{IsOccupied, IsListOccupied, IsFirstOccupied, IsFree};

use copy_plan::Plan;
use folder_listing::Folder;
use path_text::PathText;
use std::alloc::{AllocError, Global};

/// The first path of a plan that something in a drive's listing stands in the way of, lent by the plan: its files in
/// their order, the name of its list last. `records` is the number of records of a drive that was begun, None of a
/// fresh one: the files before the next one are not tested, and the next one may lie there itself (docs/MODEL.md, "A
/// listing").
///
/// Names of all kinds count, also those that are no valid paths. The error is want of memory; no more is taken than
/// for one look at a path.
pub fn first_occupied<'a>(
    alloc: Global,
    folder: &Folder,
    plan: &'a Plan,
    records: Option<usize>,
) -> Result<Option<&'a PathText>, AllocError>
    ensures free { IfOk result (λ found. IsNone found ↔ IsFree (get (sizes_in folder.now)) records plan.now) }
    ensures first { IfOk result (λ found. (path : List ℕ) → (option_copied found ≡ Some path) ↔ IsFirstOccupied (get (sizes_in folder.now)) records plan.now path) }
{
    for (number, file) in plan.files().iter().enumerate() {
        if is_occupied(alloc, folder, records, number, &file.path)? {
            return Ok(Some(&file.path));
        }
    }
    if is_list_occupied(alloc, folder, plan)? {
        return Ok(Some(plan.list()));
    }
    Ok(None)
}

// Whether the path of the file with this number is occupied.
fn is_occupied(
    alloc: Global,
    folder: &Folder,
    records: Option<usize>,
    number: usize,
    path: &PathText,
) -> Result<bool, AllocError>
    ensures { IfOk result (λ occupied. IsTrue occupied ↔ IsOccupied (get (sizes_in folder.now)) records number path.now) }
{
    let path = path.as_str();
    match records {
        Some(next) if number < next => Ok(false),
        Some(next) if number == next => folder.is_crossed(alloc, path),
        _ => folder.is_taken(alloc, path),
    }
}

// Whether the name of the list is occupied. It has one part, so nothing lies above it.
fn is_list_occupied(alloc: Global, folder: &Folder, plan: &Plan) -> Result<bool, AllocError>
    requires { IsPlan plan.now }
    ensures { IfOk result (λ occupied. IsTrue occupied ↔ IsListOccupied (get (sizes_in folder.now)) (list_of plan.now)) }
{
    let list = plan.list().as_str();
    folder.is_taken(alloc, list)
}
