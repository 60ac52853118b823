//! The inventory of a listing.
ghost use Rattle.std.specs.Prelude.{◌≡◌, map, IfOk, IfErr, OnOk};
ghost use Rattle.std.specs.List.{All};
ghost use Rattle.card_inventory.specs.Listed.{planned, IsGood, FileFails, FilesFail, ListingGives};

use crate::InventoryError;
use bay_core::FileInfo;
use copy_plan::{Inventory, MOST_FILES, PlannedFile};
use path_text::{Moment, PathError, PathText};
use std::alloc::Global;

/// The inventory of the files of a listing, which may stand in any order. The refusals are tested in the order of
/// [`InventoryError`]: the number of files before anything else; then each file in the order of the listing, its path
/// before its date; then those of [`Inventory::build`].
pub fn inventory_of(alloc: Global, files: Vec<FileInfo>) -> Result<Inventory, InventoryError>
    ensures { ListingGives files.items result }
{
    if files.len() > MOST_FILES as usize {
        return Err(InventoryError::TooManyFiles {
            count: files.len() as u64,
        });
    }
    let files = planned_files(alloc, files)?;
    Ok(Inventory::build(files)?)
}

// The files of a listing as a plan names them, in the order of the listing.
fn planned_files(alloc: Global, files: Vec<FileInfo>) -> Result<Vec<PlannedFile>, InventoryError>
    ensures files { IfOk result (λ plan. plan.items ≡ map planned files.items) }
    ensures good { OnOk result (All IsGood files.items) }
    ensures first { IfErr result (FilesFail files.items) }
{
    let mut plan = Vec::with_capacity(alloc, files.len())?;
    for file in files {
        let index = plan.len() as u64;
        plan.push(planned_file(alloc, index, file)?)?;
    }
    Ok(plan)
}

// A file of a listing, which stands there at `index`, as a plan names it.
fn planned_file(alloc: Global, index: u64, file: FileInfo) -> Result<PlannedFile, InventoryError>
    ensures file { IfOk result (λ plan. plan ≡ planned file) }
    ensures good { OnOk result (IsGood file) }
    ensures fault { IfErr result (FileFails index file) }
{
    let path = match PathText::read(alloc, file.path.as_str()) {
        Ok(path) => path,
        Err(PathError::Memory) => return Err(InventoryError::Memory),
        Err(cause) => return Err(InventoryError::BadPath { index, cause }),
    };
    let Some(modified) = Moment::new(file.modified) else {
        return Err(InventoryError::BadDate { path });
    };
    Ok(PlannedFile {
        path,
        size: file.size,
        modified,
    })
}
