// Listings and cards in memory, with what is answered for them.
ghost use Rattle.std.specs.Prelude.{◌<◌, IfOk};
ghost use Rattle.bay_mem.specs.State.{world_of};

use bay_core::{Bay, FileInfo, NameText};
use bay_mem::{MemBay, MemMap};
use card_inventory::{InventoryError, inventory, inventory_of};
use copy_plan::Inventory;
use path_text::PathError;
use std::alloc::{AllocError, Global};
use std::test::Fail;

// A file of a listing: its name, its size and its date.
type Row<'a> = (&'a str, u64, u64);

// 2^48 bytes.
const BIG: u64 = 281_474_976_710_656;

// The second after the year 9999.
const LATE: u64 = 253_402_300_800;

fn listing(alloc: Global, rows: &[Row]) -> Result<Vec<FileInfo>, AllocError> {
    let mut files = Vec::new(alloc);
    for (path, size, modified) in rows {
        files.push(FileInfo {
            path: NameText::of(alloc, path)?,
            size: *size,
            modified: *modified,
        })?;
    }
    Ok(files)
}

// What was answered, in words.
fn told(alloc: Global, answer: Result<Inventory, InventoryError>) -> Result<String, Fail> {
    let inventory = match answer {
        Ok(inventory) => inventory,
        Err(error) => return said(alloc, error),
    };
    let mut text = String::from_str(alloc, "files")?;
    for file in inventory.files() {
        let (size, date) = (file.size, file.modified.seconds());
        text.push_str(format!(in alloc; " {} {size} {date}", file.path.as_str())?.as_str())?;
    }
    Ok(text)
}

fn said(alloc: Global, error: InventoryError) -> Result<String, Fail> {
    let text = match error {
        InventoryError::SourceFailed => String::from_str(alloc, "failed")?,
        InventoryError::EmptyCard => String::from_str(alloc, "empty")?,
        InventoryError::TooManyFiles { count } => format!(in alloc; "count {count}")?,
        InventoryError::BadPath { index, cause } => format!(in alloc; "path {index}: {cause}")?,
        InventoryError::BadDate { path } => format!(in alloc; "date {}", path.as_str())?,
        InventoryError::TooManyBytes { sum } => format!(in alloc; "bytes {sum}")?,
        InventoryError::Control { path } => format!(in alloc; "control {}", path.as_str())?,
        InventoryError::TooBig { path } => format!(in alloc; "big {}", path.as_str())?,
        InventoryError::Clash { first, second } => {
            format!(in alloc; "clash {} {}", first.as_str(), second.as_str())?
        }
        InventoryError::Memory => String::from_str(alloc, "memory")?,
    };
    Ok(text)
}

#[test]
fn a_listing_has_an_inventory_or_a_first_refusal(rt: HostRuntime) -> Result<(), Fail> {
    let table: [(&[Row], &str); 14] = [
        (
            &[("b.mov", 0, 7), ("a/b", BIG - 1, LATE - 1), ("a-b", 3, 0)],
            "files a-b 3 0 a/b 281474976710655 253402300799 b.mov 0 7",
        ),
        (&[], "empty"),
        (&[("a\nb", 0, 0)], "path 0: a refused character at 1"),
        (
            &[("z", 0, 0), ("a//b", 0, LATE), ("/a", 0, 0)],
            "path 1: an empty part at 2",
        ),
        (&[("z", 0, LATE), ("a/../b", 0, 0)], "date z"),
        (
            &[("b", BIG, LATE), ("a", 0, LATE), (".mhlstation", 0, 0)],
            "date b",
        ),
        (
            &[("a", 0, 0), ("a", 0, 0), ("", 0, 0)],
            "path 2: the path is empty",
        ),
        (
            &[("b", BIG, 0), (".mhlstation/x", BIG, 0), ("a", BIG, 0)],
            "control .mhlstation/x",
        ),
        (&[("b", BIG, 0), ("a/b", 0, 0), ("a", BIG, 0)], "big a"),
        (&[("a", 0, 0), ("a/b", 0, 0)], "clash a a/b"),
        (&[("b", 0, 0), ("a", 0, 0), ("b", 1, 1)], "clash b b"),
        (&[("a/c", 0, 0), ("a-b", 0, 0), ("a", 0, 0)], "clash a a/c"),
        (&[(".mhlstation//", 0, 0)], "path 0: an empty part at 12"),
        (&[("x & <y>.mov", 3, 5)], "files x & <y>.mov 3 5"),
    ];
    for (rows, wanted) in table {
        let files = listing(rt.alloc(), rows)?;
        let text = told(rt.alloc(), inventory_of(rt.alloc(), files))?;
        assert_eq!(rt; text.as_str(), wanted);
    }
    Ok(())
}

// So many empty files, with names of `stem` and six digits.
fn many(alloc: Global, count: u64, stem: &str) -> Result<Vec<FileInfo>, Fail> {
    let mut files = Vec::with_capacity(alloc, count as usize)?;
    for n in 0..count {
        let name = format!(in alloc; "{stem}{n:06}")?;
        files.push(FileInfo {
            path: NameText::of(alloc, name.as_str())?,
            size: 0,
            modified: 0,
        })?;
    }
    Ok(files)
}

#[test]
fn takes_so_many_files_and_bytes(rt: HostRuntime) -> Result<(), Fail> {
    let long = "a".repeat(rt.alloc(), 1018)?;
    let most = inventory_of(rt.alloc(), many(rt.alloc(), 262_144, "f")?)?;
    assert_eq!(rt; most.files().len(), 262_144);
    // The count comes before the first name, which is no path.
    let table = [
        (262_145, "/f", "count 262145"),
        (32_769, long.as_str(), "bytes 33555456"),
    ];
    for (count, stem, wanted) in table {
        let files = many(rt.alloc(), count, stem)?;
        let text = told(rt.alloc(), inventory_of(rt.alloc(), files))?;
        assert_eq!(rt; text.as_str(), wanted);
    }
    Ok(())
}

// A bay with card 0, which has these files, each with its name as its bytes.
fn card_with(alloc: Global, rows: &[(&str, u64)]) -> Result<MemBay, Fail>
    ensures { IfOk result (λ bay. 0 < (world_of bay.seen).attached.sources) }
{
    let mut card = MemMap::new(alloc);
    for (path, modified) in rows {
        card.add(path, path.as_bytes(), *modified)?;
    }
    let mut bay = MemBay::new(alloc);
    bay.add_source("C", card)?;
    bay.attach_source("C")?;
    Ok(bay)
}

#[test]
fn a_card_has_the_inventory_of_its_listing(rt: HostRuntime) -> Result<(), Fail> {
    let table: [(&[(&str, u64)], &str); 3] = [
        (&[("b.mov", 2), ("a.mov", 1)], "files a.mov 5 1 b.mov 5 2"),
        (&[], "empty"),
        (&[("a", 0), ("a/b", 0)], "clash a a/b"),
    ];
    for (rows, wanted) in table {
        let mut bay = card_with(rt.alloc(), rows)?;
        let text = told(rt.alloc(), inventory(rt.alloc(), &mut bay, 0))?;
        assert_eq!(rt; text.as_str(), wanted);
        assert_eq!(rt; bay.events().len(), 2);
    }
    Ok(())
}

#[test]
fn a_card_whose_listing_fails_is_called_failed(rt: HostRuntime) -> Result<(), Fail> {
    let mut bay = card_with(rt.alloc(), &[("a.mov", 1)])?;
    bay.fail_call(1)?;
    let text = told(rt.alloc(), inventory(rt.alloc(), &mut bay, 0))?;
    assert_eq!(rt; text.as_str(), "failed");
    Ok(())
}
