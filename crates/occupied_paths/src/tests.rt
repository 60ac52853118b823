ghost use Rattle.std.specs.Prelude.{◌≡◌, ◌↔◌, ℕ, List, IsNone, IfOk};
ghost use Rattle.std.specs.FinMap.{get};
ghost use Rattle.folder_listing.specs.Listing.{listing};
ghost use Rattle.occupied_paths.specs.Occupied.{IsFirstOccupied, IsFree};

use crate::first_occupied;
use bay_core::{FileInfo, NameText};
use copy_plan::{Inventory, Plan, PlannedFile};
use folder_listing::Folder;
use path_text::{Kinds, Label, Moment, PathText};
use std::alloc::{AllocError, Global};
use std::test::Fail;

// 2014-10-24T12:00:00Z.
const NOON: u64 = 1_414_152_000;

// The name of the list of the card A001.
const LIST: &str = "A001_2014-10-24_120000.mhl";

// The plan of these files on the card A001.
fn planned(alloc: Global, paths: &[&str]) -> Result<Plan, Fail> {
    let label = Label::read("A001")?;
    let moment = Moment::new(NOON).ok_or("a moment")?;
    let mut files = Vec::new(alloc);
    for path in paths {
        files.push(PlannedFile {
            path: PathText::read(alloc, path)?,
            size: 3,
            modified: moment,
        })?;
    }
    let kinds = Kinds {
        md5: true,
        sha1: true,
        xxh: true,
    };
    let inventory = Inventory::build(files)?;
    let plan = Plan::make(alloc, label, label, label, moment, kinds, None, inventory)?;
    Ok(plan)
}

fn listed(alloc: Global, names: &[&str]) -> Result<Vec<FileInfo>, AllocError> {
    let mut files = Vec::new(alloc);
    for name in names {
        files.push(FileInfo {
            path: NameText::of(alloc, name)?,
            size: 0,
            modified: 0,
        })?;
    }
    Ok(files)
}

// What stands in the way, as a caller refuses it by a drive's listing.
fn refused(
    alloc: Global,
    files: Vec<FileInfo>,
    plan: &Plan,
    records: Option<usize>,
) -> Result<Option<PathText>, AllocError>
    ensures free { IfOk result (λ found. IsNone found ↔ IsFree (get (listing files.items)) records plan.now) }
    ensures first { IfOk result (λ found. (path : List ℕ) → (found ≡ Some path) ↔ IsFirstOccupied (get (listing files.items)) records plan.now path) }
{
    let folder = Folder::of_files(alloc, files)?;
    match first_occupied(alloc, &folder, plan, records)? {
        Some(path) => Ok(Some(path.copy(alloc)?)),
        None => Ok(None),
    }
}

// The path that is refused for these names, or the empty text.
fn path_for(
    alloc: Global,
    plan: &Plan,
    names: &[&str],
    records: Option<usize>,
) -> Result<String, AllocError> {
    match refused(alloc, listed(alloc, names)?, plan, records)? {
        Some(path) => path.as_str().to_owned(alloc),
        None => Ok(String::new(alloc)),
    }
}

#[test]
fn a_fresh_drive_is_tested_whole(rt: HostRuntime) -> Result<(), Fail> {
    let alloc = rt.alloc();
    let plan = planned(alloc, &["a", "ab", "b/c"])?;
    let table: [(&[&str], &str); 20] = [
        (&[], ""),
        (&["a"], "a"),
        (&["a/b"], "a"),
        (&["a/\n"], "a"),
        (&["a\n", "a-b", "aa", "A"], ""),
        (&["ab"], "ab"),
        (&["ab/"], "ab"),
        (&["abc", "a0"], ""),
        (&["b"], "b/c"),
        (&["b/c"], "b/c"),
        (&["b/c/d\n/e"], "b/c"),
        (&["b/d", "b/cc", "c"], ""),
        (&["b", "ab/x", LIST], "ab"),
        (&[LIST, "b"], "b/c"),
        (&[LIST], LIST),
        (&["A001_2014-10-24_120000.mhl/x"], LIST),
        (&["A001_2014-10-24_120000.mhl/\n"], LIST),
        (
            &["A001_2014-10-24_120000.mhl-x", "A001_2014-10-24_120000.mh"],
            "",
        ),
        (&["x/A001_2014-10-24_120000.mhl"], ""),
        (
            &[".mhlstation/new", ".mhlstation/part", ".mhlstation/\n"],
            "",
        ),
    ];
    for (names, wanted) in table {
        let path = path_for(alloc, &plan, names, None)?;
        assert_eq!(rt; path.as_str(), wanted, "{names:?}");
    }
    // A drive that holds the second of two files.
    let two = planned(alloc, &["a.mov", "b.mov"])?;
    let path = path_for(alloc, &two, &["b.mov"], None)?;
    assert_eq!(rt; path.as_str(), "b.mov");
    Ok(())
}

#[test]
fn a_begun_drive_is_tested_from_its_next_file_on(rt: HostRuntime) -> Result<(), Fail> {
    let alloc = rt.alloc();
    let plan = planned(alloc, &["a", "ab", "b/c"])?;
    let table: [(&[&str], usize, &str); 21] = [
        (&[".mhlstation/journal", ".mhlstation/part"], 0, ""),
        (&["a"], 0, ""),
        (&["a", "ab"], 0, "ab"),
        (&["a", LIST], 0, LIST),
        (&["a/b"], 0, "a"),
        (&["a", "a/\n"], 0, "a"),
        (&["b/c"], 0, "b/c"),
        (&["a"], 1, ""),
        (&["a/b"], 1, ""),
        (&["a", "ab"], 1, ""),
        (&["a", "ab/x"], 1, "ab"),
        (&["a", "ab", "b"], 1, "b/c"),
        (&["a", "ab", "b/c"], 1, "b/c"),
        (&["a", "ab", "b/c"], 2, ""),
        (&["a", "ab", "b/c/d"], 2, "b/c"),
        (&["b"], 2, "b/c"),
        (&["a", "ab", LIST], 2, LIST),
        (&["a", "ab", "b/c"], 3, ""),
        (&["b", "b/c/d"], 3, ""),
        (&["a", "ab", "b/c", LIST], 3, LIST),
        (&["A001_2014-10-24_120000.mhl/x", "b"], 3, LIST),
    ];
    for (names, records, wanted) in table {
        let path = path_for(alloc, &plan, names, Some(records))?;
        assert_eq!(rt; path.as_str(), wanted, "{names:?} with {records}");
    }
    Ok(())
}

#[test]
fn one_listing_is_in_the_way_of_many_paths(rt: HostRuntime) -> Result<(), Fail> {
    let alloc = rt.alloc();
    let names = [
        "a",
        "a/b",
        "ab",
        "a/\n",
        LIST,
        "A001_2014-10-24_120000.mhl/x",
    ];
    // The one path of a plan, and what is refused on a fresh drive, and on one that was begun and has no record.
    let table = [
        ("a", "a", "a"),
        ("a/b", "a/b", "a/b"),
        ("a/c", "a/c", "a/c"),
        ("ab", "ab", LIST),
        ("ab/c", "ab/c", "ab/c"),
        ("a-b", LIST, LIST),
        ("abc", LIST, LIST),
        ("b", LIST, LIST),
    ];
    for (path, fresh, begun) in table {
        let plan = planned(alloc, &[path])?;
        let refused = path_for(alloc, &plan, &names, None)?;
        assert_eq!(rt; refused.as_str(), fresh, "{path:?}");
        let refused = path_for(alloc, &plan, &names, Some(0))?;
        assert_eq!(rt; refused.as_str(), begun, "{path:?}");
    }
    Ok(())
}
