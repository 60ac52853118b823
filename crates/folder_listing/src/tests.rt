ghost use Rattle.std.specs.Prelude.{◌≡◌, not, bytes_eq, IfOk};
ghost use Rattle.std.specs.List.{filter, list_any};
ghost use Rattle.bay_core.specs.Map.{paths};
ghost use Rattle.folder_listing.specs.Listing.{names};

use crate::Folder;
use bay_core::{FileInfo, NameText};
use std::alloc::{AllocError, Global};
use std::test::Fail;

fn listing(alloc: Global, sizes: &[(&str, u64)]) -> Result<Vec<FileInfo>, AllocError> {
    let mut files = Vec::new(alloc);
    for (path, size) in sizes {
        files.push(FileInfo {
            path: NameText::of(alloc, path)?,
            size: *size,
            modified: 0,
        })?;
    }
    Ok(files)
}

// Five names in no order, one of them twice.
fn five(alloc: Global) -> Result<Vec<FileInfo>, AllocError> {
    listing(alloc, &[("b/c", 7), ("a", 3), ("ä", 0), ("B", 5), ("a", 9)])
}

// The names of a folder that a list has not, as a caller finds them.
fn others(
    alloc: Global,
    files: Vec<FileInfo>,
    list: &[FileInfo],
) -> Result<Vec<NameText>, AllocError>
    ensures { IfOk result (λ others. others.items ≡ filter (λ q. not (list_any (bytes_eq q) (paths list.now))) (names files.items)) }
{
    let mut folder = Folder::of_files(alloc, files)?;
    for file in list {
        folder.mark(file.path.as_str());
    }
    folder.unmarked(alloc)
}

fn lines(alloc: Global, names: &[NameText]) -> Result<String, AllocError> {
    let mut lines = String::new(alloc);
    for name in names {
        lines.push_str(name.as_str())?;
        lines.push('\n')?;
    }
    Ok(lines)
}

#[test]
fn a_name_has_its_first_size(rt: HostRuntime) -> Result<(), Fail> {
    let folder = Folder::of_files(rt.alloc(), five(rt.alloc())?)?;
    let sizes = [
        ("a", Some(3)),
        ("B", Some(5)),
        ("b/c", Some(7)),
        ("ä", Some(0)),
        ("b", None),
        ("A", None),
        ("", None),
    ];
    for (path, size) in sizes {
        assert_eq!(rt; folder.size(path), size, "at {path}");
    }
    Ok(())
}

#[test]
fn names_without_a_mark_are_in_byte_order(rt: HostRuntime) -> Result<(), Fail> {
    let alloc = rt.alloc();
    let none = others(alloc, five(alloc)?, &[])?;
    assert_eq!(rt; lines(alloc, &none)?.as_str(), "B\na\nb/c\nä\n");
    let list = listing(alloc, &[("ä", 1), ("c", 2), ("a", 3), ("ä", 4)])?;
    let left = others(alloc, five(alloc)?, &list)?;
    assert_eq!(rt; lines(alloc, &left)?.as_str(), "B\nb/c\n");
    Ok(())
}

#[test]
fn what_stands_in_the_way_is_found(rt: HostRuntime) -> Result<(), Fail> {
    let alloc = rt.alloc();
    let list = "A001_2014-10-24_120000.mhl";
    // A listed name, a path, whether it is crossed, and whether it is taken.
    let table = [
        ("a", "a", false, true),
        ("a", "a/b", true, true),
        ("a/b", "a", true, true),
        ("a/b", "a/b", false, true),
        ("a", "ab", false, false),
        ("ab", "a", false, false),
        ("a-b", "a", false, false),
        ("a/\n", "a", true, true),
        ("a.mov/x\ny", "a.mov", true, true),
        ("a.mov/x\ny", "a.mov/x", false, false),
        ("A001_2014-10-24_120000.mhl", list, false, true),
        ("A001_2014-10-24_120000.mhl/x", list, true, true),
    ];
    for (name, path, crossed, taken) in table {
        let folder = Folder::of_files(alloc, listing(alloc, &[(name, 0)])?)?;
        assert_eq!(rt;
            folder.is_crossed(alloc, path)?,
            crossed,
            "{name:?} and {path:?}"
        );
        assert_eq!(rt;
            folder.is_taken(alloc, path)?,
            taken,
            "{name:?} and {path:?}"
        );
    }
    Ok(())
}

#[test]
fn neighbours_in_byte_order_are_told_apart(rt: HostRuntime) -> Result<(), Fail> {
    let alloc = rt.alloc();
    let names = [("a", 1), ("a-b", 2), ("a/b/c", 3), ("a0", 4), ("ab", 5)];
    let folder = Folder::of_files(alloc, listing(alloc, &names)?)?;
    let table = [
        ("a", true),
        ("a-b", false),
        ("a/b", true),
        ("a-", false),
        ("a0/x/y", true),
        ("aa", false),
        ("b", false),
        ("", false),
    ];
    for (path, crossed) in table {
        assert_eq!(rt; folder.is_crossed(alloc, path)?, crossed, "at {path:?}");
    }
    Ok(())
}

#[test]
fn one_listing_is_in_the_way_of_many_paths(rt: HostRuntime) -> Result<(), Fail> {
    let alloc = rt.alloc();
    let list = "A001_2014-10-24_120000.mhl";
    let below = "A001_2014-10-24_120000.mhl/x";
    let names = [
        ("a", 1),
        ("a/b", 2),
        ("ab", 3),
        ("a/\n", 4),
        (list, 5),
        (below, 6),
    ];
    let folder = Folder::of_files(alloc, listing(alloc, &names)?)?;
    // A path, whether it is crossed, and whether it is taken.
    let table = [
        ("a", true, true),
        ("a/b", true, true),
        ("a/c", true, true),
        ("a/b/c", true, true),
        ("ab", false, true),
        ("ab/c", true, true),
        ("a-b", false, false),
        ("abc", false, false),
        (list, true, true),
        (below, true, true),
        ("A001_2014-10-24_120000.mhl-x", false, false),
        ("A001_2014-10-24_120000.mh", false, false),
    ];
    for (path, crossed, taken) in table {
        assert_eq!(rt; folder.is_crossed(alloc, path)?, crossed, "at {path:?}");
        assert_eq!(rt; folder.is_taken(alloc, path)?, taken, "at {path:?}");
    }
    Ok(())
}
