ghost use Rattle.std.specs.Prelude.{◌<◌, ◌-◌, ◌^◌, ◌≤◌, IfOk};
ghost use Rattle.bay_mem.specs.State.{world_of};

use bay_core::{Bay, DriveGot, Event};
use bay_mem::{MemBay, MemMap};
use file_reading::{Content, ListReadError, ReadWholeError, list_and_read, read_whole};
use std::alloc::{AllocError, Global};
use std::test::Fail;

// A bay with drive 0, which has three bytes at a.txt and an empty file beside it, and whose reads give so many bytes at
// most.
fn bay_with(alloc: Global, cut: usize) -> Result<MemBay, Fail>
    requires { 1 ≤ cut }
    ensures { IfOk result (λ bay. 0 < (world_of bay.seen).attached.drives) }
{
    let mut map = MemMap::new(alloc);
    map.add("a.txt", b"abc", 0)?;
    map.add("b.txt", b"", 0)?;
    let mut bay = MemBay::new(alloc);
    bay.add_drive("D", map)?;
    bay.cut_reads(cut);
    bay.attach_drive("D")?;
    Ok(bay)
}

// The calls by a letter each, a failed one by a small letter.
fn calls(alloc: Global, bay: &MemBay) -> Result<String, AllocError> {
    let mut letters = String::new(alloc);
    for event in bay.events() {
        letters.push(match event {
            Event::AttachDrive { .. } => 'A',
            Event::DriveList { got: Some(_), .. } => 'L',
            Event::DriveList { .. } => 'l',
            Event::DriveRead {
                got: DriveGot::Failed,
                ..
            } => 'r',
            Event::DriveRead { .. } => 'R',
            _ => '?',
        })?;
    }
    Ok(letters)
}

// What a content is, in a word.
fn word(content: &Content) -> &str {
    match content {
        Content::Bytes(bytes) if bytes.as_slice() == b"abc".as_slice() => "abc",
        Content::Bytes(bytes) if bytes.is_empty() => "empty",
        Content::Bytes(_) => "other",
        Content::Unlisted => "unlisted",
        Content::Absent => "absent",
        Content::TooLarge { len: 3 } => "three",
        Content::TooLarge { .. } => "large",
    }
}

#[test]
fn a_drive_is_listed_and_a_file_read(rt: HostRuntime) -> Result<(), Fail> {
    let alloc = rt.alloc();
    let rows = [
        ("a.txt", 3, 9, "abc", "ALRR"),
        ("a.txt", 9, 1, "abc", "ALRRRR"),
        ("a.txt", 2, 9, "three", "AL"),
        ("b.txt", 0, 9, "empty", "ALR"),
        ("c.txt", 9, 9, "unlisted", "AL"),
    ];
    for (path, limit, cut, wanted, letters) in rows {
        let mut bay = bay_with(alloc, cut)?;
        match list_and_read(alloc, &mut bay, 0, path, limit) {
            Ok(found) => {
                assert_eq!(rt; word(&found.content), wanted);
                assert_eq!(rt; found.files.len(), 2);
            }
            Err(e) => assert!(rt; false, "{e:?}"),
        }
        assert_eq!(rt; calls(alloc, &bay)?.as_str(), letters);
    }
    Ok(())
}

#[test]
fn it_stops_at_a_failed_call(rt: HostRuntime) -> Result<(), Fail> {
    let alloc = rt.alloc();
    for (n, letters) in [(1, "Al"), (2, "ALr"), (3, "ALRr")] {
        let mut bay = bay_with(alloc, 9)?;
        bay.fail_call(n)?;
        let found = list_and_read(alloc, &mut bay, 0, "a.txt", 9);
        assert!(rt; matches!(found, Err(ListReadError::DriveFailed)));
        assert_eq!(rt; calls(alloc, &bay)?.as_str(), letters);
    }
    Ok(())
}

#[test]
fn a_file_is_read_without_a_listing(rt: HostRuntime) -> Result<(), Fail> {
    let alloc = rt.alloc();
    let mut bay = bay_with(alloc, 2)?;
    match read_whole(alloc, &mut bay, 0, "a.txt", 0, 3) {
        Ok(bytes) => assert_eq!(rt; bytes.as_slice(), b"abc".as_slice()),
        Err(e) => assert!(rt; false, "{e:?}"),
    }
    let long = read_whole(alloc, &mut bay, 0, "a.txt", 2, 2);
    assert!(rt; matches!(long, Err(ReadWholeError::TooLong)));
    let absent = read_whole(alloc, &mut bay, 0, "c.txt", 2, 2);
    assert!(rt; matches!(absent, Err(ReadWholeError::Absent)));
    assert_eq!(rt; calls(alloc, &bay)?.as_str(), "ARRRRRR");
    Ok(())
}
