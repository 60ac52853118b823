ghost use Rattle.std.specs.Prelude.{◌<◌, IfOk};
ghost use Rattle.bay_mem.specs.State.{world_of};

use bay_core::Bay;
use bay_mem::{MemBay, MemMap};
use digest_set::{Fan, triple_of, unhex_into};
use drive_journal::{Gate, Rec, open_gate, place, publish, tidy};
use path_text::{Moment, PathText, is_control};
use std::alloc::Global;
use std::process::Abort;
use std::test::Fail;

const NEW: &str = ".mhlstation/new";

const PART: &str = ".mhlstation/part";

const JOURNAL: &str = ".mhlstation/journal";

// The record of an empty file, hashed at 2014-10-24T12:00:00Z, with the closed gate behind it.
const RECORD: &[u8; 130] = b"000000000000000000000000\
    d41d8cd98f00b204e9800998ecf8427e\
    da39a3ee5e6b4b0d3255bfef95601890afd80709\
    ef46db3751d8e999\
    00000000544a3f4000";

// A bay with drive 0, which has these files.
fn drive_with(alloc: Global, files: &[(&str, &str)]) -> Result<MemBay, Fail>
    ensures { IfOk result (λ bay. 0 < (world_of bay.seen).attached.drives) }
{
    let mut map = MemMap::new(alloc);
    for (path, bytes) in files {
        map.add(path, bytes.as_bytes(), 0)?;
    }
    let mut bay = MemBay::new(alloc);
    bay.add_drive("D", map)?;
    bay.attach_drive("D")?;
    Ok(bay)
}

// Fails unless a map has just these bytes at a path.
fn expect_file(rt: &impl Abort, map: &MemMap, path: &str, bytes: Option<&[u8]>) {
    match (map.get(path), bytes) {
        (Some(got), Some(bytes)) => assert_eq!(rt; got, bytes, "{path}"),
        (None, None) => {}
        _ => panic!(rt; "another file at {path}"),
    }
}

// The record of file 0, which is empty, hashed at 2014-10-24T12:00:00Z.
fn empty_record() -> Option<Rec> {
    Some(Rec {
        index: 0,
        size: 0,
        triple: triple_of(Fan::start()),
        hashed: Moment::new(1_414_152_000)?,
    })
}

#[test]
fn a_stop_leaves_a_published_file_whole(rt: HostRuntime) -> Result<(), Fail> {
    let mut bay = drive_with(rt.alloc(), &[("list", "old")])?;
    publish(&mut bay, 0, "list", b"fresh")?;
    // The calls before the stop, how the change that was pending went, the file, and the one that waits for its name.
    let rows: [(usize, u32, &[u8], Option<&[u8]>); 9] = [
        (1, 0, b"old", None),
        (2, 0, b"old", None),
        (2, 1, b"old", Some(b"fresh")),
        (2, 2, b"old", Some(&[0; 5])),
        (3, 0, b"old", Some(b"fresh")),
        (4, 0, b"old", Some(b"fresh")),
        (4, 1, b"fresh", None),
        (4, 2, b"fresh", Some(b"fresh")),
        (5, 0, b"fresh", None),
    ];
    for (upto, choice, list, new) in rows {
        let left = bay.image(0, upto, &[choice])?;
        expect_file(&rt, &left, "list", Some(list));
        expect_file(&rt, &left, NEW, new);
    }
    Ok(())
}

// A bay whose drive 0 has the file a.mov in its place, and its record behind the gate at 4.
fn placed(rt: &impl Abort, alloc: Global, rec: &Rec) -> Result<MemBay, Fail>
    ensures { IfOk result (λ bay. 0 < (world_of bay.seen).attached.drives) }
{
    let path = PathText::read(alloc, "a.mov")?;
    assert!(rt; !is_control(&path));
    assert_eq!(rt; rec.index, 0);
    let mut bay = drive_with(alloc, &[(PART, "abc"), (JOURNAL, "PLAN\0")])?;
    place(&mut bay, 0, &Gate { at: 4, index: 0 }, &path, rec)?;
    Ok(bay)
}

// A journal with that record behind a gate.
fn journal(alloc: Global, gate: u8) -> Result<Vec<u8>, Fail> {
    let mut record = [0; 65];
    if !unhex_into(RECORD, &mut record) {
        return Err("no digits".into());
    }
    let mut bytes = b"PLAN".to_vec(alloc)?;
    bytes.push(gate)?;
    bytes.extend_from_slice(&record)?;
    Ok(bytes)
}

#[test]
fn a_file_is_placed_before_its_gate_is_opened(rt: HostRuntime) -> Result<(), Fail> {
    let alloc = rt.alloc();
    let rec = empty_record().ok_or("no moment")?;
    let mut bay = placed(&rt, alloc, &rec)?;
    let next = open_gate(&mut bay, 0, Gate { at: 4, index: 0 })?;
    assert_eq!(rt; (next.at, next.index), (69, 1));
    let closed = bay.image(0, 4, &[])?;
    expect_file(&rt, &closed, "a.mov", Some(b"abc"));
    expect_file(&rt, &closed, PART, None);
    expect_file(&rt, &closed, JOURNAL, Some(&journal(alloc, 0)?));
    let open = bay.image(0, 6, &[])?;
    expect_file(&rt, &open, JOURNAL, Some(&journal(alloc, 1)?));
    Ok(())
}

// What is left after a tidy of a drive that has a file of each kind.
fn tidied(alloc: Global, also: Option<&PathText>, keep_part: bool) -> Result<MemMap, Fail> {
    let mut bay = drive_with(alloc, &[(NEW, "n"), (PART, "p"), ("a.mov", "m")])?;
    tidy(&mut bay, 0, also, keep_part)?;
    Ok(bay.image(0, 4, &[1, 1, 1])?)
}

#[test]
fn scratch_files_are_removed(rt: HostRuntime) -> Result<(), Fail> {
    let alloc = rt.alloc();
    let path = PathText::read(alloc, "a.mov")?;
    // One more path, whether the part is kept, and whether the part and that path are left.
    let rows: [(Option<&PathText>, bool, Option<&[u8]>, Option<&[u8]>); 4] = [
        (None, false, None, Some(b"m")),
        (None, true, Some(b"p"), Some(b"m")),
        (Some(&path), false, None, None),
        (Some(&path), true, Some(b"p"), None),
    ];
    for (also, keep_part, part, file) in rows {
        let left = tidied(alloc, also, keep_part)?;
        expect_file(&rt, &left, NEW, None);
        expect_file(&rt, &left, PART, part);
        expect_file(&rt, &left, "a.mov", file);
    }
    Ok(())
}
