// Files of a card, their plan, and a bay with the card and eight drives.
ghost use Rattle.std.specs.Prelude.{◌≡◌, IfOk, OnOk};
ghost use Rattle.bay_mem.specs.State.{world_of};
ghost use Rattle.run_rows.specs.Ready.{IsReady};

use bay_core::Bay;
use bay_mem::{MemBay, MemMap};
use copy_plan::{Inventory, Plan, PlannedFile};
use path_text::{Kinds, Label, Moment, PathText};
use std::alloc::{AllocError, Global};
use std::process::Abort;
use std::test::Fail;

// 2014-10-24, at 00:00:00Z and at 12:00:00Z.
pub const MIDNIGHT: u64 = 1_414_108_800;

pub const NOON: u64 = 1_414_152_000;

// The list of every plan here.
pub const LIST: &str = "A001_2014-10-24_120000.mhl";

pub const JOURNAL: &str = ".mhlstation/journal";

pub const PART: &str = ".mhlstation/part";

pub const NEW: &str = ".mhlstation/new";

// What a drive may have that no run made.
pub const NOTES: &str = "notes.txt";

pub const TO_DO: &[u8; 5] = b"to do";

// The path of a file, and its size.
pub type File = (&'static str, u64);

// The file abc alone, and with an empty one.
pub const ONE: [File; 1] = [("a.mov", 3)];

pub const TWO: [File; 2] = [("a.mov", 3), ("b.mov", 0)];

const PLACES: [&str; 8] = ["d0", "d1", "d2", "d3", "d4", "d5", "d6", "d7"];

// The bytes of a file of this size: byte j is (97 + j mod 251) mod 256, so that three bytes are abc, and that no two of the
// first 251 blocks are the same.
pub fn bytes(alloc: Global, size: u64) -> Result<Vec<u8>, AllocError> {
    let mut bytes = Vec::new(alloc);
    for j in 0..size {
        bytes.push(((97 + j % 251) % 256) as u8)?;
    }
    Ok(bytes)
}

// What a card or a drive has that has these files.
pub fn holding(alloc: Global, files: &[File]) -> Result<MemMap, AllocError> {
    let mut map = MemMap::new(alloc);
    for (path, size) in files {
        map.add(path, &bytes(alloc, *size)?, MIDNIGHT)?;
    }
    Ok(map)
}

// The plan of these files, which was started at noon.
pub fn plan(alloc: Global, files: &[File]) -> Result<Plan, Fail> {
    let modified = Moment::new(MIDNIGHT).ok_or("a moment")?;
    let mut planned = Vec::new(alloc);
    for (path, size) in files {
        planned.push(PlannedFile {
            path: PathText::read(alloc, path)?,
            size: *size,
            modified,
        })?;
    }
    let kinds = Kinds {
        md5: true,
        sha1: true,
        xxh: true,
    };
    Ok(Plan::make(
        alloc,
        Label::read("A001")?,
        Label::read("ana")?,
        Label::read("cart1")?,
        Moment::new(NOON).ok_or("a moment")?,
        kinds,
        None,
        Inventory::build(planned)?,
    )?)
}

// Adds and attaches eight drives. The first have what is given, and the others have nothing.
fn add_drives(alloc: Global, bay: &mut MemBay, drives: Vec<MemMap>) -> Result<(), Fail>
    requires card { (world_of bay.old.seen).attached.sources ≡ 1 }
    requires none { (world_of bay.old.seen).attached.drives ≡ 0 }
    ensures { OnOk result (IsReady bay.new) }
{
    let mut drives = drives.into_iter();
    for place in PLACES {
        let map = match drives.next() {
            Some(map) => map,
            None => MemMap::new(alloc),
        };
        bay.add_drive(place, map)?;
        bay.attach_drive(place)?;
    }
    Ok(())
}

// A bay with these files on its card and eight drives, all of them attached. The first drives have what is given, and the
// others have nothing. It is noon.
pub fn bay(alloc: Global, files: &[File], drives: Vec<MemMap>) -> Result<MemBay, Fail>
    ensures { IfOk result IsReady }
{
    let mut bay = MemBay::new(alloc);
    bay.clock(NOON);
    bay.add_source("card", holding(alloc, files)?)?;
    bay.attach_source("card")?;
    add_drives(alloc, &mut bay, drives)?;
    Ok(bay)
}

// From now on these calls fail, of those that can.
pub fn fail_calls(bay: &mut MemBay, calls: &[u64]) -> Result<(), Fail>
    requires { IsReady bay.old }
    ensures { OnOk result (IsReady bay.new) }
{
    for call in calls {
        bay.fail_call(*call)?;
    }
    Ok(())
}

// What one of the eight drives holds at the end, as it was settled.
pub fn left_on(bay: &MemBay, d: u32) -> Result<MemMap, Fail>
    requires { IsReady bay.now }
{
    if d >= 8 {
        return Err("there are eight drives".into());
    }
    Ok(bay.image(d, usize::MAX, &[])?)
}

// The bytes of a file; none where it is not there.
pub fn file_in<'a>(map: &'a MemMap, path: &str) -> &'a [u8] {
    match map.get(path) {
        Some(bytes) => bytes,
        None => &[],
    }
}

// Fails unless a drive has these files as the card has them, and the journal and the list that another has.
pub fn expect_whole(
    rt: &impl Abort,
    alloc: Global,
    files: &[File],
    left: &MemMap,
    other: &MemMap,
) -> Result<(), Fail> {
    for (path, size) in files {
        let bytes = bytes(alloc, *size)?;
        assert!(rt; left.get(path) == Some(bytes.as_slice()));
    }
    for path in [JOURNAL, LIST] {
        assert!(rt; left.get(path).is_some() && left.get(path) == other.get(path));
    }
    Ok(())
}
