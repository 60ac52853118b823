// Lists byte for byte on a drive in memory, each call that fails, and bytes that are shown falsely.
ghost use Rattle.std.specs.Prelude.{◌≡◌, ◌<◌, IfOk, length};
ghost use Rattle.bay_mem.specs.State.{world_of};

use bay_core::Bay;
use bay_mem::{MemBay, MemMap};
use block_pool::Pool;
use copy_plan::{Inventory, Plan, PlannedFile};
use digest_set::{Fan, triple_of};
use drive_journal::Rec;
use path_text::{Kinds, Label, Moment, PathText, Scratch};
use seal_step::{SealError, seal};
use std::alloc::Global;
use std::process::Abort;
use std::test::Fail;

// 2014-10-24, at 00:00:00Z and at 12:00:00Z.
const MIDNIGHT: u64 = 1_414_108_800;

const NOON: u64 = 1_414_152_000;

const LIST: &str = "A001_2014-10-24_120000.mhl";

const NEW: &str = ".mhlstation/new";

const HEAD: &str = "<?xml version=\"1.0\" encoding=\"UTF-8\"?>
<hashlist version=\"1.1\">
  <creatorinfo>
    <name>A001</name>
    <username>ana</username>
    <hostname>cart1</hostname>
    <tool>mhlstation 1</tool>
    <startdate>2014-10-24T12:00:00Z</startdate>
    <finishdate>2014-10-24T12:00:00Z</finishdate>
  </creatorinfo>
";

// An empty file with all three digests, as `md5sum`, `sha1sum` and `xxhsum -H64` print them.
const EMPTY: &str = "  <hash>
    <file>e.mov</file>
    <size>0</size>
    <lastmodificationdate>2014-10-24T00:00:00Z</lastmodificationdate>
    <md5>d41d8cd98f00b204e9800998ecf8427e</md5>
    <sha1>da39a3ee5e6b4b0d3255bfef95601890afd80709</sha1>
    <xxhash64be>ef46db3751d8e999</xxhash64be>
    <hashdate>2014-10-24T12:00:00Z</hashdate>
  </hash>
";

// That file with its SHA-1 alone, and with its XXH64 alone.
const EMPTY_SHA1: &str = "  <hash>
    <file>e.mov</file>
    <size>0</size>
    <lastmodificationdate>2014-10-24T00:00:00Z</lastmodificationdate>
    <sha1>da39a3ee5e6b4b0d3255bfef95601890afd80709</sha1>
    <hashdate>2014-10-24T12:00:00Z</hashdate>
  </hash>
";

const EMPTY_XXH: &str = "  <hash>
    <file>e.mov</file>
    <size>0</size>
    <lastmodificationdate>2014-10-24T00:00:00Z</lastmodificationdate>
    <xxhash64be>ef46db3751d8e999</xxhash64be>
    <hashdate>2014-10-24T12:00:00Z</hashdate>
  </hash>
";

// A file with the bytes abc and its MD5 alone.
const ABC: &str = "  <hash>
    <file>a.mov</file>
    <size>3</size>
    <lastmodificationdate>2014-10-24T00:00:00Z</lastmodificationdate>
    <md5>900150983cd24fb0d6963f7d28e17f72</md5>
    <hashdate>2014-10-24T12:00:00Z</hashdate>
  </hash>
";

const TAIL: &str = "</hashlist>\n";

// The lengths of these: the line that begins the XML has 39 bytes, the others of the head 25, 16, 22, 29, 31, 30, 48, 50 and
// 17; those of that entry have 9, 23, 19, 70, 48, 46 and 10, and that of the tail has 12.
const HEAD_BYTES: usize = 307;

const ABC_BYTES: usize = 225;

const LIST_BYTES: u64 = 544;

const ALL: Kinds = Kinds {
    md5: true,
    sha1: true,
    xxh: true,
};

const MD5: Kinds = Kinds {
    md5: true,
    sha1: false,
    xxh: false,
};

const SHA1: Kinds = Kinds {
    md5: false,
    sha1: true,
    xxh: false,
};

const XXH: Kinds = Kinds {
    md5: false,
    sha1: false,
    xxh: true,
};

// A plan of these files, which have the same bytes, and a record of each.
#[derive(Drop)]
struct Work {
    plan: Plan,
    entries: Vec<Rec>,
}

fn work_on(alloc: Global, paths: Vec<PathText>, bytes: &[u8], kinds: Kinds) -> Result<Work, Fail> {
    if !kinds.any() {
        return Err("no kind".into());
    }
    let noon = Moment::new(NOON).ok_or("a moment")?;
    let mut fan = Fan::start();
    fan.feed(bytes);
    let triple = triple_of(fan);
    let size = bytes.len() as u64;
    let mut files = Vec::new(alloc);
    let mut entries = Vec::new(alloc);
    let mut index = 0u32;
    for path in paths {
        let modified = Moment::new(MIDNIGHT).ok_or("a moment")?;
        files.push(PlannedFile {
            path,
            size,
            modified,
        })?;
        entries.push(Rec {
            index,
            size,
            triple,
            hashed: noon,
        })?;
        index = index.saturating_add(1);
    }
    let plan = Plan::make(
        alloc,
        Label::read("A001")?,
        Label::read("ana")?,
        Label::read("cart1")?,
        noon,
        kinds,
        None,
        Inventory::build(files)?,
    )?;
    Ok(Work { plan, entries })
}

// The work of one file.
fn one(alloc: Global, path: &str, bytes: &[u8], kinds: Kinds) -> Result<Work, Fail> {
    let mut paths = Vec::new(alloc);
    paths.push(PathText::read(alloc, path)?)?;
    work_on(alloc, paths, bytes, kinds)
}

// A bay with drive 0, which has these files, and whose reads give so many bytes at most.
fn drive_with(alloc: Global, files: MemMap, cut: usize) -> Result<MemBay, Fail>
    ensures { IfOk result (λ bay. 0 < (world_of bay.seen).attached.drives) }
{
    let mut bay = MemBay::new(alloc);
    bay.add_drive("D", files)?;
    bay.cut_reads(cut.max(1));
    bay.attach_drive("D")?;
    Ok(bay)
}

// One whose drive has no file.
fn empty_drive(alloc: Global, cut: usize) -> Result<MemBay, Fail>
    ensures { IfOk result (λ bay. 0 < (world_of bay.seen).attached.drives) }
{
    drive_with(alloc, MemMap::new(alloc), cut)
}

// What sealing drive 0 answers, through a pool of one block.
fn answer(
    rt: &impl Abort,
    alloc: Global,
    bay: &mut MemBay,
    work: &Work,
) -> Result<Result<(), SealError>, Fail>
    requires { 0 < (world_of bay.old.seen).attached.drives }
    ensures { 0 < (world_of bay.new.seen).attached.drives }
{
    assert_eq!(rt; work.entries.len(), work.plan.files().len());
    let finish = Moment::new(NOON).ok_or("a moment")?;
    let mut scratch = Scratch::new(alloc)?;
    let mut pool = Pool::new(alloc, 1)?;
    let slot = pool.take().ok_or("a block is free")?;
    Ok(seal(
        bay,
        0,
        &work.plan,
        &work.entries,
        finish,
        &mut pool,
        &slot,
        &mut scratch,
    ))
}

#[test]
fn lists_are_sealed_byte_for_byte(rt: HostRuntime) -> Result<(), Fail> {
    let alloc = rt.alloc();
    let rows = [
        ("e.mov", b"".as_slice(), ALL, EMPTY, 1),
        ("e.mov", b"".as_slice(), ALL, EMPTY, 65535),
        ("e.mov", b"".as_slice(), SHA1, EMPTY_SHA1, 65535),
        ("e.mov", b"".as_slice(), XXH, EMPTY_XXH, 65535),
        ("a.mov", b"abc".as_slice(), MD5, ABC, 1000),
    ];
    for (path, bytes, kinds, entry, cut) in rows {
        let work = one(alloc, path, bytes, kinds)?;
        let mut bay = empty_drive(alloc, cut)?;
        assert_eq!(rt; answer(&rt, alloc, &mut bay, &work)?, Ok(()));
        let left = bay.image(0, usize::MAX, &[])?;
        let text = format!(in alloc; "{HEAD}{entry}{TAIL}")?;
        assert_eq!(rt; left.get(LIST), Some(text.as_bytes()));
        assert_eq!(rt; left.len(), 1);
    }
    Ok(())
}

#[test]
fn each_call_fails_once(rt: HostRuntime) -> Result<(), Fail> {
    let alloc = rt.alloc();
    let work = one(alloc, "a.mov", b"abc", MD5)?;
    let text = format!(in alloc; "{HEAD}{ABC}{TAIL}")?;
    // Three parts are written, a barrier, one read and one byte more asked for, the name, and a barrier. The images take
    // a change that failed as done.
    for n in 1..=9 {
        let mut bay = empty_drive(alloc, 9999)?;
        bay.fail_call(n)?;
        let wanted = if n == 9 {
            Ok(())
        } else {
            Err(SealError::DriveFailed)
        };
        assert_eq!(rt; answer(&rt, alloc, &mut bay, &work)?, wanted);
        let left = bay.image(0, usize::MAX, &[1])?;
        let list = if n < 7 { None } else { Some(text.as_bytes()) };
        assert_eq!(rt; left.get(LIST), list, "at {n}");
    }
    Ok(())
}

#[test]
fn a_byte_that_is_shown_falsely_is_found(rt: HostRuntime) -> Result<(), Fail> {
    let alloc = rt.alloc();
    let work = one(alloc, "a.mov", b"abc", MD5)?;
    // The entry begins at 307 with two spaces and `<hash>`, and the tail at 532 with `</`.
    for (at, written, read) in [(0, b'<', b'='), (310, b'h', b'i'), (533, b'/', b'.')] {
        let mut bay = empty_drive(alloc, 100)?;
        bay.flip(0, NEW, at)?;
        let found = Err(SealError::Byte { at, written, read });
        assert_eq!(rt; answer(&rt, alloc, &mut bay, &work)?, found);
        let left = bay.image(0, usize::MAX, &[])?;
        assert!(rt; left.get(LIST).is_none());
    }
    Ok(())
}

#[test]
fn a_list_of_more_than_three_blocks(rt: HostRuntime) -> Result<(), Fail> {
    let alloc = rt.alloc();
    let mut paths = Vec::new(alloc);
    let mut text = HEAD.to_owned(alloc)?;
    for n in 0..200 {
        let name = format!(in alloc; "{n:0900}.mov")?;
        paths.push(PathText::read(alloc, &name)?)?;
        let entry = ABC.replace(alloc, "a.mov", &name)?;
        text.push_str(&entry)?;
    }
    text.push_str(TAIL)?;
    // The head and the tail have 319 bytes, and each entry has 225 - 5 + 904: more than three blocks, which have 196,608.
    assert_eq!(rt; text.len(), 225_119);
    let work = work_on(alloc, paths, b"abc", MD5)?;
    for cut in [1, 1000, 65535] {
        let mut bay = empty_drive(alloc, cut)?;
        assert_eq!(rt; answer(&rt, alloc, &mut bay, &work)?, Ok(()));
        let left = bay.image(0, usize::MAX, &[])?;
        assert!(rt; left.get(LIST) == Some(text.as_bytes()));
    }
    Ok(())
}

// So many bytes were read in the place of that list.
fn length(read: u64) -> Result<(), SealError> {
    Err(SealError::Length {
        written: LIST_BYTES,
        read,
    })
}

#[test]
fn a_longer_file_waited_for_its_name(rt: HostRuntime) -> Result<(), Fail> {
    let alloc = rt.alloc();
    let work = one(alloc, "a.mov", b"abc", MD5)?;
    let mut files = MemMap::new(alloc);
    files.add(NEW, &[b'x'; 600], 0)?;
    let mut bay = drive_with(alloc, files, 100)?;
    // The list is written over its first 544 bytes, and one byte of the others is read.
    assert_eq!(rt; answer(&rt, alloc, &mut bay, &work)?, length(545));
    let left = bay.image(0, usize::MAX, &[])?;
    assert!(rt; left.get(LIST).is_none());
    assert_eq!(rt; left.len(), 1);
    Ok(())
}

// One image: how many calls were made, the number of each change since the last barrier, what the file that waits for its
// name has then, and whether the list has its name.
type Stop<'a> = (usize, [u32; 3], Option<&'a [u8]>, bool);

// Compares the images of drive 0 with what they must be. Under the list's name stood `had`.
fn compare_images(
    rt: &impl Abort,
    bay: &MemBay,
    stops: &[Stop<'_>],
    text: &[u8],
    had: Option<&[u8]>,
) -> Result<(), Fail>
    requires { 0 < (world_of bay.now.seen).attached.drives }
{
    for (calls, choice, waiting, is_named) in stops {
        let left = bay.image(0, *calls, choice)?;
        let list = if *is_named { Some(text) } else { had };
        assert_eq!(rt; left.get(LIST), list, "after {calls} {choice:?}");
        assert_eq!(rt; left.get(NEW), *waiting, "after {calls} {choice:?}");
        assert_eq!(rt; left.get("a.mov"), Some(b"abc".as_slice()));
        let others = usize::from(list.is_some()) + usize::from(waiting.is_some());
        assert_eq!(rt; left.len(), 1 + others, "after {calls} {choice:?}");
    }
    Ok(())
}

#[test]
fn each_stop_leaves_the_list_whole_or_what_was_there(rt: HostRuntime) -> Result<(), Fail> {
    let alloc = rt.alloc();
    let work = one(alloc, "a.mov", b"abc", MD5)?;
    let text = format!(in alloc; "{HEAD}{ABC}{TAIL}")?;
    let text = text.as_bytes();
    let mut hole = vec![in alloc; 0u8; HEAD_BYTES]?;
    hole.extend_from_slice(ABC.as_bytes())?;
    let mut no_entry = HEAD.as_bytes().to_vec(alloc)?;
    no_entry.extend_from_slice(&[0; ABC_BYTES])?;
    no_entry.extend_from_slice(TAIL.as_bytes())?;
    let mut torn_entry = HEAD.as_bytes().to_vec(alloc)?;
    torn_entry.extend_from_slice(&[b'x'; ABC_BYTES])?;
    // The drive is attached; three parts are written; a barrier; the list is read, and one byte more is asked for; the
    // name; a barrier. That makes nine. Of a change that is not settled 0 leaves nothing, 1 leaves it whole; 2 and
    // 3 * 120 are bytes x in the place of what was written, and 2 is the file under both names.
    let stops = [
        (0, [1, 1, 1], None, false),
        (1, [1, 1, 1], None, false),
        (2, [0, 1, 1], None, false),
        (2, [1, 0, 0], Some(HEAD.as_bytes()), false),
        (2, [362, 0, 0], Some([b'x'; HEAD_BYTES].as_slice()), false),
        (3, [0, 0, 1], None, false),
        (3, [0, 1, 0], Some(hole.as_slice()), false),
        (3, [1, 0, 0], Some(HEAD.as_bytes()), false),
        (3, [1, 1, 0], Some(&text[..HEAD_BYTES + ABC_BYTES]), false),
        (3, [1, 362, 0], Some(torn_entry.as_slice()), false),
        (4, [0, 0, 0], None, false),
        (4, [1, 0, 1], Some(no_entry.as_slice()), false),
        (4, [1, 1, 1], Some(text), false),
        (5, [0, 0, 0], Some(text), false),
        (5, [362, 362, 362], Some(text), false),
        (6, [0, 0, 0], Some(text), false),
        (7, [0, 0, 0], Some(text), false),
        (8, [0, 0, 0], Some(text), false),
        (8, [1, 0, 0], None, true),
        (8, [2, 0, 0], Some(text), true),
        (9, [0, 0, 0], None, true),
        (9, [2, 2, 2], None, true),
    ];
    for had in [None, Some(b"old".as_slice())] {
        let mut files = MemMap::new(alloc);
        files.add("a.mov", b"abc", MIDNIGHT)?;
        if let Some(bytes) = had {
            files.add(LIST, bytes, MIDNIGHT)?;
        }
        let mut bay = drive_with(alloc, files, 9999)?;
        assert_eq!(rt; answer(&rt, alloc, &mut bay, &work)?, Ok(()));
        assert_eq!(rt; bay.events().len(), 9);
        compare_images(&rt, &bay, &stops, text, had)?;
    }
    Ok(())
}
