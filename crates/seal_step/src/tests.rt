// Lists that are read again where other bytes stand than those that were written.
ghost use Rattle.std.specs.Prelude.{◌≡◌, ◌<◌, IfOk, length};
ghost use Rattle.bay_mem.specs.State.{world_of};

use crate::SealError;
use crate::drafting::write_parts;
use crate::parts::ListParts;
use crate::reading::read_list;
use bay_core::Bay;
use bay_mem::{MemBay, MemMap};
use block_pool::Pool;
use copy_plan::{Inventory, Plan, PlannedFile};
use digest_set::{Fan, triple_of};
use drive_journal::Rec;
use path_text::{Kinds, Label, Moment, PathText, Scratch};
use std::alloc::Global;
use std::process::Abort;
use std::test::Fail;

// 2014-10-24, at 00:00:00Z and at 12:00:00Z.
const MIDNIGHT: u64 = 1_414_108_800;

const NOON: u64 = 1_414_152_000;

const NEW: &str = ".mhlstation/new";

const HEAD: &str = "<?xml version=\"1.0\" encoding=\"UTF-8\"?>
<hashlist version=\"1.1\">
  <creatorinfo>
    <name>A001</name>
    <username>ana</username>
    <hostname>cart1</hostname>
    <tool>mhlstation 1</tool>
    <startdate>2014-10-24T12:00:00Z</startdate>
    <finishdate>2014-10-24T12:00:00Z</finishdate>
  </creatorinfo>
";

// A file with the bytes abc and its MD5 alone.
const ABC: &str = "  <hash>
    <file>a.mov</file>
    <size>3</size>
    <lastmodificationdate>2014-10-24T00:00:00Z</lastmodificationdate>
    <md5>900150983cd24fb0d6963f7d28e17f72</md5>
    <hashdate>2014-10-24T12:00:00Z</hashdate>
  </hash>
";

const TAIL: &str = "</hashlist>\n";

// The length of the head, and of the list: the line that begins the XML has 39 bytes, the others of the head 25, 16, 22, 29,
// 31, 30, 48, 50 and 17; those of that entry have 9, 23, 19, 70, 48, 46 and 10, and that of the tail has 12.
const HEAD_BYTES: usize = 307;

const LIST_BYTES: u64 = 544;

const MD5: Kinds = Kinds {
    md5: true,
    sha1: false,
    xxh: false,
};

// A plan of one file, which has the bytes abc, and its record.
#[derive(Drop)]
struct Work {
    plan: Plan,
    entries: Vec<Rec>,
}

fn files(alloc: Global) -> Result<Vec<PlannedFile>, Fail> {
    let mut files = Vec::new(alloc);
    files.push(PlannedFile {
        path: PathText::read(alloc, "a.mov")?,
        size: 3,
        modified: Moment::new(MIDNIGHT).ok_or("a moment")?,
    })?;
    Ok(files)
}

fn entries(alloc: Global, hashed: Moment) -> Result<Vec<Rec>, Fail> {
    let mut fan = Fan::start();
    fan.feed(b"abc");
    let mut entries = Vec::new(alloc);
    entries.push(Rec {
        index: 0,
        size: 3,
        triple: triple_of(fan),
        hashed,
    })?;
    Ok(entries)
}

fn work_of_one(alloc: Global) -> Result<Work, Fail> {
    let noon = Moment::new(NOON).ok_or("a moment")?;
    let plan = Plan::make(
        alloc,
        Label::read("A001")?,
        Label::read("ana")?,
        Label::read("cart1")?,
        noon,
        MD5,
        None,
        Inventory::build(files(alloc)?)?,
    )?;
    Ok(Work {
        plan,
        entries: entries(alloc, noon)?,
    })
}

// A bay with drive 0, which has no file, and whose reads give so many bytes at most.
fn empty_drive(alloc: Global, cut: usize) -> Result<MemBay, Fail>
    ensures { IfOk result (λ bay. 0 < (world_of bay.seen).attached.drives) }
{
    let mut bay = MemBay::new(alloc);
    bay.add_drive("D", MemMap::new(alloc))?;
    bay.cut_reads(cut.max(1));
    bay.attach_drive("D")?;
    Ok(bay)
}

// Has these bytes stand in the file that waits for its name, or no such file.
fn replace(bay: &mut MemBay, there: Option<&[u8]>) -> Result<(), Fail>
    requires { 0 < (world_of bay.old.seen).attached.drives }
    ensures { 0 < (world_of bay.new.seen).attached.drives }
{
    bay.remove(0, NEW)?;
    match there {
        Some(bytes) => Ok(bay.write(0, NEW, 0, bytes)?),
        None => Ok(()),
    }
}

// What reading the list again answers, where these bytes stand in the place of those that were written.
fn read_again(
    rt: &impl Abort,
    alloc: Global,
    bay: &mut MemBay,
    work: &Work,
    there: Option<&[u8]>,
) -> Result<Result<(), SealError>, Fail>
    requires { 0 < (world_of bay.old.seen).attached.drives }
{
    assert_eq!(rt; work.entries.len(), work.plan.files().len());
    let list = ListParts {
        plan: &work.plan,
        entries: &work.entries,
        finish: Moment::new(NOON).ok_or("a moment")?,
    };
    let mut scratch = Scratch::new(alloc)?;
    let total = write_parts(bay, 0, &list, &mut scratch)?;
    replace(bay, there)?;
    let mut pool = Pool::new(alloc, 1)?;
    let slot = pool.take().ok_or("a block is free")?;
    Ok(read_list(bay, 0, &list, total, &mut pool, &slot, &mut scratch))
}

// So many bytes were read in the place of that list.
fn length(read: u64) -> Result<(), SealError> {
    Err(SealError::Length {
        written: LIST_BYTES,
        read,
    })
}

#[test]
fn a_list_that_is_not_what_was_written(rt: HostRuntime) -> Result<(), Fail> {
    let alloc = rt.alloc();
    let work = work_of_one(alloc)?;
    let text = format!(in alloc; "{HEAD}{ABC}{TAIL}")?;
    let text = text.as_bytes();
    let longer = format!(in alloc; "{HEAD}{ABC}{TAIL}{TAIL}")?;
    let another = format!(in alloc; "{HEAD}{TAIL}")?;
    // Without its entry the list goes on with the `<` of its tail at 307, where the first space of the entry was written.
    let byte = Err(SealError::Byte {
        at: HEAD_BYTES as u64,
        written: b' ',
        read: b'<',
    });
    let rows = [
        (Some(text), Ok(())),
        (None, Err(SealError::Absent)),
        (Some(longer.as_bytes()), length(545)),
        (Some(&text[..543]), length(543)),
        (Some(&text[..HEAD_BYTES]), length(307)),
        (Some(b"".as_slice()), length(0)),
        (Some(another.as_bytes()), byte),
    ];
    for (there, wanted) in rows {
        for cut in [1, 100, 9999] {
            let mut bay = empty_drive(alloc, cut)?;
            assert_eq!(rt; read_again(&rt, alloc, &mut bay, &work, there)?, wanted);
        }
    }
    Ok(())
}
