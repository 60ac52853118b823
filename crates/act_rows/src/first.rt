// The first file of a card in memory, with each call failing once, and the drive looked at after every stop.
ghost use Rattle.std.specs.Prelude.{◌≡◌, ◌≢◌, ◌++◌, ◌∷◌, [], ◌<◌, ◌≤◌, true, Err, IfOk, IfSome};
ghost use Rattle.bay_mem.specs.State.{world_of};
ghost use Rattle.copy_plan.specs.Fields.{plan_code};
ghost use Rattle.first_file.specs.declared.error.FirstFileError.TheVariants.{Attach};
ghost use Rattle.first_file.specs.Causes.{AttachesOne};

use bay_core::{Bay, Event};
use bay_mem::{MemBay, MemMap};
use block_pool::Pool;
use copy_plan::{Inventory, Plan, PlannedFile, encode};
use first_file::{FirstFileError, offload_first_file};
use path_text::{Kinds, Label, Moment, PathText, Scratch};
use std::alloc::Global;
use std::process::Abort;
use std::test::Fail;

// 2014-10-24T12:00:00Z.
const NOON: u64 = 1_414_152_000;

// 2023-11-14T22:13:20Z.
const CHANGED: u64 = 1_700_000_000;

const JOURNAL: &str = ".mhlstation/journal";

// The file of the card, and its bytes.
const FILE: &str = "A/a.mov";

const ABC: &[u8; 3] = b"abc";

// What the drive had before.
const NOTES: &str = "notes.txt";

const TO_DO: &[u8; 5] = b"to do";

// The plan of that file (docs/FORMATS.md, "Plans").
const PLAN: &[u8; 60] = b"MHLPLAN1\0\0\0\0\x54\x4a\x3f\x40\
    \x04A001\x03ana\x05cart1\
    \0\0\0\x01\
    \0\x07A/a.mov\0\0\0\0\0\0\0\x03\0\0\0\0\x65\x53\xf1\x00";

// An open gate, the record of the file, with the digests of abc as `md5sum`, `sha1sum` and `xxhsum -H64` print them, and
// a closed gate (docs/FORMATS.md, "The journal").
const RECORD: &[u8; 66] = b"\x01\0\0\0\0\0\0\0\0\0\0\0\x03\
    \x90\x01\x50\x98\x3c\xd2\x4f\xb0\xd6\x96\x3f\x7d\x28\xe1\x7f\x72\
    \xa9\x99\x3e\x36\x47\x06\x81\x6a\xba\x3e\x25\x71\x78\x50\xc2\x6c\x9c\xd0\xd8\x9d\
    \x44\xbc\x2c\xf5\xad\x77\x09\x99\
    \0\0\0\0\x54\x4a\x3f\x40\
    \0";

// The lines that announce the first and the second step.
const BEGUN: &str = "begun 0 0 1";

const DONE: &str = "done 0 1 1 A/a.mov";

fn plan(alloc: Global) -> Result<Plan, Fail> {
    let mut files = Vec::new(alloc);
    files.push(PlannedFile {
        path: PathText::read(alloc, FILE)?,
        size: 3,
        modified: Moment::new(CHANGED).ok_or("a moment")?,
    })?;
    let kinds = Kinds {
        md5: true,
        sha1: true,
        xxh: true,
    };
    Ok(Plan::make(
        alloc,
        Label::read("A001")?,
        Label::read("ana")?,
        Label::read("cart1")?,
        Moment::new(NOON).ok_or("a moment")?,
        kinds,
        None,
        Inventory::build(files)?,
    )?)
}

// The code of a plan and a closed gate.
fn journal(alloc: Global, plan: &Plan) -> Result<Vec<u8>, Fail>
    ensures { IfOk result (λ journal. journal.items ≡ plan_code plan.now ++ 0 ∷ []) }
{
    let mut journal = encode(alloc, plan)?;
    journal.push(0)?;
    Ok(journal)
}

// A bay with a card that has the file, and a drive with the notes that is not attached.
fn bay(alloc: Global) -> Result<MemBay, Fail>
    ensures card { IfOk result (λ bay. 0 < (world_of bay.seen).attached.sources) }
    ensures drives { IfOk result (λ bay. (world_of bay.seen).attached.drives ≡ 0) }
{
    let mut card = MemMap::new(alloc);
    card.add(FILE, ABC, 0)?;
    let mut drive = MemMap::new(alloc);
    drive.add(NOTES, TO_DO, 0)?;
    let mut bay = MemBay::new(alloc);
    bay.add_source("C", card)?;
    bay.add_drive("D", drive)?;
    bay.attach_source("C")?;
    bay.clock(NOON);
    Ok(bay)
}

// What the first file comes to.
fn offload(alloc: Global, bay: &mut MemBay) -> Result<Result<(), FirstFileError>, Fail>
    requires card { 0 < (world_of bay.old.seen).attached.sources }
    requires drives { (world_of bay.old.seen).attached.drives ≡ 0 }
    ensures { IfOk result (λ came. AttachesOne came (world_of bay.old.seen) (world_of bay.new.seen)) }
{
    let plan = plan(alloc)?;
    let journal = journal(alloc, &plan)?;
    let mut pool = Pool::new(alloc, 17)?;
    let mut line = Scratch::new(alloc)?;
    Ok(offload_first_file(bay, "D", 0, &plan, &journal, &mut pool, &mut line))
}

// Whether a map has a file with just these bytes.
fn has(map: &MemMap, path: &str, bytes: &[u8]) -> bool {
    match map.get(path) {
        Some(got) => got == bytes,
        None => false,
    }
}

// How many steps are left on a drive; None where what is left is no first part of them. The first is a journal with a
// closed gate, the second the true record behind an open gate with its file whole.
fn steps_left(map: &MemMap) -> Option<usize> {
    let Some(journal) = map.get(JOURNAL) else {
        return Some(0);
    };
    let behind = journal.strip_prefix(PLAN.as_slice())?;
    match behind.first()? {
        1 if behind == RECORD.as_slice() && has(map, FILE, ABC) => Some(2),
        1 => None,
        _ => Some(1),
    }
}

// How many steps these calls announced.
fn announced(events: &[Event]) -> usize {
    let mut steps = 0;
    for event in events {
        if let Event::Say { line, .. } = event {
            if line.as_slice() == BEGUN.as_bytes() {
                steps = 1;
            } else if line.as_slice() == DONE.as_bytes() {
                steps = 2;
            }
        }
    }
    steps
}

// How many changes of drive 0 are pending after these calls.
fn pending(events: &[Event]) -> usize {
    let mut count: usize = 0;
    for event in events {
        match event {
            Event::Sync { ok: true, .. } => count = 0,
            Event::Write { .. } | Event::Rename { .. } | Event::Remove { .. } => {
                count = count.saturating_add(1)
            }
            _ => {}
        }
    }
    count
}

// How a pending change may be left: undone; done; done otherwise, a write with each byte of its range 0, 1 or 7, and a
// rename with the file under both names.
const WAYS: [u32; 5] = [0, 1, 2, 5, 23];

// How many images there are where no, one, two or three changes are pending.
const IMAGES: [usize; 4] = [1, 5, 25, 125];

// How many images of the stop after the first `upto` calls are bad: no first part of the steps, without one that was
// announced or with two that were not, or without the notes.
fn bad_images(bay: &MemBay, upto: usize) -> Result<u32, Fail>
    requires { 0 < (world_of bay.now.seen).attached.drives }
{
    let Some(events) = bay.events().get(..upto) else {
        return Err("fewer calls".into());
    };
    let Some(images) = IMAGES.get(pending(events)) else {
        return Err("more changes are pending".into());
    };
    let told = announced(events);
    let mut bad: u32 = 0;
    for n in 0..*images {
        let choice = [WAYS[n % 5], WAYS[n / 5 % 5], WAYS[n / 25 % 5]];
        let image = bay.image(0, upto, &choice)?;
        let is_good = match steps_left(&image) {
            Some(steps) => told <= steps && steps - told <= 1 && has(&image, NOTES, TO_DO),
            None => false,
        };
        if !is_good {
            bad = bad.saturating_add(1);
        }
    }
    Ok(bad)
}

// Fails unless every stop of a run leaves what was announced.
fn expect_prefixes(rt: &impl Abort, bay: &MemBay, call: u64) -> Result<(), Fail>
    requires { 0 < (world_of bay.now.seen).attached.drives }
{
    for upto in 0..=bay.events().len() {
        assert_eq!(rt; bad_images(bay, upto)?, 0, "call {call}, stop {upto}");
    }
    Ok(())
}

#[test]
fn the_first_file_is_recorded(rt: HostRuntime) -> Result<(), Fail> {
    let mut bay = bay(rt.alloc())?;
    offload(rt.alloc(), &mut bay)??;
    let left = bay.image(0, usize::MAX, &[])?;
    assert_eq!(rt; left.len(), 3);
    assert_eq!(rt; steps_left(&left), Some(2));
    assert!(rt; has(&left, NOTES, TO_DO));
    assert_eq!(rt; announced(bay.events()), 2);
    expect_prefixes(&rt, &bay, 0)
}

// What comes of it where this call fails, of those that can.
fn expected(call: u64) -> Result<(), FirstFileError> {
    match call {
        1 => Err(FirstFileError::Attach),
        // The lines `begun` and `done`.
        8 | 21 => Err(FirstFileError::Output),
        // The file's bytes, and the byte at its size.
        10 | 12 => Err(FirstFileError::Card),
        // There are 21 that can fail.
        22 => Ok(()),
        _ => Err(FirstFileError::Drive),
    }
}

// Whether the drive was attached.
fn is_attached(came: &Result<(), FirstFileError>) -> bool
    ensures { result ≡ true → came.now ≢ Err Attach }
{
    match came {
        Ok(()) => true,
        Err(error) => *error != FirstFileError::Attach,
    }
}

#[test]
fn every_failure_leaves_what_was_announced(rt: HostRuntime) -> Result<(), Fail> {
    for call in 1..=22 {
        let mut bay = bay(rt.alloc())?;
        bay.fail_call(call)?;
        let came = offload(rt.alloc(), &mut bay)?;
        assert_eq!(rt; came, expected(call), "call {call}");
        if is_attached(&came) {
            expect_prefixes(&rt, &bay, call)?;
        }
    }
    Ok(())
}
