// A card with one file is offloaded onto a drive, and the drive is looked at after every stop.
ghost use Rattle.std.specs.Prelude.{◌≡◌, ◌<◌, ◌≤◌, false, IfOk, IfSome};
ghost use Rattle.bay_mem.specs.State.{world_of};
ghost use Rattle.path_text.specs.Path.{is_control_path};

use bay_core::{Bay, Event};
use bay_mem::{MemBay, MemMap};
use block_pool::Pool;
use digest_set::{Fan, triple_of};
use drive_journal::{Gate, Rec, publish};
use path_text::{Moment, PathText, is_control};
use recording::{begin_on, record_file};
use std::alloc::Global;
use std::process::Abort;
use std::test::Fail;

// 2014-10-24T12:00:00Z.
const NOON: u64 = 1_414_152_000;

const PART: &str = ".mhlstation/part";

const JOURNAL: &str = ".mhlstation/journal";

// The file of the card, and its bytes.
const FILE: &str = "A/a.mov";

const ABC: &[u8; 3] = b"abc";

// What the drive had before.
const NOTES: &str = "notes.txt";

const TO_DO: &[u8; 5] = b"to do";

// The list of the plan, and what stands for its text.
const LIST: &str = "A001_2014-10-24_120000.mhl";

const TEXT: &[u8; 8] = b"the list";

// The plan of that file of 2023-11-14T22:13:20Z and a closed gate (docs/FORMATS.md, "Plans").
const PLAN: &[u8; 61] = b"MHLPLAN1\0\0\0\0\x54\x4a\x3f\x40\
    \x04A001\x03ana\x05cart1\
    \0\0\0\x01\
    \0\x07A/a.mov\0\0\0\0\0\0\0\x03\0\0\0\0\x65\x53\xf1\x00\
    \0";

// The place of the gate.
const GATE: u64 = 60;

// The record of the file, with the digests of abc as `md5sum`, `sha1sum` and `xxhsum -H64` print them, and a closed
// gate (docs/FORMATS.md, "The journal").
const RECORD: &[u8; 65] = b"\0\0\0\0\0\0\0\0\0\0\0\x03\
    \x90\x01\x50\x98\x3c\xd2\x4f\xb0\xd6\x96\x3f\x7d\x28\xe1\x7f\x72\
    \xa9\x99\x3e\x36\x47\x06\x81\x6a\xba\x3e\x25\x71\x78\x50\xc2\x6c\x9c\xd0\xd8\x9d\
    \x44\xbc\x2c\xf5\xad\x77\x09\x99\
    \0\0\0\0\x54\x4a\x3f\x40\
    \0";

// The lines that announce the first, the second and the third step.
const BEGUN: &str = "begun 0 0 1";

const DONE: &str = "done 0 1 1 A/a.mov";

const SEALED: &str = "sealed 0 1 A001_2014-10-24_120000.mhl";

// A call of an offload.
#[derive(Clone, Copy)]
enum Call {
    // The journal is published.
    Begin,
    // The bytes of the file are written to the part.
    Append,
    Sync,
    // The part is settled and read again, the file is placed with its record, its gate is opened, and its line is said.
    Record,
    // The list is published.
    Seal,
    // The part gets the file's path.
    Name,
    // The record is written behind the gate, which stays closed.
    Write,
    // The gate is opened.
    Open,
    // The list is written where it belongs.
    WriteList,
    Say(&'static str),
}

// The path of the file.
fn path(rt: &impl Abort, alloc: Global) -> Result<PathText, Fail>
    ensures { IfOk result (λ path. is_control_path path ≡ false) }
{
    let path = PathText::read(alloc, FILE)?;
    assert!(rt; !is_control(&path));
    Ok(path)
}

// Records the file and says the line of it.
fn record(rt: &impl Abort, alloc: Global, bay: &mut MemBay) -> Result<(), Fail>
    requires { 0 < (world_of bay.old.seen).attached.drives }
    ensures { 0 < (world_of bay.new.seen).attached.drives }
{
    let path = path(rt, alloc)?;
    let mut fan = Fan::start();
    fan.feed(ABC);
    let rec = Rec {
        index: 0,
        size: 3,
        triple: triple_of(fan),
        hashed: Moment::new(NOON).ok_or("a moment")?,
    };
    let gate = Gate { at: GATE, index: 0 };
    let mut pool = Pool::new(alloc, 1)?;
    let slot = pool.take().ok_or("a block is free")?;
    let next = record_file(bay, 0, gate, &path, &rec, &mut pool, &slot)?;
    assert_eq!(rt; (next.at, next.index), (125, 1));
    bay.say(DONE.as_bytes())?;
    Ok(())
}

fn make(rt: &impl Abort, alloc: Global, bay: &mut MemBay, call: Call) -> Result<(), Fail>
    requires { 0 < (world_of bay.old.seen).attached.drives }
    ensures { 0 < (world_of bay.new.seen).attached.drives }
{
    match call {
        Call::Begin => begin_on(bay, 0, PLAN)?,
        Call::Append => bay.write(0, PART, 0, ABC)?,
        Call::Sync => bay.sync(0)?,
        Call::Record => record(rt, alloc, bay)?,
        Call::Seal => publish(bay, 0, LIST, TEXT)?,
        Call::Name => bay.rename(0, PART, FILE)?,
        Call::Write => bay.write(0, JOURNAL, GATE + 1, RECORD)?,
        Call::Open => bay.write(0, JOURNAL, GATE, &[1])?,
        Call::WriteList => bay.write(0, LIST, 0, TEXT)?,
        Call::Say(line) => bay.say(line.as_bytes())?,
    }
    Ok(())
}

// A bay with drive 0, which had the notes, after these calls.
fn after(rt: &impl Abort, alloc: Global, calls: &[Call]) -> Result<MemBay, Fail>
    ensures { IfOk result (λ bay. 0 < (world_of bay.seen).attached.drives) }
{
    let mut map = MemMap::new(alloc);
    map.add(NOTES, TO_DO, 0)?;
    let mut bay = MemBay::new(alloc);
    bay.add_drive("D", map)?;
    bay.attach_drive("D")?;
    for call in calls {
        make(rt, alloc, &mut bay, *call)?;
    }
    Ok(bay)
}

// Whether a map has a file with just these bytes.
fn has(map: &MemMap, path: &str, bytes: &[u8]) -> bool {
    match map.get(path) {
        Some(got) => got == bytes,
        None => false,
    }
}

// How many steps are left on a drive; None where what is left is no first part of them. The first is a journal with a
// closed gate, the second a true record behind an open gate with its file whole, the third the list whole.
fn steps_left(map: &MemMap) -> Option<usize>
    ensures { IfSome result (λ steps. steps ≤ 3) }
{
    let Some(journal) = map.get(JOURNAL) else {
        return Some(0);
    };
    let Some(gate) = journal.strip_prefix(&PLAN[..60]) else {
        return None;
    };
    let list = map.get(LIST).is_some();
    match gate.split_first() {
        Some((1, behind)) => {
            let is_recorded = is_recorded(behind) && has(map, FILE, ABC);
            match (is_recorded, list) {
                (true, false) => Some(2),
                (true, true) if has(map, LIST, TEXT) => Some(3),
                _ => None,
            }
        }
        Some(_) if !list => Some(1),
        _ => None,
    }
}

// Whether the true record and a closed gate stand behind an open gate.
fn is_recorded(behind: &[u8]) -> bool {
    match behind.strip_prefix(&RECORD[..64]) {
        Some(next) => next.first().is_some_and(|gate| *gate != 1),
        None => false,
    }
}

// How many steps these calls announced.
fn announced(events: &[Event]) -> usize
    ensures { result ≤ 3 }
{
    let mut steps = 0;
    for event in events {
        if let Event::Say { line, .. } = event {
            steps = steps.max(announced_by(line.as_slice()));
        }
    }
    steps
}

fn announced_by(line: &[u8]) -> usize
    ensures { result ≤ 3 }
{
    if line == SEALED.as_bytes() {
        3
    } else if line == DONE.as_bytes() {
        2
    } else if line == BEGUN.as_bytes() {
        1
    } else {
        0
    }
}

// How many changes of drive 0 are pending after these calls.
fn pending(events: &[Event]) -> usize {
    let mut count: usize = 0;
    for event in events {
        match event {
            Event::Sync { .. } => count = 0,
            Event::Write { .. } | Event::Rename { .. } | Event::Remove { .. } => {
                count = count.saturating_add(1)
            }
            _ => {}
        }
    }
    count
}

// How a pending change may be left: undone; done; done otherwise, a write with each byte of its range 0, 1 or 7, and a
// rename with the file under both names.
const WAYS: [u32; 5] = [0, 1, 2, 5, 23];

// How many images there are where no, one, two or three changes are pending.
const IMAGES: [usize; 4] = [1, 5, 25, 125];

// How many images have no, one, two or three steps, and how many are bad: no first part of the steps, without one that
// was announced or with two that were not, or without the notes.
#[derive(Drop)]
struct Tally {
    steps: [u32; 4],
    bad: u32,
}

// Counts an image of a stop before which so many steps were announced.
fn count(tally: &mut Tally, image: &MemMap, told: usize)
    requires { told ≤ 3 }
{
    match steps_left(image) {
        Some(steps) if told <= steps && steps <= told + 1 && has(image, NOTES, TO_DO) => {
            tally.steps[steps] = tally.steps[steps].saturating_add(1);
        }
        _ => tally.bad = tally.bad.saturating_add(1),
    }
}

// Counts the images of the stop after the first `upto` calls.
fn count_stop(tally: &mut Tally, bay: &MemBay, upto: usize) -> Result<(), Fail>
    requires { 0 < (world_of bay.now.seen).attached.drives }
{
    let Some(events) = bay.events().get(..upto) else {
        return Err("fewer calls".into());
    };
    let Some(images) = IMAGES.get(pending(events)) else {
        return Err("more changes are pending".into());
    };
    let told = announced(events);
    for n in 0..*images {
        let choice = [WAYS[n % 5], WAYS[n / 5 % 5], WAYS[n / 25 % 5]];
        count(tally, &bay.image(0, upto, &choice)?, told);
    }
    Ok(())
}

// Counts the images of every stop.
fn count_stops(bay: &MemBay) -> Result<Tally, Fail>
    requires { 0 < (world_of bay.now.seen).attached.drives }
{
    let mut tally = Tally {
        steps: [0; 4],
        bad: 0,
    };
    for upto in 0..=bay.events().len() {
        count_stop(&mut tally, bay, upto)?;
    }
    Ok(tally)
}

#[test]
fn every_stop_leaves_what_was_announced(rt: HostRuntime) -> Result<(), Fail> {
    let calls = [
        Call::Begin,
        Call::Say(BEGUN),
        Call::Append,
        Call::Record,
        Call::Seal,
        Call::Say(SEALED),
    ];
    let bay = after(&rt, rt.alloc(), &calls)?;
    let tally = count_stops(&bay)?;
    assert_eq!(rt; tally.bad, 0);
    // No change is pending at 14 of the 24 stops, one at 7, two at 2, and three at 1: 224 images. The first step comes
    // with its rename, the second with the gate's byte 1 (two of the five ways), and the third with its rename.
    assert_eq!(rt; tally.steps, [159, 48, 11, 6]);
    let left = bay.image(0, usize::MAX, &[])?;
    assert_eq!(rt; left.len(), 4);
    assert!(rt; has(&left, LIST, TEXT));
    Ok(())
}

// Orders of the calls behind the first bytes of the part.

// The gate is opened in one go with its record.
const GATE_WITH_RECORD: [Call; 6] = [
    Call::Sync,
    Call::Name,
    Call::Write,
    Call::Open,
    Call::Sync,
    Call::Say(DONE),
];

// The gate is opened while the file's path is pending.
const GATE_WITH_PATH: [Call; 7] = [
    Call::Sync,
    Call::Write,
    Call::Sync,
    Call::Name,
    Call::Open,
    Call::Sync,
    Call::Say(DONE),
];

// The line is said while the gate is pending.
const LINE_BEFORE_BARRIER: [Call; 7] = [
    Call::Sync,
    Call::Name,
    Call::Write,
    Call::Sync,
    Call::Open,
    Call::Say(DONE),
    Call::Sync,
];

// The list is written where it belongs.
const LIST_IN_PLACE: [Call; 4] = [Call::Record, Call::WriteList, Call::Sync, Call::Say(SEALED)];

#[test]
fn other_orders_are_told_apart(rt: HostRuntime) -> Result<(), Fail> {
    let begun = [Call::Begin, Call::Say(BEGUN), Call::Append];
    // How many images are bad, and the steps at the end. In the first row the gate is open in 50 of the 125 images of
    // one stop, in 8 of them over the whole record with the file in its place; in the second it is open in 10 of 25,
    // and 2 lack the file; in the third it is closed in 3 of 5; in the last the list is torn in 3 of 5.
    let rows: [(&[Call], u32, usize); 4] = [
        (&GATE_WITH_RECORD, 42, 2),
        (&GATE_WITH_PATH, 2, 2),
        (&LINE_BEFORE_BARRIER, 3, 2),
        (&LIST_IN_PLACE, 3, 3),
    ];
    for (calls, bad, steps) in rows {
        let mut all = begun.to_vec(rt.alloc())?;
        all.extend_from_slice(calls)?;
        let bay = after(&rt, rt.alloc(), &all)?;
        assert_eq!(rt; count_stops(&bay)?.bad, bad);
        assert_eq!(rt; steps_left(&bay.image(0, usize::MAX, &[])?), Some(steps));
    }
    Ok(())
}
