// The life of a bay in memory as a table: what is set, what is called, and what each call must answer.
ghost use Rattle.std.specs.Prelude.{◌≡◌, ◌<◌, IfOk};
ghost use Rattle.bay_mem.specs.State.{world_of};

use bay_core::{Bay, DriveGot, Event, Failed, FileInfo};
use bay_mem::{MemBay, MemMap};
use std::alloc::{AllocError, Global};
use std::process::Abort;
use std::test::Fail;

// The paths of some files and their bytes.
pub type Files = &'static [(&'static str, &'static str)];

// What is set at a bay.
pub enum Setting {
    // The files of a place.
    Source(&'static str, Files),
    Place(&'static str, Files),
    Clock(u64),
    CutReads(usize),
    Picks(&'static [u32]),
    // A byte of a file of a drive.
    Flip(u32, &'static str, u64),
    // A size of a file of a card.
    ListAs(u32, &'static str, u64),
    FailCall(u64),
}

// What is called on a card, and what it must answer.
pub enum OnCard {
    // Each file with its size and date.
    CardList(&'static str),
    // A file from an offset on: how many bytes are read, and what the buffer has then, which had a 7 in each place.
    CardRead(&'static str, u64, Result<usize, Failed>, &'static [u8]),
}

// What a call changes of a drive.
pub enum Change {
    Write(&'static str, u64, &'static [u8]),
    Sync,
    Rename(&'static str, &'static str),
    Remove(&'static str),
}

// What is called on a drive, and what it must answer.
pub enum OnDrive {
    Changed(Change, Result<(), Failed>),
    DriveList(&'static str),
    DriveRead(&'static str, u64, Result<Option<usize>, Failed>, &'static [u8]),
}

// A row of a bay's life.
pub enum Step {
    Set(Setting),
    // A place is attached, and its number.
    Card(&'static str, Result<u32, Failed>),
    Drive(&'static str, Result<u32, Failed>),
    OnCard(u32, OnCard),
    OnDrive(u32, OnDrive),
    Moment(u64),
    Pick(u32),
    Say(&'static [u8], Result<(), Failed>),
    // How many calls were told so far, and their kinds.
    Told(usize, &'static str),
}

// How many cards and drives are attached.
#[derive(Clone, Copy)]
struct Count {
    cards: u32,
    drives: u32,
}

// The files of a map.
pub fn map_of(alloc: Global, files: &[(&str, &str)]) -> Result<MemMap, AllocError> {
    let mut map = MemMap::new(alloc);
    for (path, bytes) in files {
        map.add(path, bytes.as_bytes(), 100)?;
    }
    Ok(map)
}

// The paths, sizes and dates of a listing.
fn listed(alloc: Global, files: &[FileInfo]) -> Result<String, AllocError> {
    let mut text = String::new(alloc);
    for file in files {
        let path = file.path.as_str();
        let line = format!(in alloc; "{path} {} {};", file.size, file.modified)?;
        text.push_str(&line)?;
    }
    Ok(text)
}

// The kind of a call, and whether it failed.
pub fn kind(event: &Event) -> (&'static str, bool) {
    match event {
        Event::AttachSource { .. } => ("AttachSource", false),
        Event::AttachDrive { .. } => ("AttachDrive", false),
        Event::AttachFailed { .. } => ("Attach", true),
        Event::SourceList { got, .. } => ("SourceList", got.is_none()),
        Event::SourceRead { got, .. } => ("SourceRead", got.is_none()),
        Event::DriveList { got, .. } => ("DriveList", got.is_none()),
        Event::DriveRead { got, .. } => ("DriveRead", matches!(got, DriveGot::Failed)),
        Event::Write { ok, .. } => ("Write", !*ok),
        Event::Sync { ok, .. } => ("Sync", !*ok),
        Event::Rename { ok, .. } => ("Rename", !*ok),
        Event::Remove { ok, .. } => ("Remove", !*ok),
        Event::Moment { .. } => ("Moment", false),
        Event::Pick { .. } => ("Pick", false),
        Event::Say { ok, .. } => ("Say", !*ok),
    }
}

// The kinds of the calls of a bay in their order, each that failed with a mark.
fn kinds(alloc: Global, bay: &MemBay) -> Result<String, AllocError> {
    let mut text = String::new(alloc);
    for event in bay.events() {
        let (name, failed) = kind(event);
        text.push_str(name)?;
        text.push_str(if failed { "! " } else { " " })?;
    }
    Ok(text)
}

fn set(alloc: Global, bay: &mut MemBay, setting: &Setting) -> Result<(), Fail>
    ensures cards { (world_of bay.new.seen).attached.sources ≡ (world_of bay.old.seen).attached.sources }
    ensures drives { (world_of bay.new.seen).attached.drives ≡ (world_of bay.old.seen).attached.drives }
{
    match setting {
        Setting::Source(place, files) => bay.add_source(place, map_of(alloc, files)?)?,
        Setting::Place(place, files) => bay.add_drive(place, map_of(alloc, files)?)?,
        Setting::Clock(t) if *t <= 253_402_300_799 => bay.clock(*t),
        Setting::Clock(_) => return Err("no time of the clock".into()),
        Setting::CutReads(n) => bay.cut_reads((*n).max(1)),
        Setting::Picks(numbers) => bay.picks(numbers.to_vec(alloc)?),
        Setting::Flip(d, path, at) => bay.flip(*d, path, *at)?,
        Setting::ListAs(s, path, size) => bay.list_as(*s, path, *size)?,
        Setting::FailCall(n) => bay.fail_call(*n)?,
    }
    Ok(())
}

// How many cards are attached then.
fn card(
    rt: &impl Abort,
    bay: &mut MemBay,
    cards: u32,
    place: &str,
    wanted: Result<u32, Failed>,
) -> u32
    requires { (world_of bay.old.seen).attached.sources ≡ cards }
    ensures cards { (world_of bay.new.seen).attached.sources ≡ result }
    ensures drives { (world_of bay.new.seen).attached.drives ≡ (world_of bay.old.seen).attached.drives }
{
    assert!(rt; cards < 100);
    let got = bay.attach_source(place);
    assert_eq!(rt; got, wanted, "{place}");
    if got.is_ok() { cards + 1 } else { cards }
}

// How many drives are attached then.
fn drive(
    rt: &impl Abort,
    bay: &mut MemBay,
    drives: u32,
    place: &str,
    wanted: Result<u32, Failed>,
) -> u32
    requires { (world_of bay.old.seen).attached.drives ≡ drives }
    ensures cards { (world_of bay.new.seen).attached.sources ≡ (world_of bay.old.seen).attached.sources }
    ensures drives { (world_of bay.new.seen).attached.drives ≡ result }
{
    assert!(rt; drives < 100);
    let got = bay.attach_drive(place);
    assert_eq!(rt; got, wanted, "{place}");
    if got.is_ok() { drives + 1 } else { drives }
}

fn on_card(
    rt: &impl Abort,
    alloc: Global,
    bay: &mut MemBay,
    s: u32,
    call: &OnCard,
) -> Result<(), Fail>
    requires { s < (world_of bay.old.seen).attached.sources }
    ensures { (world_of bay.new.seen).attached ≡ (world_of bay.old.seen).attached }
{
    match call {
        OnCard::CardList(wanted) => {
            let files = bay.source_list(alloc, s)?;
            let text = listed(alloc, &files)?;
            assert_eq!(rt; text.as_str(), *wanted);
        }
        OnCard::CardRead(path, at, n, wanted) => {
            let mut into = vec![in alloc; 7u8; wanted.len()]?;
            let got = bay.source_read(s, path, *at, &mut into);
            assert!(rt;
                got == *n && into.as_slice() == *wanted,
                "{path} at {at}: {got:?} {into:?}"
            );
        }
    }
    Ok(())
}

pub fn make(bay: &mut MemBay, d: u32, change: &Change) -> Result<(), Failed>
    requires { d < (world_of bay.old.seen).attached.drives }
    ensures { (world_of bay.new.seen).attached ≡ (world_of bay.old.seen).attached }
{
    match change {
        Change::Write(path, at, bytes) => bay.write(d, path, *at, bytes),
        Change::Sync => bay.sync(d),
        Change::Rename(from, to) => bay.rename(d, from, to),
        Change::Remove(path) => bay.remove(d, path),
    }
}

fn on_drive(
    rt: &impl Abort,
    alloc: Global,
    bay: &mut MemBay,
    d: u32,
    call: &OnDrive,
) -> Result<(), Fail>
    requires { d < (world_of bay.old.seen).attached.drives }
    ensures { (world_of bay.new.seen).attached ≡ (world_of bay.old.seen).attached }
{
    match call {
        OnDrive::Changed(change, wanted) => {
            let got = make(bay, d, change);
            assert_eq!(rt; got, *wanted);
        }
        OnDrive::DriveList(wanted) => {
            let files = bay.drive_list(alloc, d)?;
            let text = listed(alloc, &files)?;
            assert_eq!(rt; text.as_str(), *wanted);
        }
        OnDrive::DriveRead(path, at, n, wanted) => {
            let mut into = vec![in alloc; 7u8; wanted.len()]?;
            let got = bay.drive_read(d, path, *at, &mut into);
            assert!(rt;
                got == *n && into.as_slice() == *wanted,
                "{path} at {at}: {got:?} {into:?}"
            );
        }
    }
    Ok(())
}

fn moment(rt: &impl Abort, bay: &mut MemBay, wanted: u64)
    ensures { (world_of bay.new.seen).attached ≡ (world_of bay.old.seen).attached }
{
    assert_eq!(rt; bay.moment(), wanted);
}

fn pick(rt: &impl Abort, bay: &mut MemBay, wanted: u32)
    ensures { (world_of bay.new.seen).attached ≡ (world_of bay.old.seen).attached }
{
    assert_eq!(rt; bay.pick(), wanted);
}

fn say(rt: &impl Abort, bay: &mut MemBay, line: &[u8], wanted: Result<(), Failed>)
    ensures { (world_of bay.new.seen).attached ≡ (world_of bay.old.seen).attached }
{
    assert_eq!(rt; bay.say(line), wanted);
}

// Fails unless a bay told so many calls, of these kinds.
pub fn expect_told(
    rt: &impl Abort,
    alloc: Global,
    bay: &MemBay,
    n: usize,
    wanted: &str,
) -> Result<(), Fail> {
    assert_eq!(rt; bay.events().len(), n);
    assert_eq!(rt; kinds(alloc, bay)?.as_str(), wanted);
    Ok(())
}

fn take(
    rt: &impl Abort,
    alloc: Global,
    bay: &mut MemBay,
    count: Count,
    step: &Step,
) -> Result<Count, Fail>
    requires cards { (world_of bay.old.seen).attached.sources ≡ count.cards }
    requires drives { (world_of bay.old.seen).attached.drives ≡ count.drives }
    ensures cards { IfOk result (λ now. (world_of bay.new.seen).attached.sources ≡ now.cards) }
    ensures drives { IfOk result (λ now. (world_of bay.new.seen).attached.drives ≡ now.drives) }
{
    let Count { cards, drives } = count;
    match step {
        Step::Set(setting) => set(alloc, bay, setting)?,
        Step::Card(place, wanted) => {
            let cards = card(rt, bay, cards, place, *wanted);
            return Ok(Count { cards, drives });
        }
        Step::Drive(place, wanted) => {
            let drives = drive(rt, bay, drives, place, *wanted);
            return Ok(Count { cards, drives });
        }
        Step::OnCard(s, call) => {
            assert!(rt; *s < cards, "card {s}");
            on_card(rt, alloc, bay, *s, call)?;
        }
        Step::OnDrive(d, call) => {
            assert!(rt; *d < drives, "drive {d}");
            on_drive(rt, alloc, bay, *d, call)?;
        }
        Step::Moment(t) => moment(rt, bay, *t),
        Step::Pick(n) => pick(rt, bay, *n),
        Step::Say(line, wanted) => say(rt, bay, line, *wanted),
        Step::Told(n, kinds) => expect_told(rt, alloc, bay, *n, kinds)?,
    }
    Ok(count)
}

// Fails unless each row of the life of a new bay answers so, and no memory was refused to it.
pub fn play(rt: &impl Abort, alloc: Global, rows: &[Step]) -> Result<(), Fail> {
    let mut bay = MemBay::new(alloc);
    let mut count = Count {
        cards: 0,
        drives: 0,
    };
    for step in rows {
        count = take(rt, alloc, &mut bay, count, step)?;
    }
    assert_eq!(rt; bay.refused(), 0);
    Ok(())
}
