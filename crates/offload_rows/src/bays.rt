// A bay with a card and drives, a run of the station over it, and what that tells and leaves.
ghost use Rattle.std.specs.Prelude.{◌≡◌, ◌≤◌, ◌+◌, IfOk};
ghost use Rattle.bay_mem.specs.State.{world_of};
ghost use Rattle.offload_rows.specs.Bare.{IsBare};

use crate::laws::few_drives_are_attached;
use bay_core::{Bay, DriveGot, Event};
use bay_mem::{MemBay, MemMap};
use command_words::WordList;
use station_run::station;
use std::alloc::Global;
use std::test::Fail;

// 2014-10-24, at 00:00:00Z and at 12:00:00Z.
pub const MIDNIGHT: u64 = 1_414_108_800;

pub const NOON: u64 = 1_414_152_000;

// The list of the card A001 of that noon.
pub const LIST: &str = "A001_2014-10-24_120000.mhl";

pub const JOURNAL: &str = ".mhlstation/journal";

pub const PART: &str = ".mhlstation/part";

pub const NEW: &str = ".mhlstation/new";

pub const ONE_DRIVE: &str = "offload A001 ana@cart1 1 card d0";

// Files of a card or a drive, each with its bytes.
pub type Files<'a> = &'a [(&'a str, &'a [u8])];

// The file abc alone, and with an empty one.
pub const ONE: Files = &[("a.mov", b"abc")];

pub const TWO: Files = &[("a.mov", b"abc"), ("b.mov", b"")];

pub const NONE: Files = &[];

// These files, changed last at that second.
pub fn map_of(alloc: Global, files: Files, date: u64) -> Result<MemMap, Fail> {
    let mut map = MemMap::new(alloc);
    for (path, bytes) in files {
        map.add(path, bytes, date)?;
    }
    Ok(map)
}

// A bay at noon with this card, at the place `card`, and drives with these files at `d0`, `d1` and `d2`.
pub fn bay_with(
    alloc: Global,
    card: MemMap,
    first: MemMap,
    second: MemMap,
    third: MemMap,
) -> Result<MemBay, Fail>
    ensures { IfOk result IsBare }
{
    let mut bay = MemBay::new(alloc);
    bay.clock(NOON);
    bay.add_source("card", card)?;
    bay.add_drive("d0", first)?;
    bay.add_drive("d1", second)?;
    bay.add_drive("d2", third)?;
    Ok(bay)
}

// Such a bay, all of whose files were changed last at midnight, with nothing at `d2`.
pub fn bay_of<'a, 'b, 'c>(
    alloc: Global,
    card: Files<'a>,
    first: Files<'b>,
    second: Files<'c>,
) -> Result<MemBay, Fail>
    ensures { IfOk result IsBare }
{
    let card = map_of(alloc, card, MIDNIGHT)?;
    let first = map_of(alloc, first, MIDNIGHT)?;
    let second = map_of(alloc, second, MIDNIGHT)?;
    bay_with(alloc, card, first, second, MemMap::new(alloc))
}

// Such a bay with that card, a drive with these files at `d0`, and two empty ones.
pub fn bay_beside(alloc: Global, card: MemMap, first: MemMap) -> Result<MemBay, Fail>
    ensures { IfOk result IsBare }
{
    bay_with(alloc, card, first, MemMap::new(alloc), MemMap::new(alloc))
}

// Such a bay with empty drives, whose card has files of that date.
pub fn dated_bay(alloc: Global, card: Files, date: u64) -> Result<MemBay, Fail>
    ensures { IfOk result IsBare }
{
    let card = map_of(alloc, card, date)?;
    bay_beside(alloc, card, MemMap::new(alloc))
}

// Such a bay with empty drives, whose card has files of midnight.
pub fn bare_bay(alloc: Global, card: Files) -> Result<MemBay, Fail>
    ensures { IfOk result IsBare }
{
    dated_bay(alloc, card, MIDNIGHT)
}

// The words of a line, which have one space between each two; an empty line has none.
pub fn words_of(alloc: Global, line: &str) -> Result<WordList, Fail> {
    let mut words = WordList::new(alloc);
    if line.is_empty() {
        return Ok(words);
    }
    for word in line.split(' ') {
        words.push(word)?;
    }
    Ok(words)
}

// Runs the station over a bay, and tells the lines, each with a line feed, and the status. A line that was not said has a mark.
pub fn told(alloc: Global, bay: MemBay, line: &str) -> Result<(MemBay, String), Fail>
    requires { IsBare bay }
    ensures { IfOk result (λ r. (world_of r.0.seen).attached.drives ≤ 8) }
{
    let mut bay = bay;
    let words = words_of(alloc, line)?;
    few_drives_are_attached();
    let status = station(alloc, &mut bay, &words);
    let text = text_from(alloc, &bay, 0, status)?;
    Ok((bay, text))
}

// What a run of these words after another run tells.
pub fn told_again(alloc: Global, bay: MemBay, words: &[&str; 3]) -> Result<String, Fail>
    requires { (world_of bay.seen).attached.drives ≤ 1000 }
{
    let mut bay = bay;
    let before = bay.events().len();
    let [first, second, third] = words;
    let mut words = WordList::new(alloc);
    words.push(first)?;
    words.push(second)?;
    words.push(third)?;
    let status = station(alloc, &mut bay, &words);
    text_from(alloc, &bay, before, status)
}

// The lines that were said from some call on, and a status.
fn text_from(alloc: Global, bay: &MemBay, first: usize, status: u8) -> Result<String, Fail> {
    let mut text = String::new(alloc);
    for event in bay.events().iter().skip(first) {
        if let Event::Say { line, ok } = event {
            text.push_str(str::from_utf8(line.as_slice())?)?;
            text.push_str(if *ok { "\n" } else { " (not said)\n" })?;
        }
    }
    text.push_str(format!(in alloc; "{status}")?.as_str())?;
    Ok(text)
}

// What the drive at a place has now.
pub fn left(bay: &mut MemBay, place: &str) -> Result<MemMap, Fail>
    requires { (world_of bay.old.seen).attached.drives ≤ 1000 }
    ensures { IfOk result (λ left. (world_of bay.new.seen).attached.drives ≡ (world_of bay.old.seen).attached.drives + 1) }
{
    let d = bay.attach_drive(place)?;
    Ok(bay.image(d, usize::MAX, &[])?)
}

// How many calls of a bay there were that may change or settle a drive.
pub fn count_effects(bay: &MemBay) -> usize {
    bay.events()
        .iter()
        .filter(|event| {
            matches!(
                event,
                Event::Write { .. }
                    | Event::Sync { .. }
                    | Event::Rename { .. }
                    | Event::Remove { .. }
            )
        })
        .count()
}

// What a call on a card or a drive was that failed, and its number; None for all other calls.
pub fn failure(event: &Event) -> Option<(&'static str, u32)> {
    match event {
        Event::SourceList { s, got: None } => Some(("list of card", *s)),
        Event::SourceRead { s, got: None, .. } => Some(("read of card", *s)),
        Event::DriveList { d, got: None } => Some(("list of drive", *d)),
        Event::DriveRead {
            d,
            got: DriveGot::Failed,
            ..
        } => Some(("read of drive", *d)),
        Event::Write { d, ok: false, .. } => Some(("write to drive", *d)),
        Event::Sync { d, ok: false } => Some(("sync of drive", *d)),
        Event::Rename { d, ok: false, .. } => Some(("rename on drive", *d)),
        Event::Remove { d, ok: false, .. } => Some(("removal on drive", *d)),
        _ => None,
    }
}
