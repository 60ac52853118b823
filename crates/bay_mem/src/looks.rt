// Reads, listings and lines in memory, each noted. Where memory is wanting nothing changes.
ghost use Rattle.std.specs.Prelude.{◌≡◌, ◌<◌, ◌≤◌, ◌⊎◌, take, drop, length, true, false, Some, None, IfOk, IfSome, OnOk, OnErr, slice_get};
ghost use Rattle.bay_core.specs.declared.event.Event.TheVariants.{SourceRead, SourceList, DriveRead, DriveList, Say};
ghost use Rattle.bay_mem.specs.Files.{Files};
ghost use Rattle.bay_core.specs.Map.{ReadsAs, ReadsSome, Lists};
ghost use Rattle.bay_core.specs.Replay.{reads, dated};
ghost use Rattle.bay_mem.specs.State.{noted, is_flipped as flipped, lists_falsely as falsely};
ghost use Rattle.bay_core.specs.Went.{read_got};
ghost use Rattle.bay_mem.specs.Failing.{CardLacks};

use crate::MemMap;
use crate::lies::{change_sizes, flip_bytes, is_flipped, lists_falsely};
use crate::mem_world::MemWorld;
use bay_core::{Bytes, DriveGot, Event, FileInfo, Listing, NameText};
use std::alloc::{AllocError, Global};

// Copies what stands at a place, as far as it and the limit go.
fn fill(from: &[u8], at: u64, limit: usize, into: &mut [u8]) -> usize
    requires { 1 ≤ limit }
    ensures length { length into.new ≡ length into.old }
    ensures within { result ≤ length into.new }
    ensures bytes { take result into.new ≡ take result (drop at from.now) }
    ensures some { result ≡ 0 → (length into.new ≡ 0) ⊎ (length from.now ≤ at) }
{
    let len = from.len();
    if at >= len as u64 {
        return 0;
    }
    let rest = &from[at as usize..];
    let n = rest.len().min(into.len()).min(limit);
    into[..n].copy_from_slice(&rest[..n]);
    n
}

// Reads a file of some files.
fn look(files: &MemMap, limit: usize, path: &str, at: u64, into: &mut [u8]) -> Option<usize>
    requires { 1 ≤ limit }
    ensures length { length into.new ≡ length into.old }
    ensures bound { IfSome result (λ n. n ≤ length into.new) }
    ensures content { ReadsAs files.now.map path.now at into.new result }
{
    match files.get(path) {
        Some(bytes) => Some(fill(bytes, at, limit, into)),
        None => None,
    }
}

// Reads a file of a drive as the drive shows it.
fn show(
    world: &MemWorld,
    limit: usize,
    d: u32,
    path: &str,
    at: u64,
    into: &mut [u8],
) -> Option<usize>
    requires drive { d < length world.now.fixed.drives }
    requires limit { 1 ≤ limit }
    ensures length { length into.new ≡ length into.old }
    ensures bound { IfSome result (λ n. n ≤ length into.new) }
    ensures content { (m : Files) → slice_get world.now.fixed.drives d ≡ Some m → flipped world.now.fixed.flips d ≡ false → ReadsAs (reads m.map world.now.events d) path.now at into.new result }
{
    let n = look(world.files(d), limit, path, at, into);
    if is_flipped(world.flips(), d) {
        let end = n.unwrap_or(0);
        flip_bytes(world.flips(), d, path.as_bytes(), at, &mut into[..end]);
    }
    n
}

// What a read noted.
fn got(alloc: Global, n: Option<usize>, into: &[u8]) -> Result<DriveGot, AllocError>
    requires { IfSome n (λ n. n ≤ length into.now) }
    ensures { IfOk result (λ got. got ≡ read_got n into.now) }
{
    match n {
        Some(n) => Ok(DriveGot::Read(Bytes::of(alloc, &into[..n])?)),
        None => Ok(DriveGot::Absent),
    }
}

pub fn try_read(
    alloc: Global,
    world: &mut MemWorld,
    limit: usize,
    d: u32,
    path: &str,
    at: u64,
    into: &mut [u8],
) -> Result<Option<usize>, AllocError>
    requires drive { d < length world.old.fixed.drives }
    requires limit { 1 ≤ limit }
    ensures length { length into.new ≡ length into.old }
    ensures bound { IfOk result (λ got. IfSome got (λ n. n ≤ length into.new)) }
    ensures ok { IfOk result (λ got. world.new ≡ noted world.old (DriveRead d path.now at (length into.new) (read_got got into.new))) }
    ensures content { IfOk result (λ got. (m : Files) → slice_get world.old.fixed.drives d ≡ Some m → flipped world.old.fixed.flips d ≡ false → ReadsAs (reads m.map world.old.events d) path.now at into.new got) }
    ensures err { OnErr result (world.new ≡ world.old) }
{
    let want = into.len() as u64;
    let n = show(world, limit, d, path, at, into);
    let got = got(alloc, n, into)?;
    let path = Bytes::of(alloc, path.as_bytes())?;
    world.note(Event::DriveRead {
        d,
        path,
        at,
        want,
        got,
    })?;
    Ok(n)
}

// None where the card has no such file.
pub fn try_source_read(
    alloc: Global,
    world: &mut MemWorld,
    limit: usize,
    s: u32,
    path: &str,
    at: u64,
    into: &mut [u8],
) -> Result<Option<usize>, AllocError>
    requires card { s < length world.old.fixed.cards }
    requires limit { 1 ≤ limit }
    ensures length { length into.new ≡ length into.old }
    ensures ok { IfOk result (λ got. IfSome got (λ n. world.new ≡ noted world.old (SourceRead s path.now at (length into.new) (Some (take n into.new))))) }
    ensures bound { IfOk result (λ got. IfSome got (λ n. n ≤ length into.new)) }
    ensures content { IfOk result (λ got. IfSome got (λ n. (f : Files) → slice_get world.old.fixed.cards s ≡ Some f → ReadsSome f.map path.now at into.new n)) }
    ensures absent { IfOk result (λ got. got ≡ None → world.new ≡ world.old) }
    ensures lacks { IfOk result (λ got. got ≡ None → CardLacks world.old s path.now) }
    ensures err { OnErr result (world.new ≡ world.old) }
{
    let want = into.len() as u64;
    let Some(n) = look(world.card(s), limit, path, at, into) else {
        return Ok(None);
    };
    let got = Some(Bytes::of(alloc, &into[..n])?);
    let path = Bytes::of(alloc, path.as_bytes())?;
    world.note(Event::SourceRead {
        s,
        path,
        at,
        want,
        got,
    })?;
    Ok(Some(n))
}

// The same files again.
fn copied(alloc: Global, files: &[FileInfo]) -> Result<Vec<FileInfo>, AllocError>
    ensures { IfOk result (λ copy. copy.items ≡ files.now) }
{
    let mut copy = Vec::new(alloc);
    for file in files {
        copy.push(FileInfo {
            path: NameText::of(alloc, file.path.as_str())?,
            size: file.size,
            modified: file.modified,
        })?;
    }
    Ok(copy)
}

pub fn try_list(alloc: Global, world: &mut MemWorld, d: u32) -> Result<Vec<FileInfo>, AllocError>
    requires { d < length world.old.fixed.drives }
    ensures ok { IfOk result (λ files. world.new ≡ noted world.old (DriveList d (Some files.items))) }
    ensures content { IfOk result (λ files. (m : Files) → slice_get world.old.fixed.drives d ≡ Some m → Lists (reads m.map world.old.events d) (dated m.dates world.old.events d) files.items) }
    ensures err { OnErr result (world.new ≡ world.old) }
{
    let files = world.files(d).list(alloc)?;
    let got = Some(Listing::of(copied(alloc, &files)?));
    world.note(Event::DriveList { d, got })?;
    Ok(files)
}

// The listing of a card as the card shows it.
fn card_listing(alloc: Global, world: &MemWorld, s: u32) -> Result<Vec<FileInfo>, AllocError>
    requires { s < length world.now.fixed.cards }
    ensures { IfOk result (λ files. (f : Files) → slice_get world.now.fixed.cards s ≡ Some f → falsely world.now.fixed.listed s f ≡ false → Lists f.map f.dates files.items) }
{
    let card = world.card(s);
    let mut files = card.list(alloc)?;
    if lists_falsely(world.listed(), s, card) {
        change_sizes(world.listed(), s, &mut files);
    }
    Ok(files)
}

pub fn try_source_list(
    alloc: Global,
    world: &mut MemWorld,
    s: u32,
) -> Result<Vec<FileInfo>, AllocError>
    requires { s < length world.old.fixed.cards }
    ensures ok { IfOk result (λ files. world.new ≡ noted world.old (SourceList s (Some files.items))) }
    ensures content { IfOk result (λ files. (f : Files) → slice_get world.old.fixed.cards s ≡ Some f → falsely world.old.fixed.listed s f ≡ false → Lists f.map f.dates files.items) }
    ensures err { OnErr result (world.new ≡ world.old) }
{
    let files = card_listing(alloc, world, s)?;
    let got = Some(Listing::of(copied(alloc, &files)?));
    world.note(Event::SourceList { s, got })?;
    Ok(files)
}

pub fn try_say(alloc: Global, world: &mut MemWorld, line: &[u8]) -> Result<(), AllocError>
    ensures ok { OnOk result (world.new ≡ noted world.old (Say line.now true)) }
    ensures err { OnErr result (world.new ≡ world.old) }
{
    let line = Bytes::of(alloc, line)?;
    world.note(Event::Say { line, ok: true })
}
