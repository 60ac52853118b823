// One map that a stop may leave of a drive, by a choice for each change that may be torn.
ghost use Rattle.std.specs.Prelude.{◌≡◌, length, IfOk, OnOk, option_map};
ghost use Rattle.std.specs.FinMap.{get};
ghost use Rattle.bay_core.specs.Map.{moved, copied};
ghost use Rattle.bay_core.specs.Replay.{changed, is_on, device_of};
ghost use Rattle.bay_core.specs.Torn.{Torn};
ghost use Rattle.bay_core.specs.Left.{Left};
ghost use Rattle.bay_mem.specs.Image.{done, answered, Leads};

use crate::MemMap;
use crate::changes::{move_file, write_file};
use bay_core::Event;
use std::alloc::{AllocError, Global};

// A path of a call. Each is UTF-8, since calls take texts.
fn text(path: &[u8]) -> Result<&str, AllocError>
    ensures { IfOk result (λ t. t.now ≡ path.now) }
{
    match str::from_utf8(path) {
        Ok(text) => Ok(text),
        Err(_) => Err(AllocError),
    }
}

// The bytes of a file, where it is there.
fn bytes_of(alloc: Global, files: &MemMap, path: &str) -> Result<Option<Vec<u8>>, AllocError>
    ensures { IfOk result (λ got. option_map (λ bytes. bytes.items) got ≡ get files.now.map path.now) }
{
    match files.get(path) {
        Some(bytes) => Ok(Some(bytes.to_vec(alloc)?)),
        None => Ok(None),
    }
}

// Moves a file to another name. An absent file is left so.
fn rename(alloc: Global, files: &mut MemMap, from: &str, to: &str) -> Result<(), AllocError>
    ensures { OnOk result (files.new.map ≡ moved files.old.map from.now to.now) }
{
    match bytes_of(alloc, files, from)? {
        Some(bytes) => move_file(files, from, to, bytes, 0),
        None => Ok(()),
    }
}

// Keeps a file under another name too. An absent file is left so.
fn duplicate(alloc: Global, files: &mut MemMap, from: &str, to: &str) -> Result<(), AllocError>
    ensures { OnOk result (files.new.map ≡ copied files.old.map from.now to.now) }
{
    match bytes_of(alloc, files, from)? {
        Some(bytes) => files.put(to, bytes, 0),
        None => Ok(()),
    }
}

// Makes a change whole, whatever it answered. A call that is no change makes nothing.
fn make(alloc: Global, files: &mut MemMap, event: &Event) -> Result<(), AllocError>
    ensures { OnOk result (files.new.map ≡ done event.now files.old.map) }
{
    match event {
        Event::Write {
            path,
            at,
            bytes,
            ..
        } => write_file(
            alloc,
            files,
            text(path.as_slice())?,
            *at,
            bytes.as_slice(),
            0,
        ),
        Event::Rename { from, to, .. } => rename(
            alloc,
            files,
            text(from.as_slice())?,
            text(to.as_slice())?,
        ),
        Event::Remove { path, .. } => {
            files.remove(text(path.as_slice())?);
            Ok(())
        }
        _ => Ok(()),
    }
}

// The same number of bytes, each of them this one.
fn filled(alloc: Global, len: usize, byte: u8) -> Result<Vec<u8>, AllocError>
    ensures { IfOk result (λ bytes. length bytes.items ≡ len) }
{
    vec![in alloc; byte; len]
}

// Leaves a change by a choice: undone, done, or done otherwise: a write with other bytes in the range, a rename with the
// file under both names.
fn leave(alloc: Global, files: &mut MemMap, event: &Event, choice: u32) -> Result<(), AllocError>
    ensures { OnOk result (Torn event.now files.old.map files.new.map) }
{
    if choice % 3 == 0 {
        return Ok(());
    }
    match event {
        Event::Write {
            path,
            at,
            bytes,
            ..
        } if choice % 3 == 2 => {
            let bytes = filled(alloc, bytes.as_slice().len(), (choice / 3 % 256) as u8)?;
            write_file(alloc, files, text(path.as_slice())?, *at, &bytes, 0)?;
            Ok(())
        }
        Event::Rename { from, to, .. } if choice % 3 == 2 => {
            duplicate(alloc, files, text(from.as_slice())?, text(to.as_slice())?)?;
            Ok(())
        }
        _ => {
            make(alloc, files, event)?;
            Ok(())
        }
    }
}

// Whether a call answered Ok, where it can fail.
fn is_answered(event: &Event) -> bool
    ensures { result ≡ answered event.now }
{
    match event {
        Event::Write { ok, .. } | Event::Rename { ok, .. } | Event::Remove { ok, .. } => *ok,
        _ => true,
    }
}

// What a call makes of what is read of a drive.
fn apply(alloc: Global, files: &mut MemMap, event: &Event) -> Result<(), AllocError>
    ensures { OnOk result (files.new.map ≡ changed files.old.map event.now) }
{
    if is_answered(event) {
        make(alloc, files, event)?;
    }
    Ok(())
}

// What is read of a drive after some calls, a map that may be left of it, and how many numbers were taken since the last
// barrier.
#[derive(Drop)]
struct Stand {
    read: MemMap,
    left: MemMap,
    taken: usize,
}

// One call more on the drive.
fn step(alloc: Global, stand: &mut Stand, event: &Event, choice: &[u32]) -> Result<(), AllocError>
    ensures read { OnOk result (stand.new.read.map ≡ changed stand.old.read.map event.now) }
    ensures left { OnOk result (Leads event.now stand.old.read.map stand.old.left.map stand.new.left.map) }
{
    match event {
        Event::Sync { ok: true, .. } => {
            stand.left = stand.read.copy()?;
            stand.taken = 0;
            Ok(())
        }
        Event::Write { .. } | Event::Rename { .. } | Event::Remove { .. } => {
            let chosen = choice.get(stand.taken).copied().unwrap_or(0);
            stand.taken = stand.taken.saturating_add(1);
            leave(alloc, &mut stand.left, event, chosen)?;
            apply(alloc, &mut stand.read, event)?;
            Ok(())
        }
        _ => Ok(()),
    }
}

// Whether a call was made on drive d.
fn is_call_on(event: &Event, d: u32) -> bool
    ensures { result ≡ is_on d (device_of event.now) }
{
    match event {
        Event::DriveList { d: on, .. }
        | Event::DriveRead { d: on, .. }
        | Event::Write { d: on, .. }
        | Event::Sync { d: on, .. }
        | Event::Rename { d: on, .. }
        | Event::Remove { d: on, .. } => *on == d,
        _ => false,
    }
}

/// One map that a stop after these calls may leave of drive `d`, which began as `start`.
///
/// Each change of the drive since its last barrier that answered Ok takes one number of `choice`, 0 where it has run out:
/// modulo 3, 0 is undone and 1 is done; 2 is done, for a write with each byte of the written range replaced by the
/// number's third, modulo 256, and for a rename with the bytes kept under the old name too.
pub fn image(
    alloc: Global,
    start: &MemMap,
    events: &[Event],
    d: u32,
    choice: &[u32],
) -> Result<MemMap, AllocError>
    ensures { IfOk result (λ left. Left start.now.map events.now d left.map) }
{
    let mut stand = Stand {
        read: start.copy()?,
        left: start.copy()?,
        taken: 0,
    };
    for event in events {
        if is_call_on(event, d) {
            step(alloc, &mut stand, event, choice)?;
        }
    }
    Ok(stand.left)
}
