// Changes of one drive in memory. Each is made and noted, or nothing changes.
ghost use Rattle.std.specs.Prelude.{◌≡◌, ℕ, ◌++◌, [], ◌∷◌, IfOk, OnOk, OnErr, true, Some};
ghost use Rattle.std.specs.FinMap as map;
ghost use Rattle.bay_core.specs.Map.{content, overwritten};
ghost use Rattle.bay_core.specs.Went.{write_call, rename_call, remove_call};
ghost use Rattle.bay_mem.specs.Files.{Becomes};

use crate::MemMap;
use bay_core::{Bytes, Event};
use std::alloc::{AllocError, Global};

// A file's bytes after others were written at a place. No memory could hold more than 2^64 - 1 bytes.
fn written(alloc: Global, old: &[u8], at: usize, bytes: &[u8]) -> Result<Vec<u8>, AllocError>
    ensures { IfOk result (λ v. v.items ≡ overwritten old.now at bytes.now) }
{
    let Some(end) = at.checked_add(bytes.len()) else {
        return Err(AllocError);
    };
    let mut all = Vec::new(alloc);
    if at <= old.len() {
        all.extend_from_slice(&old[..at])?;
    } else {
        all.extend_from_slice(old)?;
        all.resize(at, 0)?;
    }
    all.extend_from_slice(bytes)?;
    if end < old.len() {
        all.extend_from_slice(&old[end..])?;
    }
    Ok(all)
}

// A file's bytes after a write, of a file that may be absent.
fn next_bytes(
    alloc: Global,
    now: &MemMap,
    path: &str,
    at: u64,
    bytes: &[u8],
) -> Result<Vec<u8>, AllocError>
    ensures { IfOk result (λ v. v.items ≡ overwritten (content now.now.map path.now) at bytes.now) }
{
    match now.get(path) {
        Some(old) => written(alloc, old, at as usize, bytes),
        None => written(alloc, &[], at as usize, bytes),
    }
}

// Writes to a file. Its date is `modified` from then on.
pub fn write_file(
    alloc: Global,
    now: &mut MemMap,
    path: &str,
    at: u64,
    bytes: &[u8],
    modified: u64,
) -> Result<(), AllocError>
    ensures ok { OnOk result ((d : ℕ) → Becomes (write_call d path.now at bytes.now true) now.old now.new) }
    ensures err { OnErr result (now.new ≡ now.old) }
{
    let next = next_bytes(alloc, now, path, at, bytes)?;
    now.put(path, next, modified)
}

pub fn try_write(
    alloc: Global,
    events: &mut Vec<Event>,
    now: &mut MemMap,
    d: u32,
    path: &str,
    at: u64,
    bytes: &[u8],
    modified: u64,
) -> Result<(), AllocError>
    ensures noted { OnOk result (events.new.items ≡ events.old.items ++ write_call d path.now at bytes.now true ∷ []) }
    ensures made { OnOk result (Becomes (write_call d path.now at bytes.now true) now.old now.new) }
    ensures unnoted { OnErr result (events.new.items ≡ events.old.items) }
    ensures unmade { OnErr result (now.new ≡ now.old) }
{
    let event = Event::Write {
        d,
        path: Bytes::of(alloc, path.as_bytes())?,
        at,
        bytes: Bytes::of(alloc, bytes)?,
        ok: true,
    };
    events.reserve(1)?;
    write_file(alloc, now, path, at, bytes, modified)?;
    match events.push(event) {
        Ok(()) => Ok(()),
        Err(_) => unreachable!(),
    }
}

pub fn try_remove(
    alloc: Global,
    events: &mut Vec<Event>,
    now: &mut MemMap,
    d: u32,
    path: &str,
) -> Result<(), AllocError>
    ensures noted { OnOk result (events.new.items ≡ events.old.items ++ remove_call d path.now true ∷ []) }
    ensures made { OnOk result (Becomes (remove_call d path.now true) now.old now.new) }
    ensures unnoted { OnErr result (events.new.items ≡ events.old.items) }
    ensures unmade { OnErr result (now.new ≡ now.old) }
{
    let event = Event::Remove {
        d,
        path: Bytes::of(alloc, path.as_bytes())?,
        ok: true,
    };
    events.push(event)?;
    now.remove(path);
    Ok(())
}

// Moves a file with these bytes. Its date is `modified` from then on.
pub fn move_file(
    now: &mut MemMap,
    from: &str,
    to: &str,
    bytes: Vec<u8>,
    modified: u64,
) -> Result<(), AllocError>
    requires { map.get now.old.map from.now ≡ Some bytes.items }
    ensures ok { OnOk result ((d : ℕ) → Becomes (rename_call d from.now to.now true) now.old now.new) }
    ensures err { OnErr result (now.new ≡ now.old) }
{
    now.put(to, bytes, modified)?;
    if from != to {
        now.remove(from);
    }
    Ok(())
}

// The file's bytes are those that it has.
pub fn try_rename(
    alloc: Global,
    events: &mut Vec<Event>,
    now: &mut MemMap,
    d: u32,
    from: &str,
    to: &str,
    bytes: Vec<u8>,
    modified: u64,
) -> Result<(), AllocError>
    requires { map.get now.old.map from.now ≡ Some bytes.items }
    ensures noted { OnOk result (events.new.items ≡ events.old.items ++ rename_call d from.now to.now true ∷ []) }
    ensures made { OnOk result (Becomes (rename_call d from.now to.now true) now.old now.new) }
    ensures unnoted { OnErr result (events.new.items ≡ events.old.items) }
    ensures unmade { OnErr result (now.new ≡ now.old) }
{
    let event = Event::Rename {
        d,
        from: Bytes::of(alloc, from.as_bytes())?,
        to: Bytes::of(alloc, to.as_bytes())?,
        ok: true,
    };
    events.reserve(1)?;
    move_file(now, from, to, bytes, modified)?;
    match events.push(event) {
        Ok(()) => Ok(()),
        Err(_) => unreachable!(),
    }
}
