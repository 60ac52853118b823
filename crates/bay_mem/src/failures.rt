// Failed calls in memory. Each is counted, and noted where memory is there for its event.
ghost use Rattle.std.specs.Prelude.{◌<◌, length, false, None};
ghost use Rattle.bay_core.specs.declared.event.Event.TheVariants.{AttachFailed, SourceList, SourceRead, DriveList, DriveRead, Write, Sync, Rename, Remove, Say};
ghost use Rattle.bay_core.specs.declared.event.DriveGot.TheVariants.{Failed};
ghost use Rattle.bay_core.specs.Replay.{Source, Drive, Attaching, Output};
ghost use Rattle.bay_mem.specs.State.{Fails, Keeps};

use crate::mem_world::MemWorld;
use bay_core::{Bytes, DriveGot, Event};
use std::alloc::{AllocError, Global};

pub fn fail_attach(alloc: Global, world: &mut MemWorld, place: &str) -> Result<(), AllocError>
    ensures fails { Fails Attaching (AttachFailed place.now) world.old world.new }
    ensures kept { Keeps world.old }
{
    world.raise_attaching();
    let place = Bytes::of(alloc, place.as_bytes())?;
    world.note(Event::AttachFailed { place })
}

pub fn fail_source_list(world: &mut MemWorld, s: u32) -> Result<(), AllocError>
    requires { s < length world.old.fixed.cards }
    ensures { Fails (Source s) (SourceList s None) world.old world.new }
{
    world.raise_card(s);
    world.note(Event::SourceList { s, got: None })
}

pub fn fail_source_read(
    alloc: Global,
    world: &mut MemWorld,
    s: u32,
    path: &str,
    at: u64,
    want: u64,
) -> Result<(), AllocError>
    requires { s < length world.old.fixed.cards }
    ensures { Fails (Source s) (SourceRead s path.now at want None) world.old world.new }
{
    world.raise_card(s);
    let path = Bytes::of(alloc, path.as_bytes())?;
    world.note(Event::SourceRead {
        s,
        path,
        at,
        want,
        got: None,
    })
}

pub fn fail_list(world: &mut MemWorld, d: u32) -> Result<(), AllocError>
    requires { d < length world.old.fixed.drives }
    ensures { Fails (Drive d) (DriveList d None) world.old world.new }
{
    world.raise_drive(d);
    world.note(Event::DriveList { d, got: None })
}

pub fn fail_read(
    alloc: Global,
    world: &mut MemWorld,
    d: u32,
    path: &str,
    at: u64,
    want: u64,
) -> Result<(), AllocError>
    requires { d < length world.old.fixed.drives }
    ensures { Fails (Drive d) (DriveRead d path.now at want Failed) world.old world.new }
{
    world.raise_drive(d);
    let path = Bytes::of(alloc, path.as_bytes())?;
    world.note(Event::DriveRead {
        d,
        path,
        at,
        want,
        got: DriveGot::Failed,
    })
}

pub fn fail_write(
    alloc: Global,
    world: &mut MemWorld,
    d: u32,
    path: &str,
    at: u64,
    bytes: &[u8],
) -> Result<(), AllocError>
    requires { d < length world.old.fixed.drives }
    ensures { Fails (Drive d) (Write d path.now at bytes.now false) world.old world.new }
{
    world.raise_drive(d);
    let path = Bytes::of(alloc, path.as_bytes())?;
    let bytes = Bytes::of(alloc, bytes)?;
    world.note(Event::Write {
        d,
        path,
        at,
        bytes,
        ok: false,
    })
}

pub fn fail_sync(world: &mut MemWorld, d: u32) -> Result<(), AllocError>
    requires { d < length world.old.fixed.drives }
    ensures { Fails (Drive d) (Sync d false) world.old world.new }
{
    world.raise_drive(d);
    world.note(Event::Sync { d, ok: false })
}

pub fn fail_rename(
    alloc: Global,
    world: &mut MemWorld,
    d: u32,
    from: &str,
    to: &str,
) -> Result<(), AllocError>
    requires { d < length world.old.fixed.drives }
    ensures { Fails (Drive d) (Rename d from.now to.now false) world.old world.new }
{
    world.raise_drive(d);
    let from = Bytes::of(alloc, from.as_bytes())?;
    let to = Bytes::of(alloc, to.as_bytes())?;
    world.note(Event::Rename {
        d,
        from,
        to,
        ok: false,
    })
}

pub fn fail_remove(
    alloc: Global,
    world: &mut MemWorld,
    d: u32,
    path: &str,
) -> Result<(), AllocError>
    requires { d < length world.old.fixed.drives }
    ensures { Fails (Drive d) (Remove d path.now false) world.old world.new }
{
    world.raise_drive(d);
    let path = Bytes::of(alloc, path.as_bytes())?;
    world.note(Event::Remove { d, path, ok: false })
}

pub fn fail_say(alloc: Global, world: &mut MemWorld, line: &[u8]) -> Result<(), AllocError>
    ensures { Fails Output (Say line.now false) world.old world.new }
{
    world.raise_output();
    let line = Bytes::of(alloc, line)?;
    world.note(Event::Say { line, ok: false })
}
