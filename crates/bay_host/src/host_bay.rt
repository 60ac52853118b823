ghost use Rattle.std.specs.Prelude.{◌≡◌, ◌≤◌, ◌<◌, ◌-◌, ◌^◌, ◌++◌, ◌∷◌, [], length, is_ok, IfOk, OnErr, None};
ghost use Rattle.bay_core.specs.Replay.{Device};
ghost use Rattle.bay_host.specs.Host.{host_world};

use crate::host_drive::{HostDrive, counted};
use crate::open_folder::OpenFolder;
use bay_core::{Bay, Failed, FileInfo, ListError};
use std::alloc::Global;
use std::fs::{File, Files};
use std::io;
use std::io::Write;
use std::marker::Model;
use std::time::{Clock, SystemTime, UNIX_EPOCH};

// The second 9999-12-31T23:59:59Z.
const LAST_MOMENT: u64 = 253_402_300_799;

/// Folders of the system as cards and drives, and standard output.
///
/// A path is one below the folder of its card or drive, with `/` between its parts. That folder may
/// be a link; no link below it is followed. Before a file is opened, renamed or removed, each folder
/// on its way is looked at, and what stands at its path. The call fails where a folder on the way is
/// neither absent nor a folder, where anything but a file stands at the path, and where a part is
/// `..`. Somebody who puts a link in the place of a folder or a file between the look and the use
/// is not seen. docs/DECISIONS.md, "Real folders".
///
/// Links and special files are not listed. A name that is not UTF-8 makes a listing fail; attaching
/// a drive passes over it.
///
/// The file of each device that was used last stays open, and is read and written without another
/// look. Want of memory for a path, a listing or the note of a change counts as a failed call of the
/// device.
#[derive(Drop)]
pub struct HostBay<R: Files<File = File> + AllocGlobal + Clone + Drop + Print + Clock> {
    rt: R,
    sources: Vec<HostDrive>,
    drives: Vec<HostDrive>,
    attaching: u64,
    output: u64,
    picked: u32,
}

impl<R: Files<File = File> + AllocGlobal + Clone + Drop + Print + Clock> Model for HostBay<R> {
    ghost use Rattle.bay_host.specs.Host.{Faults};

    ghost Value = { Faults };

    ghost view = { λ b. record { sources = b.sources.items; drives = b.drives.items; attaching = b.attaching; output = b.output } };
}

impl<R: Files<File = File> + AllocGlobal + Clone + Drop + Print + Clock> HostBay<R> {
    /// A bay with no card and no drive. Takes no memory.
    pub fn new(rt: R, alloc: Global) -> Self
        ensures untold { (host_world result).events ≡ None }
        ensures counts { (x : Device) → (host_world result).faults x ≡ 0 }
        ensures sources { (host_world result).attached.sources ≡ 0 }
        ensures drives { (host_world result).attached.drives ≡ 0 }
    {
        HostBay {
            rt,
            sources: Vec::new(alloc),
            drives: Vec::new(alloc),
            attaching: 0,
            output: 0,
            picked: 0,
        }
    }
}

// Adds a folder to the cards or the drives. The answer is its number there.
fn added(devices: &mut Vec<HostDrive>, folder: OpenFolder) -> io::Result<u32>
    requires { length devices.old.items < 2 ^ 32 - 1 }
    ensures ok { IfOk result (λ n. (n ≡ length devices.old.items) × (devices.new.items ≡ devices.old.items ++ 0 ∷ [])) }
    ensures err { OnErr result (devices.new.items ≡ devices.old.items) }
{
    let number = devices.len() as u32;
    devices.push(HostDrive::new(folder))?;
    Ok(number)
}

// The folder at a place as a card.
fn attached_source<R: Files + AllocGlobal>(
    rt: &R,
    sources: &mut Vec<HostDrive>,
    place: &str,
) -> io::Result<u32>
    requires { length sources.old.items < 2 ^ 32 - 1 }
    ensures ok { IfOk result (λ s. (s ≡ length sources.old.items) × (sources.new.items ≡ sources.old.items ++ 0 ∷ [])) }
    ensures err { OnErr result (sources.new.items ≡ sources.old.items) }
{
    let folder = OpenFolder::at(rt, place)?;
    added(sources, folder)
}

// The folder at a place as a drive, once all that is in it is made sure of.
fn attached_drive<R: Files<File = File> + AllocGlobal + Clone + Drop>(
    rt: &R,
    drives: &mut Vec<HostDrive>,
    place: &str,
) -> io::Result<u32>
    requires { length drives.old.items < 2 ^ 32 - 1 }
    ensures ok { IfOk result (λ d. (d ≡ length drives.old.items) × (drives.new.items ≡ drives.old.items ++ 0 ∷ [])) }
    ensures err { OnErr result (drives.new.items ≡ drives.old.items) }
{
    let folder = OpenFolder::at(rt, place)?;
    folder.sync_whole(rt)?;
    added(drives, folder)
}

// Seconds since 1970, 0 for a clock that fails or stands before it.
fn now_seconds(rt: &impl Clock) -> u64
    ensures { result ≤ 253_402_300_799 }
{
    match SystemTime::now(rt) {
        Ok(now) => match now.duration_since(UNIX_EPOCH) {
            Ok(since) => since.as_secs().min(LAST_MOMENT),
            Err(_) => 0,
        },
        Err(_) => 0,
    }
}

fn say_line(rt: &(impl Print + Clone + Drop), line: &[u8]) -> io::Result<()> {
    let mut out = io::writer(rt);
    out.write_all(line)?;
    out.write_all(b"\n")?;
    out.flush()
}

impl<R: Files<File = File> + AllocGlobal + Clone + Drop + Print + Clock> Bay for HostBay<R> {
    ghost world = { λ b. host_world b };

    fn attach_source(&mut self, place: &str) -> Result<u32, Failed> {
        let outcome = attached_source(&self.rt, &mut self.sources, place);
        counted(&mut self.attaching, outcome)
    }

    fn attach_drive(&mut self, place: &str) -> Result<u32, Failed> {
        let outcome = attached_drive(&self.rt, &mut self.drives, place);
        counted(&mut self.attaching, outcome)
    }

    fn source_list(&mut self, alloc: Global, s: u32) -> Result<Vec<FileInfo>, ListError> {
        let source = &mut self.sources[s as usize];
        match source.list(&self.rt, alloc) {
            Ok(files) => Ok(files),
            Err(_) => Err(ListError::Failed),
        }
    }

    fn source_read(
        &mut self,
        s: u32,
        path: &str,
        at: u64,
        into: &mut [u8],
    ) -> Result<usize, Failed> {
        let source = &mut self.sources[s as usize];
        source.read_present(&self.rt, path, at, into)
    }

    fn drive_list(&mut self, alloc: Global, d: u32) -> Result<Vec<FileInfo>, ListError> {
        let drive = &mut self.drives[d as usize];
        match drive.list(&self.rt, alloc) {
            Ok(files) => Ok(files),
            Err(_) => Err(ListError::Failed),
        }
    }

    fn drive_read(
        &mut self,
        d: u32,
        path: &str,
        at: u64,
        into: &mut [u8],
    ) -> Result<Option<usize>, Failed> {
        let drive = &mut self.drives[d as usize];
        drive.read(&self.rt, path, at, into)
    }

    fn write(&mut self, d: u32, path: &str, at: u64, bytes: &[u8]) -> Result<(), Failed> {
        let drive = &mut self.drives[d as usize];
        drive.write(&self.rt, path, at, bytes)
    }

    fn sync(&mut self, d: u32) -> Result<(), Failed> {
        let drive = &mut self.drives[d as usize];
        drive.sync(&self.rt)
    }

    fn rename(&mut self, d: u32, from: &str, to: &str) -> Result<(), Failed> {
        let drive = &mut self.drives[d as usize];
        drive.rename(&self.rt, from, to)
    }

    fn remove(&mut self, d: u32, path: &str) -> Result<(), Failed> {
        let drive = &mut self.drives[d as usize];
        drive.remove(&self.rt, path)
    }

    fn moment(&mut self) -> u64 {
        now_seconds(&self.rt)
    }

    fn pick(&mut self) -> u32 {
        self.picked = self.picked.wrapping_add(1);
        self.picked
    }

    fn say(&mut self, line: &[u8]) -> Result<(), Failed> {
        let outcome = say_line(&self.rt, line);
        counted(&mut self.output, outcome)
    }
}
