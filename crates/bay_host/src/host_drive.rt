ghost use Rattle.std.specs.Prelude.{◌≡◌, ◌≤◌, length, is_ok, IfOk, IfSome, Ok};
ghost use Rattle.bay_host.specs.Host.{Counts};

use crate::open_folder::OpenFolder;
use bay_core::{Failed, FileInfo};
use std::alloc::Global;
use std::fs::{File, Files};
use std::io;
use std::marker::Model;

/// A folder that was attached, seen as how often a call on it failed.
#[derive(Drop)]
pub struct HostDrive {
    folder: OpenFolder,
    faults: u64,
}

impl Model for HostDrive {
    ghost use Rattle.std.specs.Prelude.{ℕ};

    ghost Value = { ℕ };

    ghost view = { λ d. d.faults };
}

/// Counts a failed call.
pub fn counted<T>(faults: &mut u64, outcome: io::Result<T>) -> Result<T, Failed>
    ensures counts { Counts (is_ok result) faults.old faults.new }
    ensures same { IfOk result (λ x. outcome ≡ Ok x) }
    ensures both { is_ok result ≡ is_ok outcome }
{
    match outcome {
        Ok(value) => Ok(value),
        Err(_) => {
            *faults = faults.saturating_add(1);
            Err(Failed)
        }
    }
}

impl HostDrive {
    /// A folder on which no call failed yet.
    pub fn new(folder: OpenFolder) -> HostDrive
        ensures { result ≡ 0 }
    {
        HostDrive { folder, faults: 0 }
    }

    /// Every file below the folder.
    pub fn list<R: Files + AllocGlobal + Clone + Drop>(
        &mut self,
        rt: &R,
        alloc: Global,
    ) -> Result<Vec<FileInfo>, Failed>
        ensures { Counts (is_ok result) self.old self.new }
    {
        let outcome = self.folder.list(rt, alloc);
        counted(&mut self.faults, outcome)
    }

    /// Reads at a place. `None` where there is no such file.
    pub fn read<R: Files<File = File> + AllocGlobal>(
        &mut self,
        rt: &R,
        path: &str,
        at: u64,
        into: &mut [u8],
    ) -> Result<Option<usize>, Failed>
        ensures counts { Counts (is_ok result) self.old self.new }
        ensures bound { IfOk result (λ got. IfSome got (λ n. n ≤ length into.new)) }
    {
        let outcome = self.folder.read(rt, path, at, into);
        counted(&mut self.faults, outcome)
    }

    /// Reads at a place of a file that must be there.
    pub fn read_present<R: Files<File = File> + AllocGlobal>(
        &mut self,
        rt: &R,
        path: &str,
        at: u64,
        into: &mut [u8],
    ) -> Result<usize, Failed>
        ensures counts { Counts (is_ok result) self.old self.new }
        ensures bound { IfOk result (λ n. n ≤ length into.new) }
    {
        let outcome = self.folder.read_present(rt, path, at, into);
        counted(&mut self.faults, outcome)
    }

    /// Writes a piece. Makes the file and its folders where they are absent.
    pub fn write<R: Files<File = File> + AllocGlobal>(
        &mut self,
        rt: &R,
        path: &str,
        at: u64,
        bytes: &[u8],
    ) -> Result<(), Failed>
        ensures { Counts (is_ok result) self.old self.new }
    {
        let outcome = self.folder.write(rt, path, at, bytes);
        counted(&mut self.faults, outcome)
    }

    /// Makes sure of all that changed since the last time that this answered Ok.
    pub fn sync<R: Files<File = File> + AllocGlobal>(&mut self, rt: &R) -> Result<(), Failed>
        ensures { Counts (is_ok result) self.old self.new }
    {
        let outcome = self.folder.sync(rt);
        counted(&mut self.faults, outcome)
    }

    /// Renames a file that is there.
    pub fn rename<R: Files + AllocGlobal>(
        &mut self,
        rt: &R,
        from: &str,
        to: &str,
    ) -> Result<(), Failed>
        ensures { Counts (is_ok result) self.old self.new }
    {
        let outcome = self.folder.rename(rt, from, to);
        counted(&mut self.faults, outcome)
    }

    /// Removes a file. Where there is none, nothing changes.
    pub fn remove<R: Files + AllocGlobal>(&mut self, rt: &R, path: &str) -> Result<(), Failed>
        ensures { Counts (is_ok result) self.old self.new }
    {
        let outcome = self.folder.remove(rt, path);
        counted(&mut self.faults, outcome)
    }
}
