ghost use Rattle.std.specs.Prelude.{◌≡◌, IfOk, OnErr, OnOk, nat_eq, option_copied};
ghost use Rattle.std.specs.FinMap.{get, len};
ghost use Rattle.bay_mem.specs.Files.{no_files, with_file, without_file};
ghost use Rattle.bay_core.specs.Map.{Lists, AllDated};

use bay_core::{FileInfo, NameText};
use std::alloc::{AllocError, Global};
use std::collections::BTreeMap;
use std::marker::Model;

#[derive(Clone, Drop)]
struct MemFile {
    bytes: Vec<u8>,
    modified: u64,
}

/// Files in memory, by their paths, each with its bytes and the second since 1970 at which it was
/// changed last.
#[derive(Drop)]
pub struct MemMap {
    alloc: Global,
    files: BTreeMap<String, MemFile>,
}

impl Model for MemMap {
    ghost use Rattle.bay_mem.specs.Files.{Files, files_code};

    ghost Value = { Files };

    ghost coded = { files_code };

    ghost use Rattle.bay_mem.specs.Tree.{files_of};

    ghost view = { λ a. files_of a.files };
}

impl MemMap {
    /// No file. Takes no memory.
    pub fn new(alloc: Global) -> MemMap
        ensures { result ≡ no_files }
    {
        MemMap {
            alloc,
            files: BTreeMap::new(alloc),
        }
    }

    /// Adds a file, in the place of one with that path. Want of memory is the only error, and then
    /// nothing has changed.
    pub fn add(&mut self, path: &str, bytes: &[u8], modified: u64) -> Result<(), AllocError>
        ensures ok { OnOk result (self.new ≡ with_file self.old path.now bytes.now modified) }
        ensures err { OnErr result (self.new ≡ self.old) }
    {
        let bytes = bytes.to_vec(self.alloc)?;
        self.put(path, bytes, modified)
    }

    // Puts a file there, in the place of one with that path.
    pub(crate) fn put(
        &mut self,
        path: &str,
        bytes: Vec<u8>,
        modified: u64,
    ) -> Result<(), AllocError>
        ensures ok { OnOk result (self.new ≡ with_file self.old path.now bytes.items modified) }
        ensures err { OnErr result (self.new ≡ self.old) }
    {
        let key = path.to_owned(self.alloc)?;
        self.files.insert(key, MemFile { bytes, modified })?;
        Ok(())
    }

    // Removes a file. An absent path changes nothing.
    pub(crate) fn remove(&mut self, path: &str)
        ensures { self.new ≡ without_file self.old path.now }
    {
        let _ = self.files.remove(path);
    }

    /// The bytes of a file.
    pub fn get(&self, path: &str) -> Option<&[u8]>
        ensures { option_copied result ≡ get self.now.map path.now }
    {
        match self.files.get(path) {
            Some(file) => Some(file.bytes.as_slice()),
            None => None,
        }
    }

    /// How many files there are.
    pub fn len(&self) -> usize
        ensures { result ≡ len self.now.map }
    {
        self.files.len()
    }

    /// Whether there is no file.
    pub fn is_empty(&self) -> bool
        ensures { result ≡ nat_eq (len self.now.map) 0 }
    {
        self.len() == 0
    }

    // The same files again, each with its date.
    pub(crate) fn copy(&self) -> Result<MemMap, AllocError>
        ensures same { IfOk result (λ copy. copy ≡ self.now) }
        ensures dated { IfOk result (λ copy. AllDated copy.map copy.dates) }
    {
        Ok(MemMap {
            alloc: self.alloc,
            files: self.files.clone()?,
        })
    }

    // Each file with its size and its date, in the order of the paths.
    pub(crate) fn list(&self, alloc: Global) -> Result<Vec<FileInfo>, AllocError>
        ensures { IfOk result (λ files. Lists self.now.map self.now.dates files.items) }
    {
        let mut files = Vec::new(alloc);
        for (path, file) in &self.files {
            files.push(FileInfo {
                path: NameText::of(alloc, path)?,
                size: file.bytes.len() as u64,
                modified: file.modified,
            })?;
        }
        Ok(files)
    }
}
