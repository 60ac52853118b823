ghost use Rattle.std.specs.Prelude.{◌≡◌, ◌↔◌, ℕ, List, false, not, string_bytes, IsTrue, IfOk, OnOk};
ghost use Rattle.std.specs.List.{filter};
ghost use Rattle.std.specs.FinMap.{get, keys};
ghost use Rattle.folder_listing.specs.Listing.{listing, sizes_in, is_marked, Marks, IsCrossed, IsTaken};
ghost use Rattle.folder_listing.specs.Tree.{Notes, HasAbove};

use bay_core::{FileInfo, NameText};
use std::alloc::{AllocError, Global};
use std::collections::BTreeMap;
use std::marker::Model;

/// The files of a listing by path: their sizes, and which of them are marked.
#[derive(Drop)]
pub struct Folder {
    files: BTreeMap<String, Seen>,
}

// A file of the listing.
#[derive(Drop)]
struct Seen {
    size: u64,
    marked: bool,
}

impl Model for Folder {
    ghost use Rattle.folder_listing.specs.Listing.{Contents, contents_code};

    ghost Value = { Contents };

    ghost coded = { contents_code };

    ghost use Rattle.folder_listing.specs.Tree.{contents_of};

    ghost view = { λ a. contents_of a.files };
}

impl Folder {
    /// The files of a listing, none of them marked. Of a path that is listed twice it has the first
    /// size. The names are taken over, not copied; the error is want of memory.
    pub fn of_files(alloc: Global, files: Vec<FileInfo>) -> Result<Folder, AllocError>
        ensures sizes { IfOk result (λ folder. sizes_in folder ≡ listing files.items) }
        ensures unmarked { IfOk result (λ folder. (q : List ℕ) → is_marked folder q ≡ false) }
    {
        let mut seen = BTreeMap::new(alloc);
        for file in files {
            note(&mut seen, file.path.into_string(), file.size)?;
        }
        Ok(Folder { files: seen })
    }

    /// The size in bytes of the file at a path.
    pub fn size(&self, path: &str) -> Option<u64>
        ensures { result ≡ get (sizes_in self.now) path.now }
    {
        self.files.get(path).map(|file| file.size)
    }

    /// Marks the file at a path, if there is one. Takes no memory.
    pub fn mark(&mut self, path: &str)
        ensures { Marks path.now self.old self.new }
    {
        if let Some(file) = self.files.get_mut(path) {
            file.marked = true;
        }
    }

    /// Copies of the names that are not marked, in byte order. The error is want of memory.
    pub fn unmarked(&self, alloc: Global) -> Result<Vec<NameText>, AllocError>
        ensures { IfOk result (λ names. names.items ≡ filter (λ q. not (is_marked self.now q)) (keys (sizes_in self.now))) }
    {
        let mut names = Vec::new(alloc);
        for (path, file) in &self.files {
            if !file.marked {
                names.push(NameText::of(alloc, path.as_str())?)?;
            }
        }
        Ok(names)
    }

    /// Whether a listed name lies above a path or below it, over bytes; whether the path itself is listed does not
    /// matter. In byte order the names below it stand side by side, from the path and a slash on, so one search finds
    /// them; one look-up for each slash in the path finds those above it. The error is want of memory.
    pub fn is_crossed(&self, alloc: Global, path: &str) -> Result<bool, AllocError>
        ensures { IfOk result (λ crossed. IsTrue crossed ↔ IsCrossed (get (sizes_in self.now)) path.now) }
    {
        if has_above(&self.files, path) {
            return Ok(true);
        }
        let mut below = String::new(alloc);
        below.push_str(path)?;
        below.push('/')?;
        let Some((name, _)) = self.files.range(&below..).next() else {
            return Ok(false);
        };
        Ok(name.as_bytes().starts_with(below.as_bytes()))
    }

    /// Whether a listed name is a path, lies above it or lies below it, over bytes: whether something stands in the
    /// way of a file with this path. Names of all kinds count, also those that are no valid paths. The error is want
    /// of memory.
    pub fn is_taken(&self, alloc: Global, path: &str) -> Result<bool, AllocError>
        ensures { IfOk result (λ taken. IsTrue taken ↔ IsTaken (get (sizes_in self.now)) path.now) }
    {
        if self.size(path).is_some() {
            return Ok(true);
        }
        self.is_crossed(alloc, path)
    }
}

// Notes a file that is not marked, unless there is one with its path.
fn note(files: &mut BTreeMap<String, Seen>, path: String, size: u64) -> Result<(), AllocError>
    ensures { OnOk result (Notes (string_bytes path) size files.old files.new) }
{
    let marked = false;
    files.entry(path)?.or_insert(Seen { size, marked });
    Ok(())
}

// Whether a file lies above a path: the paths above it are what is left of it before each of its slashes.
fn has_above(files: &BTreeMap<String, Seen>, path: &str) -> bool
    ensures { IsTrue result ↔ HasAbove files.now path.now }
{
    let mut rest = path;
    while let Some((above, _)) = rest.rsplit_once("/") {
        if files.contains_key(above) {
            return true;
        }
        rest = above;
    }
    false
}
