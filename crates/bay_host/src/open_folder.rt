ghost use Rattle.std.specs.Prelude.{◌≤◌, length, IfOk, IfSome};

use crate::folder::{
    folder_ending, folder_of, has_file, joined, list_files, make_folder, sync_at, sync_below,
};
use bay_core::FileInfo;
use std::alloc::{AllocError, Global};
use std::collections::BTreeSet;
use std::fs::{File, Files, OpenOptions};
use std::io::{Error, ErrorKind};
use std::os::unix::fs::FileExt;
use std::{fs, io};

// What a file was opened for.
#[derive(Clone, Copy, PartialEq, Eq)]
enum Mode {
    Read,
    Write,
}

// An open file, with its path below the folder.
#[derive(Drop)]
struct OpenFile {
    path: String,
    mode: Mode,
    file: File,
}

/// A folder of the system, with the file that was used last, which stays open, and the paths of
/// the files and folders that changed since the last barrier.
#[derive(Drop)]
pub struct OpenFolder {
    root: String,
    open: Option<OpenFile>,
    changed: BTreeSet<String>,
}

// Opens a file to read. `None` where there is no such file.
fn open_to_read<R: Files<File = File> + AllocGlobal>(
    rt: &R,
    root: &str,
    path: &str,
) -> io::Result<Option<OpenFile>> {
    if !has_file(rt, root, path)? {
        return Ok(None);
    }
    let alloc = rt.alloc();
    Ok(Some(OpenFile {
        path: path.to_owned(alloc)?,
        mode: Mode::Read,
        file: fs::open(rt, joined(alloc, root, path)?.as_str())?,
    }))
}

// Writes a piece. The system fills what lies between the end and `at` with zeros, but for no bytes
// it does nothing.
fn write_piece(file: &File, at: u64, bytes: &[u8]) -> io::Result<()> {
    if !bytes.is_empty() {
        return file.write_all_at(bytes, at);
    }
    if file.metadata()?.len() < at {
        file.set_len(at)?;
    }
    Ok(())
}

impl OpenFolder {
    /// The folder at a place, if there is one.
    pub fn at<R: Files + AllocGlobal>(rt: &R, place: &str) -> io::Result<OpenFolder> {
        if !fs::metadata(rt, place)?.is_dir() {
            return Err(Error::from(ErrorKind::NotADirectory));
        }
        let alloc = rt.alloc();
        Ok(OpenFolder {
            root: place.to_owned(alloc)?,
            open: None,
            changed: BTreeSet::new(alloc),
        })
    }

    /// Makes sure of all that is in the folder, whoever changed it.
    pub fn sync_whole<R: Files<File = File> + AllocGlobal + Clone + Drop>(
        &self,
        rt: &R,
    ) -> io::Result<()> {
        sync_below(rt, &self.root)
    }

    /// Every file below the folder.
    pub fn list<R: Files + AllocGlobal + Clone + Drop>(
        &self,
        rt: &R,
        alloc: Global,
    ) -> io::Result<Vec<FileInfo>> {
        list_files(rt, alloc, &self.root)
    }

    // The open file is this one, opened for this.
    fn is_open(&self, path: &str, mode: Mode) -> bool {
        match &self.open {
            Some(open) => open.mode == mode && open.path.as_str() == path,
            None => false,
        }
    }

    /// Reads at a place. `None` where there is no such file.
    pub fn read<R: Files<File = File> + AllocGlobal>(
        &mut self,
        rt: &R,
        path: &str,
        at: u64,
        into: &mut [u8],
    ) -> io::Result<Option<usize>>
        ensures { IfOk result (λ got. IfSome got (λ n. n ≤ length into.new)) }
    {
        if !self.is_open(path, Mode::Read) {
            self.open = open_to_read(rt, &self.root, path)?;
        }
        match &self.open {
            Some(open) => Ok(Some(open.file.read_at(into, at)?)),
            None => Ok(None),
        }
    }

    /// Reads at a place of a file that must be there.
    pub fn read_present<R: Files<File = File> + AllocGlobal>(
        &mut self,
        rt: &R,
        path: &str,
        at: u64,
        into: &mut [u8],
    ) -> io::Result<usize>
        ensures { IfOk result (λ n. n ≤ length into.new) }
    {
        match self.read(rt, path, at, into)? {
            Some(n) => Ok(n),
            None => Err(Error::from(ErrorKind::NotFound)),
        }
    }

    // Notes that a file or a folder changes.
    fn note(&mut self, alloc: Global, path: &str) -> Result<(), AllocError> {
        if !self.changed.contains(path) {
            self.changed.insert(path.to_owned(alloc)?)?;
        }
        Ok(())
    }

    // Makes one folder of a path, where a slash stands at `end`, and notes it.
    fn make_ancestor<R: Files + AllocGlobal>(
        &mut self,
        rt: &R,
        path: &str,
        end: usize,
    ) -> io::Result<()> {
        let Some(folder) = folder_ending(path, end) else {
            return Ok(());
        };
        let alloc = rt.alloc();
        self.note(alloc, folder)?;
        make_folder(rt, &joined(alloc, &self.root, folder)?)
    }

    // Makes the folders that a path stands in, and notes them up to the folder itself, which must
    // be there.
    fn make_folders<R: Files + AllocGlobal>(&mut self, rt: &R, path: &str) -> io::Result<()> {
        self.note(rt.alloc(), "")?;
        for end in 0..path.len() {
            self.make_ancestor(rt, path, end)?;
        }
        Ok(())
    }

    // Opens a file to write. One that is not there is made with its folders, and is not opened if
    // something came to stand at its path meanwhile.
    fn open_to_write<R: Files<File = File> + AllocGlobal>(
        &mut self,
        rt: &R,
        path: &str,
        is_there: bool,
    ) -> io::Result<OpenFile> {
        if !is_there {
            self.make_folders(rt, path)?;
        }
        let alloc = rt.alloc();
        let full = joined(alloc, &self.root, path)?;
        let file = OpenOptions::new()
            .write(true)
            .create_new(!is_there)
            .open(rt, full.as_str())?;
        Ok(OpenFile {
            path: path.to_owned(alloc)?,
            mode: Mode::Write,
            file,
        })
    }

    /// Writes a piece. Makes the file and its folders where they are absent.
    pub fn write<R: Files<File = File> + AllocGlobal>(
        &mut self,
        rt: &R,
        path: &str,
        at: u64,
        bytes: &[u8],
    ) -> io::Result<()> {
        let is_open = self.is_open(path, Mode::Write);
        let is_there = is_open || has_file(rt, &self.root, path)?;
        self.note(rt.alloc(), path)?;
        if !is_open {
            self.open = Some(self.open_to_write(rt, path, is_there)?);
        }
        match &self.open {
            Some(open) => write_piece(&open.file, at, bytes),
            None => Err(Error::from(ErrorKind::NotFound)),
        }
    }

    /// Makes sure of all that changed since the last time that this answered Ok.
    pub fn sync<R: Files<File = File> + AllocGlobal>(&mut self, rt: &R) -> io::Result<()> {
        for path in &self.changed {
            sync_at(rt, &self.root, path)?;
        }
        self.changed.clear();
        Ok(())
    }

    /// Renames a file that is there, over the file that is at `to`, if one is.
    pub fn rename<R: Files + AllocGlobal>(
        &mut self,
        rt: &R,
        from: &str,
        to: &str,
    ) -> io::Result<()> {
        self.open = None;
        if !has_file(rt, &self.root, from)? {
            return Err(Error::from(ErrorKind::NotFound));
        }
        let _ = has_file(rt, &self.root, to)?;
        let alloc = rt.alloc();
        let source = joined(alloc, &self.root, from)?;
        let target = joined(alloc, &self.root, to)?;
        self.note(alloc, folder_of(from))?;
        self.note(alloc, to)?;
        self.make_folders(rt, to)?;
        fs::rename(rt, source.as_str(), target.as_str())?;
        if from != to {
            self.changed.remove(from);
        }
        Ok(())
    }

    /// Removes a file. Where nothing stands at its path, nothing changes.
    pub fn remove<R: Files + AllocGlobal>(&mut self, rt: &R, path: &str) -> io::Result<()> {
        self.open = None;
        if !has_file(rt, &self.root, path)? {
            return Ok(());
        }
        let alloc = rt.alloc();
        let full = joined(alloc, &self.root, path)?;
        self.note(alloc, folder_of(path))?;
        fs::remove_file(rt, full.as_str())?;
        self.changed.remove(path);
        Ok(())
    }
}
