// Paths below a folder, and the walk over all that is in it.
ghost use Rattle.std.specs.Prelude.{◌≡◌, ◌++◌, ◌∷◌, IfOk, string_bytes};
ghost use Rattle.std.specs.Path.{slash};

use bay_core::{FileInfo, NameText};
use std::alloc::{AllocError, Global};
use std::fs::{DirEntry, File, Files, Metadata};
use std::io::{Error, ErrorKind};
use std::time::UNIX_EPOCH;
use std::{fs, io};

// What stands at a path. A link is never followed.
#[derive(Clone, Copy, PartialEq, Eq)]
enum Found {
    File,
    Folder,
    Nothing,
    // A link or a special file.
    Other,
}

/// The path of the system for a path below a folder. The empty path is the folder itself.
pub fn joined(alloc: Global, root: &str, path: &str) -> Result<String, AllocError>
    ensures { IfOk result (λ full. string_bytes full ≡ root.now ++ slash ∷ path.now) }
{
    let mut full = String::from_str(alloc, root)?;
    full.push('/')?;
    full.push_str(path)?;
    Ok(full)
}

/// The folder that a path stands in, the empty path at the top.
pub fn folder_of(path: &str) -> &str {
    match path.rsplit_once('/') {
        Some((folder, _)) => folder,
        None => "",
    }
}

/// The folder on the way of a path whose name ends at `end`, if one does.
pub fn folder_ending(path: &str, end: usize) -> Option<&str> {
    match path.split_at_checked(end) {
        Some((folder, rest)) if rest.starts_with('/') => Some(folder),
        _ => None,
    }
}

// What stands at a path of the system.
fn find(rt: &impl Files, full: &str) -> io::Result<Found> {
    let metadata = match fs::symlink_metadata(rt, full) {
        Ok(metadata) => metadata,
        Err(e) if e.kind() == ErrorKind::NotFound => return Ok(Found::Nothing),
        Err(e) => return Err(e),
    };
    if metadata.is_file() {
        Ok(Found::File)
    } else if metadata.is_dir() {
        Ok(Found::Folder)
    } else {
        Ok(Found::Other)
    }
}

// What stands at a path below a folder, once each folder on its way was looked at. What is neither
// absent nor a folder there is an error, and so is a part `..`: the way would lead out.
fn look<R: Files + AllocGlobal>(rt: &R, root: &str, path: &str) -> io::Result<Found> {
    if path.split('/').any(|part| part == "..") {
        return Err(Error::from(ErrorKind::InvalidInput));
    }
    let alloc = rt.alloc();
    for end in 0..path.len() {
        let Some(folder) = folder_ending(path, end) else {
            continue;
        };
        match find(rt, &joined(alloc, root, folder)?)? {
            Found::Folder => {}
            Found::Nothing => return Ok(Found::Nothing),
            Found::File | Found::Other => return Err(Error::from(ErrorKind::NotADirectory)),
        }
    }
    find(rt, &joined(alloc, root, path)?)
}

/// Whether a file stands at a path below a folder. It is an error if something else stands there,
/// or if a link, a file or a special file stands in place of a folder on the way.
pub fn has_file<R: Files + AllocGlobal>(rt: &R, root: &str, path: &str) -> io::Result<bool> {
    match look(rt, root, path)? {
        Found::File => Ok(true),
        Found::Nothing => Ok(false),
        Found::Folder | Found::Other => Err(Error::from(ErrorKind::InvalidInput)),
    }
}

/// Makes a folder where it is absent; it is an error if something else stands there. The folder
/// that it stands in must be there.
pub fn make_folder(rt: &impl Files, full: &str) -> io::Result<()> {
    match fs::create_dir(rt, full) {
        Err(e) if e.kind() == ErrorKind::AlreadyExists => match find(rt, full)? {
            Found::Folder => Ok(()),
            Found::File | Found::Nothing | Found::Other => Err(e),
        },
        outcome => outcome,
    }
}

// Makes sure of a file, or of the names in a folder, that was looked at.
fn sync_path<R: Files<File = File>>(rt: &R, full: &str) -> io::Result<()> {
    fs::open(rt, full)?.sync_all()
}

/// Makes sure of a file or a folder that stands at a path below a folder; the empty path is the
/// folder itself. It is an error if neither stands there.
pub fn sync_at<R: Files<File = File> + AllocGlobal>(
    rt: &R,
    root: &str,
    path: &str,
) -> io::Result<()> {
    match look(rt, root, path)? {
        Found::File | Found::Folder => sync_path(rt, &joined(rt.alloc(), root, path)?),
        Found::Nothing | Found::Other => Err(Error::from(ErrorKind::NotFound)),
    }
}

// Seconds since 1970; a time before that counts as 0.
fn modified_seconds(metadata: &Metadata) -> io::Result<u64> {
    match metadata.modified()?.duration_since(UNIX_EPOCH) {
        Ok(since) => Ok(since.as_secs()),
        Err(_) => Ok(0),
    }
}

// The path of a name in a folder.
fn path_in(alloc: Global, folder: &str, name: &str) -> Result<String, AllocError> {
    if folder.is_empty() {
        return String::from_str(alloc, name);
    }
    joined(alloc, folder, name)
}

// The error by which std tells of a name that is not UTF-8: it is not one of the system's.
fn is_odd_name(error: &Error) -> bool {
    error.kind() == ErrorKind::InvalidFilename && error.raw_os_error().is_none()
}

// Adds what stands at a name in a folder: a file to the files, a folder to those that wait. A link
// or a special file is left out.
fn add_entry<R: Files>(
    alloc: Global,
    folder: &str,
    entry: &DirEntry<R>,
    files: &mut Vec<FileInfo>,
    waiting: &mut Vec<String>,
) -> io::Result<()> {
    let metadata = entry.metadata()?;
    let path = path_in(alloc, folder, entry.file_name())?;
    if metadata.is_dir() {
        waiting.push(path)?;
    } else if metadata.is_file() {
        files.push(FileInfo {
            path: NameText::of(alloc, &path)?,
            size: metadata.len(),
            modified: modified_seconds(&metadata)?,
        })?;
    }
    Ok(())
}

// Adds the files of one folder, and the folders in it to those that wait. Names that are not UTF-8
// are passed over, and the answer is whether there was none.
fn list_folder<R: Files + AllocGlobal + Clone + Drop>(
    rt: &R,
    root: &str,
    folder: &str,
    files: &mut Vec<FileInfo>,
    waiting: &mut Vec<String>,
) -> io::Result<bool> {
    let alloc = rt.alloc();
    let mut is_whole = true;
    for entry in fs::read_dir(rt, joined(alloc, root, folder)?.as_str())? {
        match entry {
            Ok(entry) => add_entry(alloc, folder, &entry, files, waiting)?,
            Err(e) if is_odd_name(&e) => is_whole = false,
            Err(e) => return Err(e),
        }
    }
    Ok(is_whole)
}

// A walk that begins at the folder itself.
fn walk(alloc: Global) -> Result<Vec<String>, AllocError> {
    let mut waiting = Vec::new(alloc);
    waiting.push(String::new(alloc))?;
    Ok(waiting)
}

/// Every file below a folder, in any order. It is an error if a name is not UTF-8.
pub fn list_files<R: Files + AllocGlobal + Clone + Drop>(
    rt: &R,
    alloc: Global,
    root: &str,
) -> io::Result<Vec<FileInfo>> {
    let mut files = Vec::new(alloc);
    let mut waiting = walk(alloc)?;
    for _ in 0..u64::MAX {
        let Some(folder) = waiting.pop() else {
            return Ok(files);
        };
        if !list_folder(rt, root, &folder, &mut files, &mut waiting)? {
            return Err(Error::from(ErrorKind::InvalidFilename));
        }
    }
    Err(Error::from(ErrorKind::Other))
}

// Makes sure of one folder and the files in it, and adds its folders to those that wait. What has a
// name that is not UTF-8 is passed over, and so are links and special files.
fn sync_folder<R: Files<File = File> + AllocGlobal + Clone + Drop>(
    rt: &R,
    root: &str,
    folder: &str,
    waiting: &mut Vec<String>,
) -> io::Result<()> {
    let alloc = rt.alloc();
    let mut files = Vec::new(alloc);
    let _ = list_folder(rt, root, folder, &mut files, waiting)?;
    for file in &files {
        sync_path(rt, &joined(alloc, root, file.path.as_str())?)?;
    }
    sync_path(rt, &joined(alloc, root, folder)?)
}

/// Makes sure of every file and folder below a folder, and of the folder itself. Passes over what
/// lies at or below a name that is not UTF-8.
pub fn sync_below<R: Files<File = File> + AllocGlobal + Clone + Drop>(
    rt: &R,
    root: &str,
) -> io::Result<()> {
    let mut waiting = walk(rt.alloc())?;
    for _ in 0..u64::MAX {
        let Some(folder) = waiting.pop() else {
            return Ok(());
        };
        sync_folder(rt, root, &folder, &mut waiting)?;
    }
    Err(Error::from(ErrorKind::Other))
}
