use crate::{Bytes, NameText};
use std::marker::Model;

/// A file as a listing gives it.
#[derive(Debug, Drop)]
pub struct FileInfo {
    /// The path from the drive's root, with `/` between its parts.
    pub path: NameText,
    /// Bytes.
    pub size: u64,
    /// The second since 1970 at which the file was changed last.
    pub modified: u64,
}

/// What a listing gave, in its order, seen as the list of its files.
#[derive(Debug, Drop)]
pub struct Listing {
    files: Vec<FileInfo>,
}

impl Model for Listing {
    ghost use Rattle.std.specs.Prelude.{List};
    ghost use Rattle.bay_core.specs.declared.event.FileInfo.{FileInfo};

    ghost Value = { List FileInfo };

    ghost view = { λ a. a.files.items };
}

impl Listing {
    ghost use Rattle.std.specs.Prelude.{◌≡◌};

    /// Takes no memory.
    pub fn of(files: Vec<FileInfo>) -> Listing
        ensures { result ≡ files.items }
    {
        Listing { files }
    }

    /// The files in the order of the listing.
    pub fn files(&self) -> &[FileInfo]
        ensures { result.now ≡ self.now }
    {
        &self.files
    }
}

/// What a read gave.
#[derive(Debug, Drop)]
pub enum DriveGot {
    /// These bytes.
    Read(Bytes),
    /// There is no such file.
    Absent,
    /// The call failed.
    Failed,
}

/// One call on one device, with its answer.
#[derive(Debug, Drop)]
pub enum Event {
    /// A card was attached, as number `s`.
    AttachSource {
        s: u32,
        place: Bytes,
    },
    /// A drive was attached, as number `d`.
    AttachDrive {
        d: u32,
        place: Bytes,
    },
    AttachFailed {
        place: Bytes,
    },
    /// Card `s` was listed. `None` is a failed call.
    SourceList {
        s: u32,
        got: Option<Listing>,
    },
    /// `want` bytes were asked of a file of card `s`, from `at` on. `None` is a failed call.
    SourceRead {
        s: u32,
        path: Bytes,
        at: u64,
        want: u64,
        got: Option<Bytes>,
    },
    /// Drive `d` was listed. `None` is a failed call.
    DriveList {
        d: u32,
        got: Option<Listing>,
    },
    /// `want` bytes were asked of a file of drive `d`, from `at` on.
    DriveRead {
        d: u32,
        path: Bytes,
        at: u64,
        want: u64,
        got: DriveGot,
    },
    /// Bytes were written to a file of drive `d`, from `at` on, or were not.
    Write {
        d: u32,
        path: Bytes,
        at: u64,
        bytes: Bytes,
        ok: bool,
    },
    /// The barrier of drive `d`, kept or not.
    Sync {
        d: u32,
        ok: bool,
    },
    /// A file of drive `d` was renamed, or was not.
    Rename {
        d: u32,
        from: Bytes,
        to: Bytes,
        ok: bool,
    },
    /// A file of drive `d` was removed, or was not.
    Remove {
        d: u32,
        path: Bytes,
        ok: bool,
    },
    /// The clock was asked.
    Moment {
        t: u64,
    },
    /// The picker was asked.
    Pick {
        n: u32,
    },
    /// A line was said, or could not be.
    Say {
        line: Bytes,
        ok: bool,
    },
}
