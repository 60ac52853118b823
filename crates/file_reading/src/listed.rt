// Reading a file of a drive whole, after the drive was listed.
ghost use Rattle.std.specs.Prelude.{◌≡◌, ◌<◌, ◌-◌, ◌^◌, MatchResult, IfOk};
ghost use Rattle.std.specs.FinMap.{get};
ghost use Rattle.folder_listing.specs.Listing.{listing};
ghost use Rattle.file_reading.specs.Reads.{Halted};
ghost use Rattle.file_reading.specs.Listed.{Fits, ContentRead, FileListed, halted_at_device};

use crate::whole::{ReadWholeError, read_whole};
use bay_core::{Bay, FileInfo, ListError};
use std::alloc::Global;

/// What a file of a drive was found to be.
#[derive(Debug, Drop)]
pub enum Content {
    /// It has these bytes, within the limit.
    Bytes(Vec<u8>),
    /// The listing has no such file. Nothing was read.
    Unlisted,
    /// The listing has it, and a read answered that there is no such file.
    Absent,
    /// It has more bytes than the limit: its size in the listing, and then nothing was read, or one more than the limit
    /// where its reads go on past that.
    TooLarge { len: u64 },
}

/// A drive as it was listed, and the content of one of its files.
#[derive(Debug, Drop)]
pub struct ListedFile {
    /// The listing of the drive, in its order.
    pub files: Vec<FileInfo>,
    pub content: Content,
}

/// Why a drive was not listed, or its file not read.
#[derive(Clone, Copy, Debug, PartialEq, Eq)]
pub enum ListReadError {
    /// A call on the drive failed, and its count rose.
    DriveFailed,
    /// Memory was wanting.
    Memory,
}

/// The size in bytes that a listing gives a path: of a path that is listed twice, the first.
pub fn listed_size(files: &[FileInfo], path: &str) -> Option<u64>
    ensures { result ≡ get (listing files.now) path.now }
{
    for file in files {
        if file.path.as_str() == path {
            return Some(file.size);
        }
    }
    None
}

// The content of a file with this size in the listing.
fn content_of<B: Bay>(
    alloc: Global,
    bay: &mut B,
    d: u32,
    path: &str,
    size: Option<u64>,
    limit: u64,
) -> Result<Content, ListReadError>
    requires drive { d < (B.world bay.old).attached.drives }
    requires range { limit < 2 ^ 64 - 1 }
    ensures fits { IfOk result (Fits limit) }
    ensures read { MatchResult result (λ content. ContentRead limit d path.now size content (B.world bay.old) (B.world bay.new)) (λ e. Halted d (halted_at_device d e) (B.world bay.old) (B.world bay.new)) }
{
    let Some(size) = size else {
        return Ok(Content::Unlisted);
    };
    if size > limit {
        return Ok(Content::TooLarge { len: size });
    }
    match read_whole(alloc, bay, d, path, size, limit) {
        Ok(bytes) => Ok(Content::Bytes(bytes)),
        Err(ReadWholeError::Absent) => Ok(Content::Absent),
        Err(ReadWholeError::TooLong) => Ok(Content::TooLarge { len: limit + 1 }),
        Err(ReadWholeError::DriveFailed) => Err(ListReadError::DriveFailed),
        Err(ReadWholeError::Memory) => Err(ListReadError::Memory),
    }
}

/// Lists the drive, and reads a file of at most `limit` bytes whole. The listing is handed back with what was found.
pub fn list_and_read<B: Bay>(
    alloc: Global,
    bay: &mut B,
    d: u32,
    path: &str,
    limit: u64,
) -> Result<ListedFile, ListReadError>
    requires drive { d < (B.world bay.old).attached.drives }
    requires range { limit < 2 ^ 64 - 1 }
    ensures fits { IfOk result (λ found. Fits limit found.content) }
    ensures read { MatchResult result (λ found. FileListed limit d path.now found.files.items found.content (B.world bay.old) (B.world bay.new)) (λ e. Halted d (halted_at_device d e) (B.world bay.old) (B.world bay.new)) }
{
    let files = match bay.drive_list(alloc, d) {
        Ok(files) => files,
        Err(ListError::Failed) => return Err(ListReadError::DriveFailed),
        Err(ListError::Memory) => return Err(ListReadError::Memory),
    };
    let size = listed_size(&files, path);
    match content_of(alloc, bay, d, path, size, limit) {
        Ok(content) => Ok(ListedFile { files, content }),
        Err(e) => Err(e),
    }
}
