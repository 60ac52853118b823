// Loading a list that lies on a drive.
ghost use Rattle.std.specs.Prelude.{◌≡◌, ◌<◌, ◌≤◌, ℕ, List, Err, IfOk, bytes_eq};
ghost use Rattle.std.specs.FinMap.{get};
ghost use Rattle.std.specs.List.{IsDistinct};
ghost use Rattle.mhl_writer.specs.ListText.{paths_of};
ghost use Rattle.bay_core.specs.declared.event.Event.{Event};
ghost use Rattle.bay_core.specs.Map.{Map};
ghost use Rattle.bay_core.specs.Replay.{Drive, reads};
ghost use Rattle.bay_core.specs.World.{Honest, Rose};
ghost use Rattle.bay_core.specs.Went.{Went, Only};
ghost use Rattle.bay_core.specs.Looks.{Here};
ghost use Rattle.verify_run.specs.declared.loading.LoadError.TheVariants.{DriveFailed};
ghost use Rattle.verify_run.specs.Loading.{LoadCalls, LoadGives, Loaded};

use bay_core::Bay;
use file_reading::{Content, ListReadError, list_and_read};
use mhl_reader::{ReadError, read_list};
use mhl_writer::HashList;
use path_text::PathText;
use std::alloc::Global;
use thiserror::Error;

/// The most bytes of a list that is read.
const LARGEST_LIST: u64 = 536_870_912;

/// Why a list could not be loaded.
#[derive(Debug, Drop, Error)]
pub enum LoadError {
    /// A call on the drive failed.
    #[error("a call on the drive failed")]
    DriveFailed,
    /// The drive has no such file.
    #[error("the list is absent")]
    Absent,
    /// The list has more than 536,870,912 bytes: its size in the listing, or 536,870,913 where its reads go on past
    /// that limit.
    #[error("the list has {len} bytes")]
    TooLarge { len: u64 },
    /// The bytes mean no list, and this is their first fault; never want of memory.
    #[error("the list is unreadable: {0}")]
    Unreadable(ReadError),
    #[error("out of memory")]
    Memory,
}

// The drive is listed, and the bytes of the file are read as a list.
fn load<B: Bay>(alloc: Global, bay: &mut B, d: u32, path: &str) -> Result<HashList, LoadError>
    requires { d < (B.world bay.old).attached.drives }
    ensures { Loaded d path.now result (B.world bay.old) (B.world bay.new) }
{
    let content = match list_and_read(alloc, bay, d, path, LARGEST_LIST) {
        Ok(found) => found.content,
        Err(ListReadError::DriveFailed) => return Err(LoadError::DriveFailed),
        Err(ListReadError::Memory) => return Err(LoadError::Memory),
    };
    let text = match content {
        Content::Bytes(text) => text,
        Content::Unlisted | Content::Absent => return Err(LoadError::Absent),
        Content::TooLarge { len } => return Err(LoadError::TooLarge { len }),
    };
    let error = match read_list(alloc, &text) {
        Ok(list) => return Ok(list),
        Err(error) => error,
    };
    match error {
        ReadError::Memory => Err(LoadError::Memory),
        _ => Err(LoadError::Unreadable(error)),
    }
}

/// Loads the list at a path of a drive: the drive is listed, the file is read to its end, and its bytes are read as a
/// list (docs/FORMATS.md, "Reading a list").
pub fn load_list<B: Bay>(
    alloc: Global,
    bay: &mut B,
    d: u32,
    path: &PathText,
) -> Result<HashList, LoadError>
    requires { d < (B.world bay.old).attached.drives }
    ensures went { Went (Here d) (LoadCalls d path.now result) (B.world bay.old) (B.world bay.new) }
    // Nothing but the drive was called: nothing is said.
    ensures alone { Went (Only (Drive d)) (LoadCalls d path.now result) (B.world bay.old) (B.world bay.new) }
    ensures cause { result ≡ Err DriveFailed → Rose ((B.world bay.old).faults (Drive d)) ((B.world bay.new).faults (Drive d)) }
    ensures honest { (m : Map) (L : List Event) → Honest (B.world bay.new) d m L → LoadGives (get (reads m L d) path.now) result }
    // No two entries of a list have the same path.
    ensures distinct { IfOk result (λ list. IsDistinct bytes_eq (paths_of list.entries.items)) }
{
    load(alloc, bay, d, path.as_str())
}
