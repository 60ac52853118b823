// Looking at a drive: how far it has come in an offload.
ghost use Rattle.std.specs.Prelude.{◌≡◌, ◌<◌, ℕ, List, length, Some, Err, MatchResult};
ghost use Rattle.std.specs.FinMap.{get};
ghost use Rattle.bay_core.specs.declared.event.Event.{Event};
ghost use Rattle.bay_core.specs.Looks.{IsUntouched};
ghost use Rattle.bay_core.specs.Map.{Map};
ghost use Rattle.bay_core.specs.Paths.{journal_path};
ghost use Rattle.bay_core.specs.Replay.{Drive, reads};
ghost use Rattle.bay_core.specs.Went.{Went, Only};
ghost use Rattle.bay_core.specs.World.{Honest, Rose};
ghost use Rattle.drive_journal.specs.declared.looking.LookError.TheVariants.{DriveFailed};
ghost use Rattle.drive_journal.specs.Found.{found_of};
ghost use Rattle.drive_journal.specs.Journal.{HoldsJournal};
ghost use Rattle.drive_journal.specs.Look.{next_gate, StateIs, IsListed, IsThereIn, FoundState, FoundFails, Looked, LookFails, HonestFails, StaysSettled};

use crate::gates::JOURNAL;
use crate::journal::{Journal, JournalError, read_journal};
use crate::state::{Look, State};
use bay_core::{Bay, FileInfo};
use file_reading::{Content, ListReadError, ListedFile, list_and_read, listed_size};
use std::alloc::Global;
use thiserror::Error;

/// The most bytes of a journal that is read.
const LARGEST_JOURNAL: u64 = 67_108_864;

/// Why it was not found how far a drive has come.
#[derive(Clone, Copy, Debug, PartialEq, Eq, Error)]
pub enum LookError {
    /// A call on the drive failed.
    #[error("a call on the drive failed")]
    DriveFailed,
    /// The journal goes wrong at this byte, from 0: it is 0 where the journal is listed and a read answered that there
    /// is none, and 67,108,864 where it has more bytes than that (docs/FORMATS.md, "The journal").
    #[error("no journal: wrong at byte {at}")]
    NotAJournal { at: u64 },
    #[error("out of memory")]
    Memory,
}

// How far a drive with this listing and this journal has come.
fn state_with(files: &[FileInfo], journal: Journal) -> State
    ensures { (bytes : List ℕ) → HoldsJournal bytes journal.plan journal.entries.items → journal.gate ≡ next_gate journal.plan (length journal.entries.items) → StateIs (IsListed files.now) (Some bytes) result }
{
    let Journal {
        plan,
        entries,
        gate,
    } = journal;
    let is_full = entries.len() == plan.files().len();
    if is_full && listed_size(files, plan.list().as_str()).is_some() {
        State::Sealed { plan, entries }
    } else {
        State::Begun {
            plan,
            entries,
            gate,
        }
    }
}

// How far a drive with this listing has come, by what its journal was found to be.
fn state_of(alloc: Global, files: &[FileInfo], content: Content) -> Result<State, JournalError>
    ensures { MatchResult result (FoundState files.now (found_of content)) (FoundFails (found_of content)) }
{
    match content {
        Content::Bytes(bytes) => match read_journal(alloc, &bytes) {
            Ok(journal) => Ok(state_with(files, journal)),
            Err(e) => Err(e),
        },
        Content::Unlisted => Ok(State::Fresh),
        Content::Absent => Err(JournalError::NotAJournal { at: 0 }),
        Content::TooLarge { .. } => Err(JournalError::NotAJournal {
            at: LARGEST_JOURNAL,
        }),
    }
}

// The listing, the reads, and the state by both.
fn find_state<B: Bay>(alloc: Global, bay: &mut B, d: u32) -> Result<Look, LookError>
    requires { d < (B.world bay.old).attached.drives }
    ensures { MatchResult result (λ look. Looked d look.listing.items look.state (B.world bay.old) (B.world bay.new)) (λ e. LookFails d e (B.world bay.old) (B.world bay.new)) }
{
    let ListedFile { files, content } = match list_and_read(
        alloc,
        bay,
        d,
        JOURNAL,
        LARGEST_JOURNAL,
    ) {
        Ok(found) => found,
        Err(ListReadError::DriveFailed) => return Err(LookError::DriveFailed),
        Err(ListReadError::Memory) => return Err(LookError::Memory),
    };
    match state_of(alloc, &files, content) {
        Ok(state) => Ok(Look {
            state,
            listing: files,
        }),
        Err(JournalError::NotAJournal { at }) => Err(LookError::NotAJournal { at }),
        Err(JournalError::Memory) => Err(LookError::Memory),
    }
}

/// Lists a drive and reads its journal. It is Fresh exactly where the listing has no journal, and Sealed exactly where
/// the journal has a record for every file of its plan and the listing has the list of the plan.
pub fn look<B: Bay>(alloc: Global, bay: &mut B, d: u32) -> Result<Look, LookError>
    requires { d < (B.world bay.old).attached.drives }
    ensures looked { MatchResult result (λ look. Looked d look.listing.items look.state (B.world bay.old) (B.world bay.new)) (λ e. LookFails d e (B.world bay.old) (B.world bay.new)) }
    // Nothing but the drive is called, and nothing is changed, whatever the answer.
    ensures went { Went (Only (Drive d)) IsUntouched (B.world bay.old) (B.world bay.new) }
    // So an honest drive is settled if it was.
    ensures settled { StaysSettled d (B.world bay.old) (B.world bay.new) }
    ensures cause { result ≡ Err DriveFailed → Rose ((B.world bay.old).faults (Drive d)) ((B.world bay.new).faults (Drive d)) }
    // What an honest drive has.
    ensures honest { (m : Map) (L : List Event) → Honest (B.world bay.new) d m L → MatchResult result (λ look. StateIs (IsThereIn (reads m L d)) (get (reads m L d) journal_path) look.state) (HonestFails (reads m L d)) }
{
    find_state(alloc, bay, d)
}
