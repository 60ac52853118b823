// The entries of a list, one after the other.
ghost use Rattle.std.specs.Prelude.{◌≡◌, ◌<◌, ◌-◌, ◌^◌, length, MatchResult};
ghost use Rattle.std.specs.FinMap.{get};
ghost use Rattle.folder_listing.specs.Listing.{sizes_in};
ghost use Rattle.verify_run.specs.Calls.{LinesStopped};
ghost use Rattle.verify_run.specs.Results.{SizesOf, EntryChecked, EntriesChecked};
ghost use Rattle.verify_run.specs.Report.{counted, entry_lines, found_lines, found_in};

use crate::reading::read_entry;
use crate::saying::{say, say_found};
use crate::{Standing, Verdict, VerifyError};
use bay_core::Bay;
use folder_listing::Folder;
use mhl_writer::HashEntry;
use path_text::Scratch;
use report_text::Line;

// Checks one entry and says its lines.
fn check_entry<B: Bay>(
    bay: &mut B,
    d: u32,
    folder: &Folder,
    entry: &HashEntry,
    buffer: &mut [u8],
    scratch: &mut Scratch,
) -> Result<Standing, VerifyError>
    requires drive { d < (B.world bay.old).attached.drives }
    requires room { 0 < length buffer.old }
    ensures { MatchResult result (λ s. EntryChecked d (sizes_in folder.now) entry.now s (B.world bay.old) (B.world bay.new)) (λ x. LinesStopped d (λ m. SizesOf m (sizes_in folder.now)) (λ m. entry_lines entry.now (get m entry.now.path)) x (B.world bay.old) (B.world bay.new)) }
{
    let Some(size) = folder.size(entry.path.as_str()) else {
        return match say(bay, scratch, &Line::Missing(entry.path.as_str())) {
            Ok(()) => Ok(Standing::Absent),
            Err(e) => Err(e),
        };
    };
    let found = match read_entry(bay, d, entry, size, buffer) {
        Ok(found) => found,
        Err(_) => return Err(VerifyError::DriveFailed),
    };
    say_found(bay, scratch, entry, &found)
}

// One more entry.
fn count(verdict: Verdict, standing: Standing) -> Verdict
    requires entries { verdict.entries < 2 ^ 64 - 1 }
    requires missing { verdict.missing < 2 ^ 64 - 1 }
    requires altered { verdict.altered < 2 ^ 64 - 1 }
    requires unchecked { verdict.unchecked < 2 ^ 64 - 1 }
    ensures { result ≡ counted verdict standing }
{
    let next = Verdict {
        entries: verdict.entries + 1,
        ..verdict
    };
    match standing {
        Standing::Absent => Verdict {
            missing: verdict.missing + 1,
            ..next
        },
        Standing::Altered => Verdict {
            altered: verdict.altered + 1,
            ..next
        },
        Standing::Uncheckable => Verdict {
            unchecked: verdict.unchecked + 1,
            ..next
        },
        Standing::Good => next,
    }
}

/// Checks the entries, and says their lines.
pub fn check_entries<B: Bay>(
    bay: &mut B,
    d: u32,
    folder: &Folder,
    entries: &[HashEntry],
    buffer: &mut [u8],
    scratch: &mut Scratch,
) -> Result<Verdict, VerifyError>
    requires drive { d < (B.world bay.old).attached.drives }
    requires room { 0 < length buffer.old }
    ensures { MatchResult result (λ v. EntriesChecked d (sizes_in folder.now) entries.now v (B.world bay.old) (B.world bay.new)) (λ e. LinesStopped d (λ m. SizesOf m (sizes_in folder.now)) (λ m. found_lines (found_in m entries.now)) e (B.world bay.old) (B.world bay.new)) }
{
    let mut verdict = Verdict {
        entries: 0,
        missing: 0,
        altered: 0,
        unchecked: 0,
        unlisted: 0,
    };
    for entry in entries {
        match check_entry(bay, d, folder, entry, buffer, scratch) {
            Ok(standing) => verdict = count(verdict, standing),
            Err(e) => return Err(e),
        }
    }
    Ok(verdict)
}
