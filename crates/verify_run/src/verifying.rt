ghost use Rattle.std.specs.Prelude.{◌≡◌, ◌<◌, ℕ, List, [], ◌∷◌, Bool, false, length, map, MatchResult, IfOk, OnErr, Err, bytes_eq};
ghost use Rattle.std.specs.List.{IsDistinct, filter};
ghost use Rattle.bay_core.specs.declared.event.Event.{Event};
ghost use Rattle.bay_core.specs.Map.{Map};
ghost use Rattle.bay_core.specs.Replay.{Drive, reads};
ghost use Rattle.bay_core.specs.World.{Honest};
ghost use Rattle.bay_core.specs.Went.{Went, Only};
ghost use Rattle.bay_core.specs.Looks.{Here, Exactly, says, Stopped, Says};
ghost use Rattle.folder_listing.specs.Listing.{listing, names, sizes_in, is_marked, IsMarkedAt};
ghost use Rattle.report_text.specs.Line.{unlisted_text};
ghost use Rattle.report_text.specs.Shown.{shown};
ghost use Rattle.verify_run.specs.Calls.{stopped_at_device, Unsaid, LinesStopped, AnyMap, Begun, ListedAlone};
ghost use Rattle.verify_run.specs.declared.verdict.VerifyError.TheVariants.{Memory};
ghost use Rattle.verify_run.specs.Results.{SizesOf, FolderChecked, Verified, VerifyStopped};
ghost use Rattle.verify_run.specs.Report.{is_other, unlisted, verdict_line, first_lines, found_in, report_lines, report_first_lines, report_verdict};
ghost use Rattle.verify_run.specs.Seen.{Reports, Sees};

use crate::checking::check_entries;
use crate::saying::say;
use crate::{Verdict, VerifyError};
use bay_core::{Bay, FileInfo, ListError, NameText};
use folder_listing::Folder;
use mhl_writer::{HashEntry, HashList};
use path_text::{PathText, Scratch, is_control_name};
use report_text::{Line, ShownName};
use std::alloc::{AllocError, Global};

/// The bytes of the buffer that files are read through.
const BLOCK: usize = 65536;

// Says the lines of the unlisted names.
fn say_others<B: Bay>(
    bay: &mut B,
    scratch: &mut Scratch,
    others: &[ShownName],
) -> Result<(), VerifyError>
    ensures { (d : ℕ) → MatchResult result (λ _. Went (Here d) (Exactly (says (map unlisted_text others.now))) (B.world bay.old) (B.world bay.new)) (λ e. LinesStopped d AnyMap (λ _. map unlisted_text others.now) e (B.world bay.old) (B.world bay.new)) }
{
    for name in others {
        match say(bay, scratch, &Line::Unlisted(name.as_str())) {
            Ok(()) => {}
            Err(e) => return Err(e),
        }
    }
    Ok(())
}

// Says the last line.
fn say_verdict<B: Bay>(
    bay: &mut B,
    scratch: &mut Scratch,
    verdict: &Verdict,
) -> Result<(), VerifyError>
    ensures { (d : ℕ) → MatchResult result (λ _. Went (Here d) (Exactly (says (verdict_line verdict.now ∷ []))) (B.world bay.old) (B.world bay.new)) (λ e. Unsaid d e (B.world bay.old) (B.world bay.new)) }
{
    say(
        bay,
        scratch,
        &Line::Verdict(
            verdict.outcome().word(),
            verdict.entries,
            verdict.missing,
            verdict.altered,
            verdict.unchecked,
            verdict.unlisted,
        ),
    )
}

// What is made before the first file is read: all memory of a verification.
#[derive(Drop)]
struct Ready {
    folder: Folder,
    others: Vec<ShownName>,
    buffer: Vec<u8>,
    scratch: Scratch,
}

// Marks the files that a list names.
fn mark_listed(folder: &mut Folder, entries: &[HashEntry])
    requires { (q : List ℕ) → is_marked folder.old q ≡ false }
    ensures { IsMarkedAt (sizes_in folder.old) (map (λ e. e.path) entries.now) folder.new }
{
    for entry in entries {
        folder.mark(entry.path.as_str());
    }
}

// Whether a name is no control path and not the list.
fn is_other_name(name: &str, own: &str) -> bool
    ensures { result ≡ is_other own.now name.now }
{
    !is_control_name(name) && name != own
}

// How the names are shown that are no control path and not the list.
fn shown_others(alloc: Global, names: &[NameText], own: &str) -> Result<Vec<ShownName>, AllocError>
    ensures { IfOk result (λ others. others.items ≡ map shown (filter (is_other own.now) names.now)) }
{
    let mut others = Vec::new(alloc);
    for name in names {
        let name = name.as_str();
        if is_other_name(name, own) {
            others.push(ShownName::of(alloc, name)?)?;
        }
    }
    Ok(others)
}

fn prepared(
    alloc: Global,
    files: Vec<FileInfo>,
    entries: &[HashEntry],
    own: &str,
) -> Result<Ready, AllocError>
    ensures folder { IfOk result (λ ready. sizes_in ready.folder ≡ listing files.items) }
    ensures others { IfOk result (λ ready. ready.others.items ≡ map shown (unlisted entries.now (names files.items) own.now)) }
    ensures room { IfOk result (λ ready. 0 < length ready.buffer.items) }
{
    let mut folder = Folder::of_files(alloc, files)?;
    mark_listed(&mut folder, entries);
    let unmarked = folder.unmarked(alloc)?;
    let others = shown_others(alloc, &unmarked, own)?;
    let buffer = vec![in alloc; 0u8; BLOCK]?;
    let scratch = Scratch::new(alloc)?;
    Ok(Ready {
        folder,
        others,
        buffer,
        scratch,
    })
}

// The lines of a folder and the verdict.
fn verify_folder<B: Bay>(
    bay: &mut B,
    d: u32,
    ready: &mut Ready,
    entries: &[HashEntry],
) -> Result<Verdict, VerifyError>
    requires drive { d < (B.world bay.old).attached.drives }
    requires room { 0 < length ready.old.buffer.items }
    ensures { (others : List (List ℕ)) → ready.old.others.items ≡ map shown others
        → MatchResult result (λ v. FolderChecked d (sizes_in ready.old.folder) others entries.now v (B.world bay.old) (B.world bay.new)) (λ e. LinesStopped d (λ m. SizesOf m (sizes_in ready.old.folder)) (λ m. first_lines (found_in m entries.now) others) e (B.world bay.old) (B.world bay.new)) }
{
    let scratch = &mut ready.scratch;
    let counts = match check_entries(bay, d, &ready.folder, entries, &mut ready.buffer, scratch) {
        Ok(counts) => counts,
        Err(e) => return Err(e),
    };
    match say_others(bay, scratch, &ready.others) {
        Ok(()) => {}
        Err(e) => return Err(e),
    }
    let verdict = Verdict {
        unlisted: ready.others.len() as u64,
        ..counts
    };
    match say_verdict(bay, scratch, &verdict) {
        Ok(()) => Ok(verdict),
        Err(e) => Err(e),
    }
}

// The calls of a verification.
fn verify_listed<B: Bay>(
    alloc: Global,
    bay: &mut B,
    d: u32,
    entries: &[HashEntry],
    own: &str,
) -> Result<Verdict, VerifyError>
    requires { d < (B.world bay.old).attached.drives }
    ensures { MatchResult result (λ v. Verified d entries.now own.now v (B.world bay.old) (B.world bay.new)) (λ e. VerifyStopped d entries.now own.now e (B.world bay.old) (B.world bay.new)) }
{
    let files = match bay.drive_list(alloc, d) {
        Ok(files) => files,
        Err(ListError::Failed) => return Err(VerifyError::DriveFailed),
        Err(ListError::Memory) => return Err(VerifyError::Memory),
    };
    let mut ready = match prepared(alloc, files, entries, own) {
        Ok(ready) => ready,
        Err(_) => return Err(VerifyError::Memory),
    };
    match verify_folder(bay, d, &mut ready, entries) {
        Ok(verdict) => Ok(verdict),
        Err(e) => Err(e),
    }
}

/// Verifies the files of a drive by a list, whose own path is left out, and says each line and the verdict.
///
/// Paths of the list are relative to the folder of the drive. Each file is read up to its size in the listing, and
/// one byte more is asked for. All memory is taken before the first read (docs/FORMATS.md, "Verification").
pub fn verify<B: Bay>(
    alloc: Global,
    bay: &mut B,
    d: u32,
    list: &HashList,
    own: &PathText,
) -> Result<Verdict, VerifyError>
    requires { d < (B.world bay.old).attached.drives }
    ensures verified { MatchResult result (λ v. Verified d list.now.entries.items own.now v (B.world bay.old) (B.world bay.new)) (λ e. Stopped d (stopped_at_device d e) (B.world bay.old) (B.world bay.new)) }
    // The lines and the numbers are those of the report on what the calls saw.
    ensures seen { IsDistinct bytes_eq (map (λ e. e.path) list.now.entries.items) → IfOk result (λ v. Went (Here d) (Reports d list.now.entries.items own.now v) (B.world bay.old) (B.world bay.new)) }
    // On an honest drive they saw what it has.
    ensures honest { IsDistinct bytes_eq (map (λ e. e.path) list.now.entries.items) → (m : Map) (L : List Event) → Honest (B.world bay.new) d m L → IfOk result (λ v. Went (Here d) (Sees list.now.entries.items (reads m L d)) (B.world bay.old) (B.world bay.new)) }
    // On an honest drive the lines and the numbers are those of the report on what it has.
    ensures lines { (m : Map) (L : List Event) → Honest (B.world bay.new) d m L → IfOk result (λ v. Went (Here d) (Says (report_lines list.now.entries.items (reads m L d) own.now)) (B.world bay.old) (B.world bay.new)) }
    ensures numbers { (m : Map) (L : List Event) → Honest (B.world bay.new) d m L → IfOk result (λ v. v ≡ report_verdict list.now.entries.items (reads m L d) own.now) }
    // On an honest drive the lines said before an error are the first lines of that report, and the verdict is not said.
    ensures begun { (m : Map) (L : List Event) → Honest (B.world bay.new) d m L → OnErr result (Went (Here d) (Begun (report_first_lines list.now.entries.items (reads m L d) own.now)) (B.world bay.old) (B.world bay.new)) }
    // Where memory was wanting, nothing was read and nothing was said.
    ensures memory { result ≡ Err Memory → Went (Only (Drive d)) (ListedAlone d) (B.world bay.old) (B.world bay.new) }
{
    verify_listed(alloc, bay, d, &list.entries, own.as_str())
}
