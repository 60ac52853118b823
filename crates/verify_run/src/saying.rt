// The lines of an entry.
ghost use Rattle.std.specs.Prelude.{◌≡◌, ◌≤◌, ℕ, List, [], ◌∷◌, length, Some, IfSome, MatchResult, not};
ghost use Rattle.std.specs.List.{flat_map, AllByRecursion};
ghost use Rattle.mhl_writer.specs.ListText.{has_digest};
ghost use Rattle.bay_core.specs.Went.{Went};
ghost use Rattle.bay_core.specs.Looks.{Here, Exactly, says};
ghost use Rattle.report_text.specs.Line.{line_text, IsSayable};
ghost use Rattle.verify_run.specs.Calls.{Unsaid, LinesStopped, AnyMap};
ghost use Rattle.verify_run.specs.Results.{DigestsOf, texts};
ghost use Rattle.verify_run.specs.Report.{is_empty, standing, standing_by, unchecked_lines, entry_lines};

use crate::altered::altered_lines;
use crate::reading::FileRead;
use crate::{Standing, VerifyError};
use bay_core::Bay;
use mhl_writer::HashEntry;
use path_text::Scratch;
use report_text::{Line, line_into};

/// Says a line.
pub fn say<B: Bay>(bay: &mut B, scratch: &mut Scratch, line: &Line<'_>) -> Result<(), VerifyError>
    requires { IsSayable line.now }
    ensures { (d : ℕ) → MatchResult result (λ _. Went (Here d) (Exactly (says (line_text line.now ∷ []))) (B.world bay.old) (B.world bay.new)) (λ e. Unsaid d e (B.world bay.old) (B.world bay.new)) }
{
    line_into(line, scratch);
    match bay.say(scratch.bytes()) {
        Ok(()) => Ok(()),
        Err(_) => Err(VerifyError::OutFailed),
    }
}

// Says those of these lines that are there, and answers whether one is.
fn say_lines<B: Bay>(
    bay: &mut B,
    scratch: &mut Scratch,
    lines: &[Option<Line<'_>>],
) -> Result<bool, VerifyError>
    requires { AllByRecursion (λ line. IfSome line IsSayable) lines.now }
    ensures { (d : ℕ) → MatchResult result (λ any. (any ≡ not (is_empty (flat_map texts lines.now))) × Went (Here d) (Exactly (says (flat_map texts lines.now))) (B.world bay.old) (B.world bay.new)) (λ e. LinesStopped d AnyMap (λ _. flat_map texts lines.now) e (B.world bay.old) (B.world bay.new)) }
{
    let mut any = false;
    for line in lines {
        if let Some(line) = line {
            match say(bay, scratch, line) {
                Ok(()) => any = true,
                Err(e) => return Err(e),
            }
        }
    }
    Ok(any)
}

// How an entry counts whose file is there.
fn standing_of(altered: bool, entry: &HashEntry) -> Standing
    ensures { (lines : List (List ℕ)) → altered ≡ not (is_empty lines) → result ≡ standing_by lines (has_digest entry.now) }
{
    if altered {
        Standing::Altered
    } else if entry.md5.is_some() || entry.sha1.is_some() || entry.xxh.is_some() {
        Standing::Good
    } else {
        Standing::Uncheckable
    }
}

// Says the line of an entry with nothing to check, if it is one.
fn say_standing<B: Bay>(
    bay: &mut B,
    scratch: &mut Scratch,
    standing: Standing,
    path: &str,
) -> Result<(), VerifyError>
    requires { length path.now ≤ 1024 }
    ensures { (d : ℕ) → MatchResult result (λ _. Went (Here d) (Exactly (says (unchecked_lines path.now standing))) (B.world bay.old) (B.world bay.new)) (λ e. Unsaid d e (B.world bay.old) (B.world bay.new)) }
{
    match standing {
        Standing::Uncheckable => say(bay, scratch, &Line::Unchecked(path)),
        _ => Ok(()),
    }
}

/// Says the lines of an entry whose file is there.
pub fn say_found<B: Bay>(
    bay: &mut B,
    scratch: &mut Scratch,
    entry: &HashEntry,
    found: &FileRead,
) -> Result<Standing, VerifyError>
    ensures { (d : ℕ) (bytes : List ℕ) → found.now.len ≡ length bytes → DigestsOf entry.now found.now bytes
        → MatchResult result (λ s. (s ≡ standing entry.now (Some bytes)) × Went (Here d) (Exactly (says (entry_lines entry.now (Some bytes)))) (B.world bay.old) (B.world bay.new)) (λ e. LinesStopped d AnyMap (λ _. entry_lines entry.now (Some bytes)) e (B.world bay.old) (B.world bay.new)) }
{
    let altered = match say_lines(bay, scratch, &altered_lines(entry, found)) {
        Ok(altered) => altered,
        Err(e) => return Err(e),
    };
    let standing = standing_of(altered, entry);
    match say_standing(bay, scratch, standing, entry.path.as_str()) {
        Ok(()) => Ok(standing),
        Err(e) => Err(e),
    }
}
