// Files that count for nothing are removed.
ghost use Rattle.std.specs.Prelude.{◌<◌, [], ◌∷◌, is_ok, option_map};
ghost use Rattle.bay_core.specs.Crashes.{Leaves, IsAny};
ghost use Rattle.bay_core.specs.Paths.{new_path};
ghost use Rattle.bay_core.specs.Went.{Tried};
ghost use Rattle.drive_journal.specs.Calls.{tidied, tidy_calls, removals, unless_kept, given};
ghost use Rattle.drive_journal.specs.Steps.{IsTidying, IsTidied, Turns};

use crate::publishing::NEW;
use bay_core::{Bay, DriveFailed};
use path_text::PathText;

/// The copy of the file that is being copied.
pub(crate) const PART: &str = ".mhlstation/part";

/// Removes the file that waits for its name, the part unless it is kept, and one more path where
/// one is given. The removals may still be pending after it. Takes no memory, and fails by the
/// drive alone.
pub fn tidy<B: Bay>(
    bay: &mut B,
    d: u32,
    also: Option<&PathText>,
    keep_part: bool,
) -> Result<(), DriveFailed>
    requires { d < (B.world bay.old).attached.drives }
    ensures tried { Tried d (tidy_calls d (option_map (λ path. path.now) also.entry) keep_part) (is_ok result) (B.world bay.old) (B.world bay.new) }
    // A stop at any moment leaves all as it was but some of these paths, which are absent.
    ensures crash { Leaves d IsAny (IsTidying (tidied (option_map (λ path. path.now) also.entry) keep_part)) (B.world bay.old) (B.world bay.new) }
    // After Ok none of these paths is read.
    ensures gone { Turns d (IsTidied (tidied (option_map (λ path. path.now) also.entry) keep_part)) (is_ok result) (B.world bay.old) (B.world bay.new) }
{
    remove_in_turn(bay, d, also, keep_part)
}

// The calls of it.
fn remove_in_turn<B: Bay>(
    bay: &mut B,
    d: u32,
    also: Option<&PathText>,
    keep_part: bool,
) -> Result<(), DriveFailed>
    requires { d < (B.world bay.old).attached.drives }
    ensures { Tried d (tidy_calls d (option_map (λ path. path.now) also.entry) keep_part) (is_ok result) (B.world bay.old) (B.world bay.new) }
{
    bay.remove(d, NEW)?;
    remove_part(bay, d, keep_part)?;
    remove_given(bay, d, also)
}

// The part, unless it is kept.
fn remove_part<B: Bay>(bay: &mut B, d: u32, keep_part: bool) -> Result<(), DriveFailed>
    requires { d < (B.world bay.old).attached.drives }
    ensures { Tried d (removals d (unless_kept keep_part)) (is_ok result) (B.world bay.old) (B.world bay.new) }
{
    if keep_part {
        return Ok(());
    }
    bay.remove(d, PART)?;
    Ok(())
}

// The path that may be given.
fn remove_given<B: Bay>(bay: &mut B, d: u32, also: Option<&PathText>) -> Result<(), DriveFailed>
    requires { d < (B.world bay.old).attached.drives }
    ensures { Tried d (removals d (given (option_map (λ path. path.now) also.entry))) (is_ok result) (B.world bay.old) (B.world bay.new) }
{
    if let Some(path) = also {
        bay.remove(d, path.as_str())?;
    }
    Ok(())
}
