// An offload begins on a drive by its journal, and one that was begun goes on.
ghost use Rattle.std.specs.Prelude.{◌^◌, ◌<◌, ◌++◌, length, false, is_ok, None, option_map};
ghost use Rattle.bay_core.specs.Paths.{journal_path};
ghost use Rattle.bay_core.specs.Went.{Tried};
ghost use Rattle.drive_journal.specs.Calls.{tidied, tidy_calls, publish_calls};
ghost use Rattle.drive_journal.specs.Steps.{IsTidied, Turns};
ghost use Rattle.recording.specs.Beginning.{Begins, Cleared, Rejoins};

use bay_core::{Bay, DriveFailed};
use drive_journal::{publish, tidy};
use offload_law::steps_are_safe;
use path_text::PathText;

/// The journal of a drive.
const JOURNAL: &str = ".mhlstation/journal";

/// Begins an offload on a fresh drive: removes what another run left in the scratch files, and publishes the journal,
/// which is the code of its plan and a closed gate (docs/FORMATS.md, "The journal"). Takes no memory, and fails by the
/// drive alone.
pub fn begin_on<B: Bay>(bay: &mut B, d: u32, journal: &[u8]) -> Result<(), DriveFailed>
    requires drive { d < (B.world bay.old).attached.drives }
    requires range { length journal.now < 2 ^ 63 }
    ensures tried { Tried d (tidy_calls d None false ++ publish_calls d journal_path journal.now) (is_ok result) (B.world bay.old) (B.world bay.new) }
    // Where the drive was ready for it, the run keeps to the steps, and after Ok the offload is begun and at rest.
    ensures begins { Begins d journal.now (is_ok result) (B.world bay.old) (B.world bay.new) }
    // After Ok there is no part, and no file waits for its name.
    ensures cleared { Cleared d (is_ok result) (B.world bay.old) (B.world bay.new) }
{
    steps_are_safe();
    tidy_and_publish(bay, d, journal)
}

// The calls of it.
fn tidy_and_publish<B: Bay>(bay: &mut B, d: u32, journal: &[u8]) -> Result<(), DriveFailed>
    requires drive { d < (B.world bay.old).attached.drives }
    requires range { length journal.now < 2 ^ 63 }
    ensures { Tried d (tidy_calls d None false ++ publish_calls d journal_path journal.now) (is_ok result) (B.world bay.old) (B.world bay.new) }
{
    tidy(bay, d, None, false)?;
    publish(bay, d, JOURNAL, journal)
}

/// Goes on with an offload that was begun on a drive: removes the file that waits for its name, the part unless it is
/// kept, and the path of the next file where it is given. The removals may still be pending after it. Takes no memory,
/// and fails by the drive alone.
pub fn rejoin_on<B: Bay>(
    bay: &mut B,
    d: u32,
    next_path: Option<&PathText>,
    keep_part: bool,
) -> Result<(), DriveFailed>
    requires { d < (B.world bay.old).attached.drives }
    ensures tried { Tried d (tidy_calls d (option_map (λ path. path.now) next_path.entry) keep_part) (is_ok result) (B.world bay.old) (B.world bay.new) }
    // Where the drive was ready for it, its records stay, and nothing more is announced.
    ensures rejoins { Rejoins d (option_map (λ path. path.now) next_path.entry) (B.world bay.old) (B.world bay.new) }
    // After Ok none of these paths is read, and all else is as it was.
    ensures gone { Turns d (IsTidied (tidied (option_map (λ path. path.now) next_path.entry) keep_part)) (is_ok result) (B.world bay.old) (B.world bay.new) }
{
    tidy(bay, d, next_path, keep_part)
}
