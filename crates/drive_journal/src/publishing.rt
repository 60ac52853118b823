// A file that is whole under its name at any stop.
ghost use Rattle.std.specs.Prelude.{◌≢◌, ◌^◌, ◌<◌, length, is_ok};
ghost use Rattle.bay_core.specs.Crashes.{Leaves, Rests};
ghost use Rattle.bay_core.specs.Paths.{new_path};
ghost use Rattle.bay_core.specs.Went.{Tried};
ghost use Rattle.drive_journal.specs.Calls.{publish_calls};
ghost use Rattle.drive_journal.specs.Steps.{NoScratch, IsWhole, IsThere};

use bay_core::{Bay, DriveFailed};

/// The file that is written whole before it gets its name.
pub(crate) const NEW: &str = ".mhlstation/new";

/// Writes a file under its name, so that a stop at any moment leaves it whole or as it was: under
/// another name first, which is then changed. Takes no memory, and fails by the drive alone.
pub fn publish<B: Bay>(bay: &mut B, d: u32, to: &str, bytes: &[u8]) -> Result<(), DriveFailed>
    requires drive { d < (B.world bay.old).attached.drives }
    requires range { length bytes.now < 2 ^ 63 }
    requires apart { to.now ≢ new_path }
    ensures tried { Tried d (publish_calls d to.now bytes.now) (is_ok result) (B.world bay.old) (B.world bay.new) }
    // A stop at any moment leaves the file whole or as it was.
    ensures crash { Leaves d NoScratch (IsWhole to.now bytes.now) (B.world bay.old) (B.world bay.new) }
    // After Ok the drive is at rest with the file.
    ensures rests { Rests d NoScratch (IsThere to.now bytes.now) (is_ok result) (B.world bay.old) (B.world bay.new) }
{
    write_and_rename(bay, d, to, bytes)
}

// The calls of it.
fn write_and_rename<B: Bay>(bay: &mut B, d: u32, to: &str, bytes: &[u8]) -> Result<(), DriveFailed>
    requires drive { d < (B.world bay.old).attached.drives }
    requires range { length bytes.now < 2 ^ 63 }
    ensures { Tried d (publish_calls d to.now bytes.now) (is_ok result) (B.world bay.old) (B.world bay.new) }
{
    bay.write(d, NEW, 0, bytes)?;
    bay.sync(d)?; // the bytes are whole before they get their name
    bay.rename(d, NEW, to)?;
    bay.sync(d)?;
    Ok(())
}
