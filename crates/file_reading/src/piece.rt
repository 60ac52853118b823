// Reading a file of a drive, piece by piece, each piece where the one before ended.
ghost use Rattle.std.specs.Prelude.{◌<◌, ◌≤◌, length, take, Some, MatchResult, IfOk, IfSome, option_map};
ghost use Rattle.bay_core.specs.Replay.{Drive};
ghost use Rattle.file_reading.specs.Reads.{PieceRead, Halted};

use bay_core::{Bay, DriveFailed};

/// One read of at most `want` bytes into the front of `buffer`. The answer is how many it gave, or none where there is
/// no such file.
pub fn read_piece<B: Bay>(
    bay: &mut B,
    d: u32,
    path: &str,
    at: u64,
    want: usize,
    buffer: &mut [u8],
) -> Result<Option<usize>, DriveFailed>
    requires drive { d < (B.world bay.old).attached.drives }
    requires room { want ≤ length buffer.old }
    ensures bound { IfOk result (λ got. IfSome got (λ n. n ≤ want)) }
    ensures read { MatchResult result (λ got. PieceRead d path.now at want (option_map (λ n. take n buffer.new) got) (B.world bay.old) (B.world bay.new)) (λ _. Halted d (Some (Drive d)) (B.world bay.old) (B.world bay.new)) }
{
    match bay.drive_read(d, path, at, &mut buffer[..want]) {
        Ok(got) => Ok(got),
        Err(_) => Err(DriveFailed),
    }
}
