// Reading a file of a drive whole.
ghost use Rattle.std.specs.Prelude.{◌≡◌, ◌<◌, ◌≤◌, ◌-◌, ◌^◌, [], length, MatchResult, IfOk};
ghost use Rattle.file_reading.specs.Whole.{FileRead, FileNotRead};

use crate::piece::read_piece;
use bay_core::Bay;
use std::alloc::Global;

/// The bytes that one read of a file asks for at most.
const BLOCK: usize = 65536;

/// Why a file was not read whole.
#[derive(Clone, Copy, Debug, PartialEq, Eq)]
pub enum ReadWholeError {
    /// A read failed, and the drive's count rose.
    DriveFailed,
    /// A read answered that there is no such file.
    Absent,
    /// The reads went on past the limit.
    TooLong,
    /// Memory was wanting.
    Memory,
}

// Reads a file from its start to its end into `text`, which is empty.
fn read_text<B: Bay>(
    bay: &mut B,
    d: u32,
    path: &str,
    limit: u64,
    buffer: &mut [u8],
    text: &mut Vec<u8>,
) -> Result<(), ReadWholeError>
    requires drive { d < (B.world bay.old).attached.drives }
    requires range { limit < 2 ^ 64 - 1 }
    requires room { 0 < length buffer.old }
    requires empty { text.old.items ≡ [] }
    ensures bound { IfOk result (λ _. length text.new.items ≤ limit) }
    ensures read { MatchResult result (λ _. FileRead limit d path.now text.new.items (B.world bay.old) (B.world bay.new)) (λ e. FileNotRead limit d path.now e (B.world bay.old) (B.world bay.new)) }
{
    while (text.len() as u64) <= limit {
        let at = text.len() as u64;
        let want = (buffer.len() as u64).min(limit + 1 - at) as usize;
        let n = match read_piece(bay, d, path, at, want, buffer) {
            Ok(Some(n)) => n,
            Ok(None) => return Err(ReadWholeError::Absent),
            Err(_) => return Err(ReadWholeError::DriveFailed),
        };
        if n == 0 {
            return Ok(());
        }
        match text.extend_from_slice(&buffer[..n]) {
            Ok(()) => {}
            Err(_) => return Err(ReadWholeError::Memory),
        }
    }
    Err(ReadWholeError::TooLong)
}

/// Reads a file of at most `limit` bytes from its start to its end, in blocks of 65,536 bytes, each where the one before
/// ended. Room for `size` bytes is made first. No byte past the one after the limit is asked for.
pub fn read_whole<B: Bay>(
    alloc: Global,
    bay: &mut B,
    d: u32,
    path: &str,
    size: u64,
    limit: u64,
) -> Result<Vec<u8>, ReadWholeError>
    requires drive { d < (B.world bay.old).attached.drives }
    requires room { size ≤ limit }
    requires range { limit < 2 ^ 64 - 1 }
    ensures bound { IfOk result (λ bytes. length bytes.items ≤ limit) }
    ensures read { MatchResult result (λ bytes. FileRead limit d path.now bytes.items (B.world bay.old) (B.world bay.new)) (λ e. FileNotRead limit d path.now e (B.world bay.old) (B.world bay.new)) }
{
    let mut buffer = match vec![in alloc; 0u8; BLOCK] {
        Ok(buffer) => buffer,
        Err(_) => return Err(ReadWholeError::Memory),
    };
    let mut text = match Vec::with_capacity(alloc, size as usize) {
        Ok(text) => text,
        Err(_) => return Err(ReadWholeError::Memory),
    };
    match read_text(bay, d, path, limit, &mut buffer, &mut text) {
        Ok(()) => Ok(text),
        Err(e) => Err(e),
    }
}
