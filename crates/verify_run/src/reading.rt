// Reading a file of a drive, piece by piece, each piece where the one before ended.
ghost use Rattle.std.specs.Prelude.{◌≡◌, ◌<◌, length, Some, MatchResult};
ghost use Rattle.bay_core.specs.Replay.{Drive};
ghost use Rattle.file_reading.specs.Reads.{Halted};
ghost use Rattle.verify_run.specs.Results.{FileTaken, DigestsOf};

use crate::kinds::{Unwanted, Wanted};
use bay_core::{Bay, DriveFailed};
use digest_set::{Digest, Fan, Md5Run, Sha1Run, XxhRun};
use file_reading::read_piece;
use mhl_writer::HashEntry;

/// What the reads of a file gave: its length in bytes, and those of its digests that were wanted.
#[derive(Clone, Copy, Debug)]
pub struct FileRead {
    pub len: u64,
    pub md5: Option<[u8; 16]>,
    pub sha1: Option<[u8; 20]>,
    pub xxh: Option<[u8; 8]>,
}

// Each kind of digest, wanted or not.
type M = Wanted<Md5Run>;

type S = Wanted<Sha1Run>;

type X = Wanted<XxhRun>;

type NoM = Unwanted<16>;

type NoS = Unwanted<20>;

type NoX = Unwanted<8>;

// Reads a file up to the size in the listing, asks for one byte more, and digests what it reads.
fn read_file<B: Bay, D: Digest>(
    bay: &mut B,
    d: u32,
    path: &str,
    size: u64,
    buffer: &mut [u8],
) -> Result<(u64, D::Out), DriveFailed>
    requires drive { d < (B.world bay.old).attached.drives }
    requires room { 0 < length buffer.old }
    ensures { MatchResult result (λ f. FileTaken d path.now size f.0 (λ bytes. f.1 ≡ D.digest_of bytes) (B.world bay.old) (B.world bay.new)) (λ _. Halted d (Some (Drive d)) (B.world bay.old) (B.world bay.new)) }
{
    let limit = size.saturating_add(1);
    let mut run = D::start();
    let mut at = 0u64;
    while at < limit {
        let want = (buffer.len() as u64).min(limit - at) as usize;
        let n = match read_piece(bay, d, path, at, want, buffer) {
            Ok(got) => got.unwrap_or(0),
            Err(e) => return Err(e),
        };
        if n == 0 {
            return Ok((at, run.finish()));
        }
        run.feed(&buffer[..n]);
        at += n as u64;
    }
    Ok((at, run.finish()))
}

// A file, by the kinds of digest that are wanted of it.
fn read_kinds<B, M, S, X>(
    bay: &mut B,
    d: u32,
    path: &str,
    size: u64,
    buffer: &mut [u8],
) -> Result<FileRead, DriveFailed>
where
    B: Bay,
    M: Digest<Out = Option<[u8; 16]>>,
    S: Digest<Out = Option<[u8; 20]>>,
    X: Digest<Out = Option<[u8; 8]>>,
    requires drive { d < (B.world bay.old).attached.drives }
    requires room { 0 < length buffer.old }
    ensures { MatchResult result (λ f. FileTaken d path.now size f.len (λ bytes. (f.md5 ≡ M.digest_of bytes) × (f.sha1 ≡ S.digest_of bytes) × (f.xxh ≡ X.digest_of bytes)) (B.world bay.old) (B.world bay.new)) (λ _. Halted d (Some (Drive d)) (B.world bay.old) (B.world bay.new)) }
{
    match read_file::<B, Fan<M, S, X>>(bay, d, path, size, buffer) {
        Ok((len, (md5, sha1, xxh))) => Ok(FileRead {
            len,
            md5,
            sha1,
            xxh,
        }),
        Err(e) => Err(e),
    }
}

/// Reads the file of an entry up to its size in the listing, asks for one byte more, and gives the digests that the
/// entry records. No others are computed.
pub fn read_entry<B: Bay>(
    bay: &mut B,
    d: u32,
    entry: &HashEntry,
    size: u64,
    buffer: &mut [u8],
) -> Result<FileRead, DriveFailed>
    requires drive { d < (B.world bay.old).attached.drives }
    requires room { 0 < length buffer.old }
    ensures { MatchResult result (λ f. FileTaken d entry.now.path size f.len (DigestsOf entry.now f) (B.world bay.old) (B.world bay.new)) (λ _. Halted d (Some (Drive d)) (B.world bay.old) (B.world bay.new)) }
{
    let path = entry.path.as_str();
    match (
        entry.md5.is_some(),
        entry.sha1.is_some(),
        entry.xxh.is_some(),
    ) {
        (true, true, true) => read_kinds::<B, M, S, X>(bay, d, path, size, buffer),
        (true, true, false) => read_kinds::<B, M, S, NoX>(bay, d, path, size, buffer),
        (true, false, true) => read_kinds::<B, M, NoS, X>(bay, d, path, size, buffer),
        (true, false, false) => read_kinds::<B, M, NoS, NoX>(bay, d, path, size, buffer),
        (false, true, true) => read_kinds::<B, NoM, S, X>(bay, d, path, size, buffer),
        (false, true, false) => read_kinds::<B, NoM, S, NoX>(bay, d, path, size, buffer),
        (false, false, true) => read_kinds::<B, NoM, NoS, X>(bay, d, path, size, buffer),
        (false, false, false) => read_kinds::<B, NoM, NoS, NoX>(bay, d, path, size, buffer),
    }
}
