// Reading a file of a drive piece by piece into a block, and feeding each piece to the digests.
ghost use Rattle.std.specs.Prelude.{◌≡◌, ◌<◌, ◌≤◌, ◌^◌, true, [], length, take, Some, IfOk, MatchResult};
ghost use Rattle.block_pool.specs.Lent.{is_lent, block_at};
ghost use Rattle.block_pool.specs.Lending.{with_block};
ghost use Rattle.file_reading.specs.Reads.{PieceRead};
ghost use Rattle.digest_set.specs.declared.triple.Triple.{Triple as TripleValue};
ghost use Rattle.read_back.specs.Feeding.{IsFed, PieceFed, NoPiece, NotEnded, PiecesFed};
ghost use Rattle.read_back.specs.Back.{ReadBack};

use crate::ReadBackError;
use bay_core::Bay;
use block_pool::{BLOCK_BYTES, Pool, Slot};
use digest_set::{Fan, Md5Run, Sha1Run, XxhRun};

// The digests of all three kinds, while they are fed.
type Digests = Fan<Md5Run, Sha1Run, XxhRun>;

// One read of at most `want` bytes into the front of a block. The answer is how many it gave.
fn read_some<B: Bay>(
    bay: &mut B,
    d: u32,
    path: &str,
    at: u64,
    want: usize,
    block: &mut [u8],
) -> Result<usize, ReadBackError>
    requires drive { d < (B.world bay.old).attached.drives }
    requires room { want ≤ length block.old }
    ensures bound { IfOk result (λ n. n ≤ want) }
    ensures read { MatchResult result (λ n. PieceRead d path.now at want (Some (take n block.new)) (B.world bay.old) (B.world bay.new)) (λ e. NoPiece d path.now at want e (B.world bay.old) (B.world bay.new)) }
{
    match bay.drive_read(d, path, at, &mut block[..want]) {
        Ok(Some(n)) => Ok(n),
        Ok(None) => Err(ReadBackError::Absent),
        Err(_) => Err(ReadBackError::DriveFailed),
    }
}

// Such a read, of which the bytes are fed to the digests.
fn feed_piece<B: Bay>(
    bay: &mut B,
    d: u32,
    path: &str,
    at: u64,
    want: usize,
    block: &mut [u8],
    fan: &mut Digests,
) -> Result<usize, ReadBackError>
    requires drive { d < (B.world bay.old).attached.drives }
    requires room { want ≤ length block.old }
    ensures { MatchResult result (λ n. PieceFed d path.now at want n fan.old fan.new (B.world bay.old) (B.world bay.new)) (λ e. NoPiece d path.now at want e (B.world bay.old) (B.world bay.new)) }
{
    let n = read_some(bay, d, path, at, want, block)?;
    fan.feed(&block[..n]);
    Ok(n)
}

/// Reads a file from its start to `size`, piece by piece, and feeds it to the digests, which have been fed nothing yet.
pub fn feed_pieces<B: Bay>(
    bay: &mut B,
    d: u32,
    path: &str,
    size: u64,
    pool: &mut Pool,
    slot: &Slot,
    fan: &mut Digests,
) -> Result<(), ReadBackError>
    requires drive { d < (B.world bay.old).attached.drives }
    requires lent { is_lent pool.old slot.now ≡ true }
    requires start { IsFed fan.old [] }
    ensures pool { pool.new ≡ with_block pool.old slot.now (block_at pool.new slot.now) }
    ensures read { MatchResult result (λ _. PiecesFed d path.now size size fan.new (B.world bay.old) (B.world bay.new)) (λ e. (t : TripleValue) → ReadBack d path.now size t (Err e) (B.world bay.old) (B.world bay.new)) }
{
    let mut at = 0u64;
    while at < size {
        let want = (size - at).min(BLOCK_BYTES as u64) as usize;
        let n = feed_piece(bay, d, path, at, want, pool.bytes_mut(slot), fan)?;
        if n == 0 {
            return Err(ReadBackError::Length {
                recorded: size,
                read: at,
            });
        }
        at += n as u64;
    }
    Ok(())
}

/// Asks for one byte at `size`, where the file is to end.
pub fn ask_past_end<B: Bay>(
    bay: &mut B,
    d: u32,
    path: &str,
    size: u64,
    block: &mut [u8],
) -> Result<(), ReadBackError>
    requires drive { d < (B.world bay.old).attached.drives }
    requires range { size < 2 ^ 48 }
    requires room { 1 ≤ length block.old }
    ensures { MatchResult result (λ _. PieceRead d path.now size 1 (Some []) (B.world bay.old) (B.world bay.new)) (λ e. NotEnded d path.now size e (B.world bay.old) (B.world bay.new)) }
{
    if read_some(bay, d, path, size, 1, block)? == 0 {
        Ok(())
    } else {
        Err(ReadBackError::Length {
            recorded: size,
            read: size + 1,
        })
    }
}
