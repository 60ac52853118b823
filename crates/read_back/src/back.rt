// A copy that is read again and compared with what was recorded of it.
ghost use Rattle.std.specs.Prelude.{◌≡◌, ◌<◌, ◌^◌, true};
ghost use Rattle.block_pool.specs.Lent.{is_lent, block_at};
ghost use Rattle.block_pool.specs.Lending.{with_block};
ghost use Rattle.read_back.specs.Back.{ReadBack, OkExactly};

use crate::pieces::{ask_past_end, feed_pieces};
use bay_core::Bay;
use block_pool::{Pool, Slot};
use digest_set::{Fan, Triple, triple_of};
use thiserror::Error;

/// Why a copy is not known to be good.
#[derive(Clone, Copy, Debug, PartialEq, Eq, Error)]
pub enum ReadBackError {
    /// A read failed, and the drive's count rose.
    #[error("a read failed")]
    DriveFailed,
    /// A read answered that there is no such file.
    #[error("there is no such file")]
    Absent,
    /// The recorded size in bytes, and how many bytes the reads gave: fewer, where they came to an end before, or one more,
    /// where a byte came at the recorded size. Nothing past that byte is read.
    #[error("{read} bytes were read, and {recorded} were recorded")]
    Length { recorded: u64, read: u64 },
    /// The length is the recorded one, and the digests of the bytes that were read are not the recorded ones.
    #[error("the digests are not those recorded")]
    Differs { recorded: Triple, read: Triple },
}

/// Reads a file of a drive from its start to `size`, in blocks of 65,536 bytes at most, each where the one before ended, and
/// then asks for one byte at `size`. Each block goes through the slot and into the three digests. It takes no memory.
pub fn read_back<B: Bay>(
    bay: &mut B,
    d: u32,
    path: &str,
    size: u64,
    triple: &Triple,
    pool: &mut Pool,
    slot: &Slot,
) -> Result<(), ReadBackError>
    requires drive { d < (B.world bay.old).attached.drives }
    requires range { size < 2 ^ 48 }
    requires lent { is_lent pool.old slot.now ≡ true }
    ensures read { ReadBack d path.now size triple.now result (B.world bay.old) (B.world bay.new) }
    ensures exactly { OkExactly d path.now size triple.now result (B.world bay.new) }
    ensures pool { pool.new ≡ with_block pool.old slot.now (block_at pool.new slot.now) }
{
    let mut fan = Fan::start();
    feed_pieces(bay, d, path, size, pool, slot, &mut fan)?;
    ask_past_end(bay, d, path, size, pool.bytes_mut(slot))?;
    let read = triple_of(fan);
    if read == *triple {
        Ok(())
    } else {
        Err(ReadBackError::Differs {
            recorded: *triple,
            read,
        })
    }
}
