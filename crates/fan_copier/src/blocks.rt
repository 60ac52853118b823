// Blocks of a file between the card, the pool and the parts of the drives.
ghost use Rattle.std.specs.Prelude.{◌≡◌, ◌≢◌, ℕ, List, ◌+◌, ◌++◌, ◌^◌, ◌<◌, ◌≤◌, [], ◌∷◌, true, false, length, take, is_ok, IfOk};
ghost use Rattle.bay_core.specs.Map.{Map};
ghost use Rattle.bay_core.specs.Paths.{part_path};
ghost use Rattle.bay_core.specs.Replay.{Source, Drive};
ghost use Rattle.bay_core.specs.World.{World, Steady};
ghost use Rattle.bay_core.specs.Went.{Called, Tried, write_call};
ghost use Rattle.block_pool.specs.Lent.{PoolState, is_lent, block_at};
ghost use Rattle.block_pool.specs.Lending.{with_block};
ghost use Rattle.digest_set.specs.Fed.{AllFed, Md5Fed, Sha1Fed, XxhFed};
ghost use Rattle.fan_copier.specs.Reads.{OnCard, OnDrive, GatherCalls, Gathers, AreOn};
ghost use Rattle.fan_copier.specs.Turning.{CompareCalls, PutCalls};

use crate::gather::{gather_card, gather_drive};
use bay_core::{Bay, Failed};
use block_pool::{BLOCK_BYTES, Pool, Slot};
use digest_set::{Fan, Md5Run, Sha1Run, XxhRun};

/// Where a file stands on a drive until it is whole (docs/FORMATS.md, "The control folder").
pub const PART: &str = ".mhlstation/part";

/// The three digests of a file, on their way.
pub type Run = Fan<Md5Run, Sha1Run, XxhRun>;

/// Reads a block of the card into a slot, and feeds it to the digests where all of it came.
pub fn read_into<B: Bay>(
    bay: &mut B,
    pool: &mut Pool,
    slot: &Slot,
    run: &mut Run,
    s: u32,
    path: &str,
    at: u64,
    want: usize,
) -> Result<usize, Failed>
    requires source { s < (B.world bay.old).attached.sources }
    requires range { at + want < 2 ^ 63 }
    requires want { want ≤ 65536 }
    requires lent { is_lent pool.old slot.now ≡ true }
    ensures bound { IfOk result (λ n. n ≤ want) }
    ensures called { Called (Source s) (GatherCalls (OnCard s path.now) at (take want (block_at pool.new slot.now)) result) (is_ok result) (B.world bay.old) (B.world bay.new) }
    ensures steady { (m : Map) → Steady (B.world bay.old) s m → IfOk result (Gathers m path.now at (take want (block_at pool.new slot.now))) }
    ensures pool { pool.new ≡ with_block pool.old slot.now (block_at pool.new slot.now) }
    ensures size { want ≤ length (block_at pool.new slot.now) }
    ensures fed { IfOk result (λ n. n ≡ want → (xs : List ℕ) → AllFed Md5Fed Sha1Fed XxhFed run.old xs → AllFed Md5Fed Sha1Fed XxhFed run.new (xs ++ take want (block_at pool.new slot.now))) }
{
    read_and_feed(bay, pool.bytes_mut(slot), run, s, path, at, want)
}

// Reads the front of a buffer, and feeds it.
fn read_and_feed<B: Bay>(
    bay: &mut B,
    block: &mut [u8],
    run: &mut Run,
    s: u32,
    path: &str,
    at: u64,
    want: usize,
) -> Result<usize, Failed>
    requires source { s < (B.world bay.old).attached.sources }
    requires range { at + want < 2 ^ 63 }
    requires want { want ≤ length block.old }
    ensures size { length block.new ≡ length block.old }
    ensures bound { IfOk result (λ n. n ≤ want) }
    ensures called { Called (Source s) (GatherCalls (OnCard s path.now) at (take want block.new) result) (is_ok result) (B.world bay.old) (B.world bay.new) }
    ensures steady { (m : Map) → Steady (B.world bay.old) s m → IfOk result (Gathers m path.now at (take want block.new)) }
    ensures fed { IfOk result (λ n. n ≡ want → (xs : List ℕ) → AllFed Md5Fed Sha1Fed XxhFed run.old xs → AllFed Md5Fed Sha1Fed XxhFed run.new (xs ++ take want block.new)) }
{
    let n = gather_card(bay, s, path, at, &mut block[..want])?;
    if n == want {
        run.feed(&block[..want]);
    }
    Ok(n)
}

// Reads the front of a buffer from the part of a drive.
fn read_part<B: Bay>(
    bay: &mut B,
    d: u32,
    at: u64,
    block: &mut [u8],
    len: usize,
) -> Result<usize, Failed>
    requires drive { d < (B.world bay.old).attached.drives }
    requires range { at + len < 2 ^ 63 }
    requires len { len ≤ length block.old }
    ensures size { length block.new ≡ length block.old }
    ensures bound { IfOk result (λ n. n ≤ len) }
    ensures called { Called (Drive d) (GatherCalls (OnDrive d part_path) at (take len block.new) result) (is_ok result) (B.world bay.old) (B.world bay.new) }
    ensures honest { IfOk result (λ n. AreOn d part_path at (take n (take len block.new)) (B.world bay.new)) }
{
    gather_drive(bay, d, PART, at, &mut block[..len])
}

// Whether two blocks begin with the same bytes.
fn same_front(pool: &Pool, slot: &Slot, other: &Slot, len: usize) -> bool
    requires len { len ≤ 65536 }
    requires lent { (is_lent pool.now slot.now ≡ true) × (is_lent pool.now other.now ≡ true) }
    ensures same { result ≡ true → take len (block_at pool.now slot.now) ≡ take len (block_at pool.now other.now) }
    ensures other { result ≡ false → take len (block_at pool.now slot.now) ≢ take len (block_at pool.now other.now) }
{
    pool.bytes(slot)[..len] == pool.bytes(other)[..len]
}

// Whether the bytes of the part at the block's place are the block's. They are read into the slot for comparing.
fn agrees<B: Bay>(
    bay: &mut B,
    pool: &mut Pool,
    slot: &Slot,
    compare: &Slot,
    d: u32,
    at: u64,
    len: usize,
) -> Result<bool, Failed>
    requires drive { d < (B.world bay.old).attached.drives }
    requires range { at + len < 2 ^ 63 }
    requires len { len ≤ 65536 }
    requires lent { is_lent pool.old slot.now ≡ true }
    requires compare { (is_lent pool.old compare.now ≡ true) × (slot.now ≢ compare.now) }
    ensures pool { pool.new ≡ with_block pool.old compare.now (block_at pool.new compare.now) }
    ensures called { Called (Drive d) (CompareCalls d at (take len (block_at pool.old slot.now)) result) (is_ok result) (B.world bay.old) (B.world bay.new) }
    ensures honest { IfOk result (λ same. same ≡ true → AreOn d part_path at (take len (block_at pool.old slot.now)) (B.world bay.new)) }
{
    prove_eq!(pool.bytes(slot).len(), BLOCK_BYTES);
    let n = read_part(bay, d, at, pool.bytes_mut(compare), len)?;
    Ok(n == len && same_front(pool, compare, slot, len))
}

// Writes a block to the part of a drive. The answer is that it did not agree.
fn write_part<B: Bay>(
    bay: &mut B,
    pool: &Pool,
    slot: &Slot,
    d: u32,
    at: u64,
    len: usize,
) -> Result<bool, Failed>
    requires drive { d < (B.world bay.old).attached.drives }
    requires range { at + len < 2 ^ 63 }
    requires len { len ≤ 65536 }
    requires lent { is_lent pool.now slot.now ≡ true }
    ensures called { Tried d (write_call d part_path at (take len (block_at pool.now slot.now)) ∷ []) (is_ok result) (B.world bay.old) (B.world bay.new) }
    ensures written { IfOk result (λ same. same ≡ false) }
{
    bay.write(d, PART, at, &pool.bytes(slot)[..len])?;
    Ok(false)
}

/// Brings a block to the part of a drive. Where the drive keeps its part, the bytes there are read first, and nothing is
/// written where they are the block's: the answer is whether that was so.
pub fn put_block<B: Bay>(
    bay: &mut B,
    pool: &mut Pool,
    slot: &Slot,
    compare: &Slot,
    keeps: bool,
    d: u32,
    at: u64,
    len: usize,
) -> Result<bool, Failed>
    requires drive { d < (B.world bay.old).attached.drives }
    requires range { at + len < 2 ^ 63 }
    requires len { len ≤ 65536 }
    requires lent { is_lent pool.old slot.now ≡ true }
    requires compare { (is_lent pool.old compare.now ≡ true) × (slot.now ≢ compare.now) }
    ensures pool { pool.new ≡ with_block pool.old compare.now (block_at pool.new compare.now) }
    ensures called { Called (Drive d) (PutCalls keeps d at (take len (block_at pool.old slot.now)) result) (is_ok result) (B.world bay.old) (B.world bay.new) }
    ensures agreed { IfOk result (λ same. same ≡ true → (keeps ≡ true) × AreOn d part_path at (take len (block_at pool.old slot.now)) (B.world bay.new)) }
{
    if !keeps {
        return write_part(bay, pool, slot, d, at, len);
    }
    match agrees(bay, pool, slot, compare, d, at, len) {
        Ok(true) => Ok(true),
        Ok(false) => write_part(bay, pool, slot, d, at, len),
        Err(failed) => Err(failed),
    }
}
