// The list is read again, piece by piece, and compared with its text, which is made a second time.
ghost use Rattle.std.specs.Prelude.{◌≡◌, ◌+◌, ◌<◌, ◌≤◌, ◌^◌, true, [], length, take, Some, IfOk, MatchResult};
ghost use Rattle.block_pool.specs.Lent.{is_lent, block_at};
ghost use Rattle.block_pool.specs.Lending.{with_block};
ghost use Rattle.bay_core.specs.Paths.{new_path};
ghost use Rattle.file_reading.specs.Reads.{PieceRead};
ghost use Rattle.seal_step.specs.Parts.{list_parts, joined};
ghost use Rattle.seal_step.specs.Comparing.{NoPiece, NotEnded, Compared, Stands, place_of, BlockCompared, BlockBack};
ghost use Rattle.seal_step.specs.Reading.{ListBack};

use crate::SealError;
use crate::drafting::NEW;
use crate::parts::ListParts;
use bay_core::Bay;
use block_pool::{BLOCK_BYTES, Pool, Slot};
use path_text::Scratch;

// How far the list was compared: which part is in the scratch, counted from 0, and how many of its bytes.
#[derive(Clone, Copy)]
struct Place {
    part: usize,
    done: usize,
}

// One read of at most `want` bytes into the front of a block. The answer is how many it gave.
fn read_some<B: Bay>(
    bay: &mut B,
    d: u32,
    at: u64,
    want: usize,
    block: &mut [u8],
) -> Result<usize, SealError>
    requires drive { d < (B.world bay.old).attached.drives }
    requires room { want ≤ length block.old }
    ensures bound { IfOk result (λ n. n ≤ want) }
    ensures read { MatchResult result (λ n. PieceRead d new_path at want (Some (take n block.new)) (B.world bay.old) (B.world bay.new)) (λ e. NoPiece d at want e (B.world bay.old) (B.world bay.new)) }
{
    match bay.drive_read(d, NEW, at, &mut block[..want]) {
        Ok(Some(n)) => Ok(n),
        Ok(None) => Err(SealError::Absent),
        Err(_) => Err(SealError::DriveFailed),
    }
}

// Compares a piece that was read with the same piece of the text, which stands at `at`.
fn compare(at: u64, written: &[u8], read: &[u8]) -> Result<(), SealError>
    requires long { length read.now ≡ length written.now }
    requires range { at + length read.now < 2 ^ 63 }
    ensures { Compared at written.now read.now result }
{
    for place in 0..read.len() {
        if read[place] != written[place] {
            return Err(SealError::Byte {
                at: at + place as u64,
                written: written[place],
                read: read[place],
            });
        }
    }
    Ok(())
}

// Makes the next part where the one in the scratch was compared whole.
fn refill(list: &ListParts<'_>, place: &mut Place, scratch: &mut Scratch)
    requires whole { length list.now.entries.now ≡ length list.now.plan.now.files }
    requires few { length (list_parts list.now.plan.now list.now.entries.now list.now.finish) ≤ 262_146 }
    requires stands { Stands (list_parts list.now.plan.now list.now.entries.now list.now.finish) place.old scratch.old }
    requires more { place_of (list_parts list.now.plan.now list.now.entries.now list.now.finish) place.old < length (joined (list_parts list.now.plan.now list.now.entries.now list.now.finish)) }
    ensures stands { Stands (list_parts list.now.plan.now list.now.entries.now list.now.finish) place.new scratch.new }
    ensures same { place_of (list_parts list.now.plan.now list.now.entries.now list.now.finish) place.new ≡ place_of (list_parts list.now.plan.now list.now.entries.now list.now.finish) place.old }
    ensures some { place.new.done < length scratch.new }
    ensures fits { length scratch.new ≤ 8192 }
{
    if place.done == scratch.bytes().len() {
        place.part += 1;
        list.part_into(place.part, scratch);
        place.done = 0;
    }
}

// Compares what was read at `at` with the text that follows there.
fn compare_block(
    list: &ListParts<'_>,
    place: &mut Place,
    scratch: &mut Scratch,
    at: u64,
    read: &[u8],
) -> Result<(), SealError>
    requires whole { length list.now.entries.now ≡ length list.now.plan.now.files }
    requires few { length (list_parts list.now.plan.now list.now.entries.now list.now.finish) ≤ 262_146 }
    requires stands { Stands (list_parts list.now.plan.now list.now.entries.now list.now.finish) place.old scratch.old }
    requires here { place_of (list_parts list.now.plan.now list.now.entries.now list.now.finish) place.old ≡ at }
    requires inside { at + length read.now ≤ length (joined (list_parts list.now.plan.now list.now.entries.now list.now.finish)) }
    requires range { at + length read.now < 2 ^ 63 }
    ensures { BlockCompared (list_parts list.now.plan.now list.now.entries.now list.now.finish) at read.now result place.new scratch.new }
{
    let mut done = 0usize;
    while done < read.len() {
        refill(list, place, scratch);
        let text = &scratch.bytes()[place.done..];
        let n = text.len().min(read.len() - done);
        compare(at + done as u64, &text[..n], &read[done..done + n])?;
        place.done += n;
        done += n;
    }
    Ok(())
}

// One read of the next block, which is compared with the text. The answer is how many bytes it gave.
fn read_block<B: Bay>(
    bay: &mut B,
    d: u32,
    list: &ListParts<'_>,
    place: &mut Place,
    scratch: &mut Scratch,
    at: u64,
    total: u64,
    block: &mut [u8],
) -> Result<usize, SealError>
    requires drive { d < (B.world bay.old).attached.drives }
    requires whole { length list.now.entries.now ≡ length list.now.plan.now.files }
    requires few { length (list_parts list.now.plan.now list.now.entries.now list.now.finish) ≤ 262_146 }
    requires stands { Stands (list_parts list.now.plan.now list.now.entries.now list.now.finish) place.old scratch.old }
    requires here { place_of (list_parts list.now.plan.now list.now.entries.now list.now.finish) place.old ≡ at }
    requires total { total ≡ length (joined (list_parts list.now.plan.now list.now.entries.now list.now.finish)) }
    requires more { at < total }
    requires range { total < 2 ^ 48 }
    requires room { length block.old ≡ 65536 }
    ensures { BlockBack d (list_parts list.now.plan.now list.now.entries.now list.now.finish) at result place.new scratch.new (B.world bay.old) (B.world bay.new) }
{
    let want = (total - at).min(BLOCK_BYTES as u64) as usize;
    let n = read_some(bay, d, at, want, block)?;
    if n == 0 {
        return Err(SealError::Length {
            written: total,
            read: at,
        });
    }
    compare_block(list, place, scratch, at, &block[..n])?;
    Ok(n)
}

// Asks for one byte where the text ends.
fn ask_past_end<B: Bay>(bay: &mut B, d: u32, total: u64, block: &mut [u8]) -> Result<(), SealError>
    requires drive { d < (B.world bay.old).attached.drives }
    requires range { total < 2 ^ 48 }
    requires room { 1 ≤ length block.old }
    ensures { MatchResult result (λ _. PieceRead d new_path total 1 (Some []) (B.world bay.old) (B.world bay.new)) (λ e. NotEnded d total e (B.world bay.old) (B.world bay.new)) }
{
    if read_some(bay, d, total, 1, block)? == 0 {
        Ok(())
    } else {
        Err(SealError::Length {
            written: total,
            read: total + 1,
        })
    }
}

/// Reads the list again and compares it with its text, of `total` bytes, from the front on.
pub fn read_list<B: Bay>(
    bay: &mut B,
    d: u32,
    list: &ListParts<'_>,
    total: u64,
    pool: &mut Pool,
    slot: &Slot,
    scratch: &mut Scratch,
) -> Result<(), SealError>
    requires drive { d < (B.world bay.old).attached.drives }
    requires whole { length list.now.entries.now ≡ length list.now.plan.now.files }
    requires total { total ≡ length (joined (list_parts list.now.plan.now list.now.entries.now list.now.finish)) }
    requires range { total < 2 ^ 48 }
    requires lent { is_lent pool.old slot.now ≡ true }
    ensures back { ListBack d (joined (list_parts list.now.plan.now list.now.entries.now list.now.finish)) result (B.world bay.old) (B.world bay.new) }
    ensures pool { pool.new ≡ with_block pool.old slot.now (block_at pool.new slot.now) }
{
    prove!(list.count() <= 262_146); // so the number of a part fits its type
    let mut place = Place { part: 0, done: 0 };
    list.part_into(0, scratch);
    let mut at = 0u64;
    while at < total {
        let n = read_block(
            bay,
            d,
            list,
            &mut place,
            scratch,
            at,
            total,
            pool.bytes_mut(slot),
        )?;
        at += n as u64;
    }
    ask_past_end(bay, d, total, pool.bytes_mut(slot))
}
