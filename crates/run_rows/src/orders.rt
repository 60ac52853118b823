// Orders by where their drives start, and runs that are turned to their end.
ghost use Rattle.std.specs.Prelude.{◌≡◌, length, IfOk, IfSome, OnOk};
ghost use Rattle.std.specs.List.{AllByRecursion};
ghost use Rattle.bay_mem.specs.State.{world_of};
ghost use Rattle.drive_journal.specs.Journal.{AreRecords, IsRecord};
ghost use Rattle.drive_journal.specs.Order.{Fits};
ghost use Rattle.run_state.specs.Rules.{CanTurn, IsRun};
ghost use Rattle.offload_run.specs.Offload.{ordered_of, stands_at, IsStocked};
ghost use Rattle.run_rows.specs.Ready.{IsReady};

use crate::cards::{File, NOON, bay, bytes, fail_calls, plan};
use bay_mem::{MemBay, MemMap};
use block_pool::Pool;
use copy_plan::{Plan, PlannedFile, encoded_len};
use digest_set::{Fan, Triple, triple_of};
use drive_journal::{DriveStart, Gate, Listed, Order, Rec};
use offload_run::Offload;
use path_text::Moment;
use run_state::RunTurn;
use std::alloc::{AllocError, Global};
use std::process::Abort;
use std::test::Fail;

// Where a drive starts.
#[derive(Clone, Copy)]
pub enum Start {
    Gone,
    Fresh,
    // It has so many records, and keeps its part or not.
    Begun(u32, bool),
    Sealed,
}

pub const FRESH: [Start; 1] = [Start::Fresh];

pub const TWO_FRESH: [Start; 2] = [Start::Fresh; 2];

pub const THREE_FRESH: [Start; 3] = [Start::Fresh; 3];

pub const EIGHT_FRESH: [Start; 8] = [Start::Fresh; 8];

// The digests of the bytes of a file of this size.
fn triple(alloc: Global, size: u64) -> Result<Triple, AllocError> {
    let mut fan = Fan::start();
    fan.feed(&bytes(alloc, size)?);
    Ok(triple_of(fan))
}

// A digest has its length.
fn is_whole<const N: usize>(digest: &[u8; N])
    ensures { length digest.now ≡ N }
{}

// The record of a file with this number, whose bytes are those of its size.
fn record_of(
    alloc: Global,
    file: &PlannedFile,
    index: u32,
    hashed: Moment,
) -> Result<Rec, AllocError>
    ensures { IfOk result (IsRecord index file.now) }
{
    let triple = triple(alloc, file.size)?;
    let _early = hashed.seconds();
    is_whole(&triple.md5);
    is_whole(&triple.sha1);
    is_whole(&triple.xxh);
    Ok(Rec {
        index,
        size: file.size,
        triple,
        hashed,
    })
}

// Records of the first files of a plan, whose bytes are those of their sizes. They were hashed at noon.
fn records(alloc: Global, plan: &Plan, count: u32) -> Result<Vec<Rec>, Fail>
    ensures are { IfOk result (λ recs. AreRecords 0 plan.now.files recs.items) }
    ensures count { IfOk result (λ recs. length recs.items ≡ count) }
{
    let hashed = Moment::new(NOON).ok_or("a moment")?;
    let mut recs = Vec::new(alloc);
    for index in 0..count {
        let file = plan.files().get(index as usize).ok_or("fewer files")?;
        recs.push(record_of(alloc, file, index, hashed)?)?;
    }
    Ok(recs)
}

// A drive that starts so.
fn drive_start(alloc: Global, plan: &Plan, start: Start) -> Result<DriveStart, Fail>
    ensures { IfOk result (Fits plan.now) }
{
    Ok(match start {
        Start::Gone => DriveStart::Gone,
        Start::Fresh => DriveStart::Fresh,
        Start::Begun(count, kept) => DriveStart::Begun {
            entries: records(alloc, plan, count)?,
            gate: Gate {
                at: encoded_len(plan) + 65 * u64::from(count),
                index: count,
            },
            kept,
        },
        Start::Sealed => DriveStart::Sealed {
            entries: records(alloc, plan, plan.files().len() as u32)?,
        },
    })
}

// Drives that start so.
fn drive_starts(alloc: Global, plan: &Plan, starts: &[Start]) -> Result<Vec<DriveStart>, Fail>
    ensures fit { IfOk result (λ drives. AllByRecursion (Fits plan.now) drives.items) }
    ensures count { IfOk result (λ drives. length drives.items ≡ length starts.now) }
{
    let mut drives = Vec::new(alloc);
    for start in starts {
        drives.push(drive_start(alloc, plan, *start)?)?;
    }
    Ok(drives)
}

// What a source list records of each file of a plan, where there is one.
fn listed_of(
    alloc: Global,
    plan: &Plan,
    listed: Option<&[Listed]>,
) -> Result<Option<Vec<Listed>>, Fail>
    ensures { IfOk result (λ listed. IfSome listed (λ items. length items.items ≡ length plan.now.files)) }
{
    let Some(items) = listed else {
        return Ok(None);
    };
    if items.len() != plan.files().len() {
        return Err("another number of files is listed".into());
    }
    Ok(Some(items.to_vec(alloc)?))
}

// The order of a run from card 0 to one to eight drives that start so, with 1 to 16 blocks at once.
pub fn order(
    alloc: Global,
    files: &[File],
    starts: &[Start],
    copies: u32,
    slots: u32,
    listed: Option<&[Listed]>,
) -> Result<Order, Fail>
    ensures { IfOk result (λ order. order.source ≡ 0) }
{
    if starts.is_empty() || starts.len() > 8 || slots == 0 || slots > 16 {
        return Err("one to eight drives, and one to sixteen slots".into());
    }
    let plan = plan(alloc, files)?;
    let listed = listed_of(alloc, &plan, listed)?;
    let drives = drive_starts(alloc, &plan, starts)?;
    Ok(Order {
        source: 0,
        copies,
        slots,
        plan,
        listed,
        drives,
    })
}

// Turns a run until it has ended.
fn turn_to_end(run: &mut Offload, bay: &mut MemBay, pool: &mut Pool)
    requires keeps { IsRun (ordered_of run.old) (stands_at run.old) }
    requires ready { CanTurn (ordered_of run.old) (stands_at run.old) pool.old (world_of bay.old.seen) }
    requires stocked { IsStocked run.old }
    requires devices { IsReady bay.old }
    ensures keeps { IsRun (ordered_of run.new) (stands_at run.new) }
    ensures ready { CanTurn (ordered_of run.new) (stands_at run.new) pool.new (world_of bay.new.seen) }
    ensures stocked { IsStocked run.new }
    ensures devices { IsReady bay.new }
{
    loop {
        match run.turn(bay, pool) {
            RunTurn::Going => {}
            RunTurn::Ended => return,
        }
    }
}

// The most blocks that a run may have at once, and one more.
const BLOCKS: u32 = 17;

// Turns a run to its end. A turn after that makes no call, and the pool has all of its blocks again.
pub fn offload(
    rt: &impl Abort,
    alloc: Global,
    bay: &mut MemBay,
    order: Order,
) -> Result<Offload, Fail>
    requires card { order.source ≡ 0 }
    requires devices { IsReady bay.old }
    ensures { OnOk result (IsReady bay.new) }
{
    let mut pool = Pool::new(alloc, BLOCKS)?;
    let mut run = Offload::new(alloc, order)?;
    turn_to_end(&mut run, bay, &mut pool);
    let calls = bay.events().len();
    assert!(rt; matches!(run.turn(bay, &mut pool), RunTurn::Ended));
    assert!(rt; bay.events().len() == calls && pool.free() == BLOCKS);
    Ok(run)
}

// Turns a run of these files to its end, onto drives that start so and have this. These calls fail, of those that can.
pub fn offload_from(
    rt: &impl Abort,
    alloc: Global,
    files: &[File],
    starts: &[Start],
    maps: Vec<MemMap>,
    copies: u32,
    failing: &[u64],
) -> Result<(Offload, MemBay), Fail>
    ensures { IfOk result (λ came. IsReady came.1) }
{
    let mut bay = bay(alloc, files, maps)?;
    fail_calls(&mut bay, failing)?;
    let order = order(alloc, files, starts, copies, 16, None)?;
    let run = offload(rt, alloc, &mut bay, order)?;
    Ok((run, bay))
}
