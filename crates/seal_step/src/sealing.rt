// A drive is sealed by the list of its offload.
ghost use Rattle.std.specs.Prelude.{◌≡◌, ◌<◌, true, length, is_ok};
ghost use Rattle.bay_core.specs.Crashes.{Leaves, Rests};
ghost use Rattle.bay_core.specs.Replay.{Drive};
ghost use Rattle.bay_core.specs.Went.{Went, Only};
ghost use Rattle.block_pool.specs.Lent.{is_lent, block_at};
ghost use Rattle.block_pool.specs.Lending.{with_block};
ghost use Rattle.copy_plan.specs.Plan.{list_of};
ghost use Rattle.drive_journal.specs.Steps.{NoScratch, IsWhole, IsThere};
ghost use Rattle.offload_law.specs.Sealing.{plan_list_text};
ghost use Rattle.seal_step.specs.Calls.{SealCalls, SealCause, FailsAlone};
ghost use Rattle.seal_step.specs.Parts.{list_parts, joined};
ghost use Rattle.seal_step.specs.Sealing.{Seals};

use crate::SealError;
use crate::drafting::{name_list, write_parts};
use crate::parts::ListParts;
use crate::reading::read_list;
use bay_core::Bay;
use block_pool::{Pool, Slot};
use copy_plan::Plan;
use drive_journal::Rec;
use offload_law::steps_are_safe;
use path_text::{Moment, Scratch};

/// Seals a drive: writes the list of the plan, with one record for each of its files in their order, to a scratch file,
/// settles it, reads it again, gives it its name (docs/FORMATS.md, "Lists"), and settles that. The text is never held
/// whole: its parts are made in the scratch, once to be written and once to be compared with the blocks that are read into
/// the slot. `DriveFailed` stands for any failed call, by the drive's count; another error is that of the first place from
/// the front at which the list is not what was written. Takes no memory.
pub fn seal<B: Bay>(
    bay: &mut B,
    d: u32,
    plan: &Plan,
    entries: &[Rec],
    finish: Moment,
    pool: &mut Pool,
    slot: &Slot,
    scratch: &mut Scratch,
) -> Result<(), SealError>
    requires drive { d < (B.world bay.old).attached.drives }
    requires entries { length entries.now ≡ length plan.now.files }
    requires lent { is_lent pool.old slot.now ≡ true }
    ensures went { Went (Only (Drive d)) (SealCalls d (list_of plan.now) (list_parts plan.now entries.now finish) result) (B.world bay.old) (B.world bay.new) }
    // The parts are those of the list's one text.
    ensures text { joined (list_parts plan.now entries.now finish) ≡ plan_list_text plan.now entries.now finish }
    ensures cause { SealCause d result (B.world bay.old) (B.world bay.new) }
    ensures pool { pool.new ≡ with_block pool.old slot.now (block_at pool.new slot.now) }
    // On an honest drive it fails by a call alone.
    ensures honest { FailsAlone d result (B.world bay.old) (B.world bay.new) }
    // A stop at any moment leaves the list whole or what stood under its name as it was.
    ensures crash { Leaves d NoScratch (IsWhole (list_of plan.now) (plan_list_text plan.now entries.now finish)) (B.world bay.old) (B.world bay.new) }
    // After Ok the drive is at rest with the list.
    ensures rests { Rests d NoScratch (IsThere (list_of plan.now) (plan_list_text plan.now entries.now finish)) (is_ok result) (B.world bay.old) (B.world bay.new) }
    // Where the drive was ready for it, the run keeps to the steps, and after Ok the list is sealed and at rest.
    ensures seals { Seals d (list_of plan.now) (plan_list_text plan.now entries.now finish) (is_ok result) (B.world bay.old) (B.world bay.new) }
{
    let _files = plan.files(); // what is known of every plan
    draft_and_name(bay, d, plan, entries, finish, pool, slot, scratch)
}

// The calls of it.
fn draft_and_name<B: Bay>(
    bay: &mut B,
    d: u32,
    plan: &Plan,
    entries: &[Rec],
    finish: Moment,
    pool: &mut Pool,
    slot: &Slot,
    scratch: &mut Scratch,
) -> Result<(), SealError>
    requires drive { d < (B.world bay.old).attached.drives }
    requires entries { length entries.now ≡ length plan.now.files }
    requires lent { is_lent pool.old slot.now ≡ true }
    ensures went { Went (Only (Drive d)) (SealCalls d (list_of plan.now) (list_parts plan.now entries.now finish) result) (B.world bay.old) (B.world bay.new) }
    ensures cause { SealCause d result (B.world bay.old) (B.world bay.new) }
    ensures pool { pool.new ≡ with_block pool.old slot.now (block_at pool.new slot.now) }
    ensures honest { FailsAlone d result (B.world bay.old) (B.world bay.new) }
    ensures seals { Seals d (list_of plan.now) (plan_list_text plan.now entries.now finish) (is_ok result) (B.world bay.old) (B.world bay.new) }
{
    steps_are_safe();
    let list = ListParts {
        plan,
        entries,
        finish,
    };
    let Ok(total) = write_parts(bay, d, &list, scratch) else {
        return Err(SealError::DriveFailed);
    };
    match bay.sync(d) {
        Ok(()) => {} // the list is whole before it is read again
        Err(_) => return Err(SealError::DriveFailed),
    }
    match read_list(bay, d, &list, total, pool, slot, scratch) {
        Ok(()) => {}
        Err(e) => return Err(e),
    }
    match name_list(bay, d, plan.list().as_str()) {
        Ok(()) => Ok(()),
        Err(_) => Err(SealError::DriveFailed),
    }
}
