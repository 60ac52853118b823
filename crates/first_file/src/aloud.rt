// Steps that end in their line.
ghost use Rattle.std.specs.Prelude.{◌≡◌, ◌+◌, ◌^◌, ◌<◌, ◌≤◌, length, true, false, is_ok, IfOk};
ghost use Rattle.bay_core.specs.Went.{Went};
ghost use Rattle.block_pool.specs.Lent.{is_lent, block_at};
ghost use Rattle.block_pool.specs.Lending.{with_block};
ghost use Rattle.path_text.specs.Path.{is_control_path};
ghost use Rattle.fan_copier.specs.Copying.{NoPart};
ghost use Rattle.first_file.specs.Steps.{Aloud, AnyCalls, BeginsAloud, RecordsAloud};
ghost use Rattle.first_file.specs.Causes.{BeginCause, LostBy, RecordCause, RecordsAlone};

use crate::FirstFileError;
use bay_core::Bay;
use block_pool::{Pool, Slot};
use drive_journal::{Gate, Rec};
use path_text::{PathText, Scratch};
use read_back::ReadBackError;
use recording::{begin_on, record_file};
use report_text::{Line, line_into};

/// Begins an offload of `count` files on a fresh drive, and says so (docs/FORMATS.md, "The journal", "Lines"). `journal` is
/// the code of its plan and a closed gate. Ends at the first call that fails. Takes no memory.
pub fn begin_aloud<B: Bay>(
    bay: &mut B,
    d: u32,
    journal: &[u8],
    count: u32,
    line: &mut Scratch,
) -> Result<(), FirstFileError>
    requires drive { d < (B.world bay.old).attached.drives }
    requires range { length journal.now < 2 ^ 63 }
    ensures went { Went (Aloud d) AnyCalls (B.world bay.old) (B.world bay.new) }
    ensures cause { BeginCause d result (B.world bay.old) (B.world bay.new) }
    ensures no_part { IfOk result (λ begun. NoPart d (B.world bay.new)) }
    // Where the drive was ready for it, the run keeps to the steps, and after Ok the offload is begun, at rest and announced.
    ensures begins { BeginsAloud d journal.now count (is_ok result) (B.world bay.old) (B.world bay.new) }
{
    match begin_on(bay, d, journal) {
        Ok(()) => {}
        Err(_) => return Err(FirstFileError::Drive),
    }
    line_into(&Line::Begun(d, 0, u64::from(count)), line);
    match bay.say(line.bytes()) {
        Ok(()) => Ok(()),
        Err(_) => Err(FirstFileError::Output),
    }
}

// The error for a recording that ended so.
fn lost_by(found: ReadBackError) -> FirstFileError
    ensures { LostBy found result }
{
    match found {
        ReadBackError::DriveFailed => FirstFileError::Drive,
        found => FirstFileError::ReadBack { found },
    }
}

/// Records the file in the part of a drive, which is settled and read back first, and says so (docs/FORMATS.md, "The
/// journal", "Lines"). Ends at the first call that fails, or where what was read back is not what was recorded. Takes no
/// memory.
pub fn record_aloud<B: Bay>(
    bay: &mut B,
    d: u32,
    gate: Gate,
    path: &PathText,
    rec: &Rec,
    count: u32,
    pool: &mut Pool,
    slot: &Slot,
    line: &mut Scratch,
) -> Result<(), FirstFileError>
    requires drive { d < (B.world bay.old).attached.drives }
    requires at { gate.at ≤ 67_108_864 }
    requires index { gate.index < 262_144 }
    requires number { rec.now.index ≡ gate.index }
    requires size { rec.now.size < 2 ^ 48 }
    requires card_path { is_control_path path.now ≡ false }
    requires lent { is_lent pool.old slot.now ≡ true }
    ensures went { Went (Aloud d) AnyCalls (B.world bay.old) (B.world bay.new) }
    ensures cause { RecordCause d result (B.world bay.old) (B.world bay.new) }
    ensures pool { pool.new ≡ with_block pool.old slot.now (block_at pool.new slot.now) }
    // On an honest drive that has the recorded bytes in its part, it fails by a call alone.
    ensures honest { RecordsAlone d rec.now result (B.world bay.old) (B.world bay.new) }
    // Where the drive waits for it, the run keeps to the steps, and after Ok the file is recorded, at rest and announced.
    ensures records { RecordsAloud d gate.at path.now rec.now count (is_ok result) (B.world bay.old) (B.world bay.new) }
{
    match record_file(bay, d, gate, path, rec, pool, slot) {
        Ok(_) => {}
        Err(found) => return Err(lost_by(found)),
    }
    let number = u64::from(rec.index) + 1;
    line_into(
        &Line::Done(d, number, u64::from(count), path.as_str()),
        line,
    );
    match bay.say(line.bytes()) {
        Ok(()) => Ok(()),
        Err(_) => Err(FirstFileError::Output),
    }
}
