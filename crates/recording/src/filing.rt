// A file in the part is settled and read again before it gets its path and its record.
ghost use Rattle.std.specs.Prelude.{◌≡◌, ◌+◌, ◌<◌, ◌≤◌, ◌^◌, ◌++◌, true, false, is_ok, IfOk};
ghost use Rattle.bay_core.specs.Replay.{Drive};
ghost use Rattle.bay_core.specs.Went.{Went, Only, Tried};
ghost use Rattle.block_pool.specs.Lent.{is_lent, block_at};
ghost use Rattle.block_pool.specs.Lending.{with_block};
ghost use Rattle.path_text.specs.Path.{is_control_path};
ghost use Rattle.drive_journal.specs.Calls.{place_calls, open_calls};
ghost use Rattle.drive_journal.specs.Record.{closed_record};
ghost use Rattle.recording.specs.Filing.{RecordCalls, RecordCause, Files, Records, FailsAlone, Cleans};

use bay_core::{Bay, DriveFailed};
use block_pool::{Pool, Slot};
use drive_journal::{Gate, Rec, open_gate, place};
use offload_law::steps_are_safe;
use path_text::PathText;
use read_back::{ReadBackError, read_back};

/// The copy of the file that is being copied.
const PART: &str = ".mhlstation/part";

/// Records a file that is whole in the part of a drive: settles the part, reads it again, gives it its path, and opens
/// the gate in front of its record. The answer is the next gate. `DriveFailed` stands for any failed call, by the drive's
/// count; another error is that of the read-back. Takes no memory.
pub fn record_file<B: Bay>(
    bay: &mut B,
    d: u32,
    gate: Gate,
    path: &PathText,
    rec: &Rec,
    pool: &mut Pool,
    slot: &Slot,
) -> Result<Gate, ReadBackError>
    requires drive { d < (B.world bay.old).attached.drives }
    requires at { gate.at ≤ 67_108_864 }
    requires index { gate.index < 262_144 }
    requires number { rec.now.index ≡ gate.index }
    requires size { rec.now.size < 2 ^ 48 }
    requires card_path { is_control_path path.now ≡ false }
    requires lent { is_lent pool.old slot.now ≡ true }
    ensures went { Went (Only (Drive d)) (RecordCalls d gate.at path.now rec.now result) (B.world bay.old) (B.world bay.new) }
    ensures cause { RecordCause d result (B.world bay.old) (B.world bay.new) }
    ensures next { IfOk result (λ next. next ≡ record { at = gate.at + 65; index = gate.index + 1 }) }
    ensures pool { pool.new ≡ with_block pool.old slot.now (block_at pool.new slot.now) }
    // After Ok there is no part.
    ensures clean { Cleans d (is_ok result) (B.world bay.old) (B.world bay.new) }
    // On an honest drive that has the recorded bytes in its part, it fails by a call alone.
    ensures honest { FailsAlone d rec.now result (B.world bay.old) (B.world bay.new) }
    // Where the drive waits for it, the run keeps to the steps, and after Ok the file is recorded and at rest.
    ensures records { Records d gate.at path.now rec.now (is_ok result) (B.world bay.old) (B.world bay.new) }
{
    match bay.sync(d) {
        Ok(()) => {}
        Err(_) => return Err(ReadBackError::DriveFailed),
    }
    match read_back(bay, d, PART, rec.size, &rec.triple, pool, slot) {
        Ok(()) => {}
        Err(e) => return Err(e),
    }
    match file_part(bay, d, gate, path, rec) {
        Ok(next) => Ok(next),
        Err(_) => Err(ReadBackError::DriveFailed),
    }
}

// Gives the part its path, and opens the gate in front of its record.
fn file_part<B: Bay>(
    bay: &mut B,
    d: u32,
    gate: Gate,
    path: &PathText,
    rec: &Rec,
) -> Result<Gate, DriveFailed>
    requires drive { d < (B.world bay.old).attached.drives }
    requires at { gate.at ≤ 67_108_864 }
    requires index { gate.index < 262_144 }
    requires number { rec.now.index ≡ gate.index }
    requires card_path { is_control_path path.now ≡ false }
    ensures tried { Tried d (place_calls d gate.at path.now (closed_record rec.now) ++ open_calls d gate.at) (is_ok result) (B.world bay.old) (B.world bay.new) }
    ensures next { IfOk result (λ next. next ≡ record { at = gate.at + 65; index = gate.index + 1 }) }
    ensures files { Files d gate.at path.now rec.now (is_ok result) (B.world bay.old) (B.world bay.new) }
{
    steps_are_safe();
    place_and_open(bay, d, gate, path, rec)
}

// The calls of it.
fn place_and_open<B: Bay>(
    bay: &mut B,
    d: u32,
    gate: Gate,
    path: &PathText,
    rec: &Rec,
) -> Result<Gate, DriveFailed>
    requires drive { d < (B.world bay.old).attached.drives }
    requires at { gate.at ≤ 67_108_864 }
    requires index { gate.index < 262_144 }
    requires number { rec.now.index ≡ gate.index }
    requires card_path { is_control_path path.now ≡ false }
    ensures tried { Tried d (place_calls d gate.at path.now (closed_record rec.now) ++ open_calls d gate.at) (is_ok result) (B.world bay.old) (B.world bay.new) }
    ensures next { IfOk result (λ next. next ≡ record { at = gate.at + 65; index = gate.index + 1 }) }
{
    place(bay, d, &gate, path, rec)?;
    open_gate(bay, d, gate)
}
