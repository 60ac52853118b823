// A file gets its path and its record, and the record counts once its gate is opened.
ghost use Rattle.std.specs.Prelude.{◌≡◌, ℕ, ◌+◌, ◌<◌, ◌≤◌, false, List, is_ok, IfOk, OnOk};
ghost use Rattle.bay_core.specs.declared.event.Event.{Event};
ghost use Rattle.bay_core.specs.Crashes.{Leaves, Rests, IsAny};
ghost use Rattle.bay_core.specs.Map.{Map};
ghost use Rattle.bay_core.specs.Replay.{reads};
ghost use Rattle.bay_core.specs.Went.{Tried};
ghost use Rattle.bay_core.specs.World.{Honest};
ghost use Rattle.path_text.specs.Path.{is_control_path};
ghost use Rattle.drive_journal.specs.Calls.{place_calls, open_calls};
ghost use Rattle.drive_journal.specs.Record.{closed_record};
ghost use Rattle.drive_journal.specs.Steps.{HasPart, IsPlacing, IsPlaced, IsOpening, IsOpened};

use crate::record::record_bytes;
use crate::tidying::PART;
use crate::{Gate, Rec};
use bay_core::{Bay, DriveFailed};
use path_text::PathText;

/// The journal of a drive.
pub(crate) const JOURNAL: &str = ".mhlstation/journal";

/// The bytes from one gate to the next: its own and those of a record.
const STEP: u64 = 65;

/// Gives the copy of a file its path, and writes the file's record and a closed gate right behind
/// the closed gate, where neither counts yet. Takes no memory, and fails by the drive alone.
pub fn place<B: Bay>(
    bay: &mut B,
    d: u32,
    gate: &Gate,
    path: &PathText,
    rec: &Rec,
) -> Result<(), DriveFailed>
    requires drive { d < (B.world bay.old).attached.drives }
    requires at { gate.now.at ≤ 67_108_864 }
    requires index { gate.now.index < 262_144 }
    requires number { rec.now.index ≡ gate.now.index }
    requires card_path { is_control_path path.now ≡ false }
    ensures tried { Tried d (place_calls d gate.now.at path.now (closed_record rec.now)) (is_ok result) (B.world bay.old) (B.world bay.new) }
    // A stop at any moment leaves all as it was but the part, the path and what is behind the gate.
    ensures crash { Leaves d IsAny (IsPlacing gate.now.at path.now) (B.world bay.old) (B.world bay.new) }
    // After Ok the drive is at rest with the file at its path and the record behind the gate.
    ensures rests { Rests d IsAny (IsPlaced gate.now.at path.now rec.now) (is_ok result) (B.world bay.old) (B.world bay.new) }
    // On an honest drive Ok says that the part was there.
    ensures there { (m : Map) (L : List Event) → Honest (B.world bay.old) d m L → OnOk result (HasPart (reads m L d)) }
{
    let bytes = record_bytes(rec);
    put_in_place(bay, d, gate.at, path.as_str(), &bytes)
}

// The calls of it.
fn put_in_place<B: Bay>(
    bay: &mut B,
    d: u32,
    gate: u64,
    path: &str,
    bytes: &[u8; 65],
) -> Result<(), DriveFailed>
    requires drive { d < (B.world bay.old).attached.drives }
    requires at { gate ≤ 67_108_864 }
    ensures tried { Tried d (place_calls d gate path.now bytes.now) (is_ok result) (B.world bay.old) (B.world bay.new) }
    ensures there { (m : Map) (L : List Event) → Honest (B.world bay.old) d m L → OnOk result (HasPart (reads m L d)) }
{
    bay.rename(d, PART, path)?;
    bay.write(d, JOURNAL, gate + 1, bytes)?;
    bay.sync(d)?; // the record is there before its gate is opened
    Ok(())
}

/// Opens the gate in front of a record, which counts from then on, and answers the next gate. Takes
/// no memory, and fails by the drive alone.
pub fn open_gate<B: Bay>(bay: &mut B, d: u32, gate: Gate) -> Result<Gate, DriveFailed>
    requires drive { d < (B.world bay.old).attached.drives }
    requires at { gate.at ≤ 67_108_864 }
    requires index { gate.index < 262_144 }
    ensures tried { Tried d (open_calls d gate.at) (is_ok result) (B.world bay.old) (B.world bay.new) }
    // A stop at any moment leaves all as it was but the gate's byte.
    ensures crash { Leaves d IsAny (IsOpening gate.at) (B.world bay.old) (B.world bay.new) }
    // After Ok the drive is at rest with the gate open.
    ensures rests { Rests d IsAny (IsOpened gate.at) (is_ok result) (B.world bay.old) (B.world bay.new) }
    ensures next { IfOk result (λ next. next ≡ record { at = gate.at + 65; index = gate.index + 1 }) }
{
    write_open(bay, d, gate.at)?;
    Ok(Gate {
        at: gate.at + STEP,
        index: gate.index + 1,
    })
}

// The calls of it.
fn write_open<B: Bay>(bay: &mut B, d: u32, gate: u64) -> Result<(), DriveFailed>
    requires drive { d < (B.world bay.old).attached.drives }
    requires at { gate ≤ 67_108_864 }
    ensures { Tried d (open_calls d gate) (is_ok result) (B.world bay.old) (B.world bay.new) }
{
    bay.write(d, JOURNAL, gate, &[1])?;
    bay.sync(d)?; // the gate is open before that is told
    Ok(())
}
