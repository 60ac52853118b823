// A file is recorded on a drive.
ghost use Rattle.std.specs.Prelude.{◌≡◌, ◌≤◌, ◌<◌, ◌+◌, ◌^◌, [], Bool, false, length, is_ok, IfOk, vec_capacity};
ghost use Rattle.bay_core.specs.Replay.{Drive};
ghost use Rattle.bay_core.specs.Went.{Went, Only};
ghost use Rattle.block_pool.specs.Lent.{free_in};
ghost use Rattle.drive_journal.specs.Journal.{IsShape};
ghost use Rattle.drive_journal.specs.Look.{next_gate};
ghost use Rattle.fan_copier.specs.Ring.{Spares};
ghost use Rattle.path_text.specs.Path.{is_control_path};
ghost use Rattle.recording.specs.Filing.{RecordCalls, RecordCause, Records, FailsAlone, Cleans};
ghost use Rattle.run_state.specs.Acts.{RecordTurn, RecordedAloud};
ghost use Rattle.run_state.specs.Rules.{FitsPlan, IsSizeOf};
ghost use Rattle.run_state.specs.State.{Gone, after_record, drive_at, due, files_of, is_gone};
ghost use Rattle.offload_run.specs.Offload.{ordered_of, drives_of, stands_at, IsStocked, IsTurning};

use crate::Offload;
use crate::offload::file_at;
use crate::saying::say_recorded;
use bay_core::Bay;
use block_pool::Pool;
use drive_journal::{Gate, Rec};
use path_text::PathText;
use read_back::ReadBackError;
use recording::record_file;
use run_state::{DriveRun, Phase};

impl Offload {
    // The turn of drive d: the file is recorded on it, if it is due there.
    pub(crate) fn record_on<B: Bay>(&mut self, bay: &mut B, pool: &mut Pool, rec: Rec, d: u32)
        requires turning { IsTurning self.old }
        requires stocked { IsStocked self.old }
        requires there { d < length self.old.drives.items }
        requires few { length self.old.drives.items ≤ 8 }
        requires attached { is_gone (drive_at (drives_of self.old).each d) ≡ false → d < (B.world bay.old).attached.drives }
        requires sized { IsSizeOf self.old.plan rec.index rec.size }
        requires fits { FitsPlan self.old.plan (drive_at (drives_of self.old).each d) }
        requires free { 1 ≤ free_in pool.old.lent }
        ensures same { ordered_of self.new ≡ ordered_of self.old }
        ensures stocked { IsStocked self.new }
        ensures lent { pool.new.lent ≡ pool.old.lent }
        ensures spares { Spares [] (λ n. Unit {0}) pool.old pool.new }
        ensures acted { RecordTurn (ordered_of self.old) rec d (due rec.index (drive_at (drives_of self.old).each d)) (drives_of self.old) (stands_at self.new) (B.world bay.old) (B.world bay.new) }
    {
        match self.take_drive(d) {
            DriveRun::Begun {
                entries,
                gate,
                kept,
            } => {
                if entries.len() == rec.index as usize {
                    self.record_due(bay, pool, rec, d, entries, gate);
                } else {
                    let drive = DriveRun::Begun {
                        entries,
                        gate,
                        kept,
                    };
                    let next = self.after_record(rec, d);
                    self.pass_drive(d, drive, next);
                }
            }
            other => {
                let next = self.after_record(rec, d);
                self.pass_drive(d, other, next);
            }
        }
    }

    // The file is recorded on a drive with a record of each file before it, which was taken out of the run; its line is said.
    fn record_due<B: Bay>(
        &mut self,
        bay: &mut B,
        pool: &mut Pool,
        rec: Rec,
        d: u32,
        entries: Vec<Rec>,
        gate: Gate,
    )
        requires turning { IsTurning self.old }
        requires stocked { IsStocked self.old }
        requires there { d < length self.old.drives.items }
        requires few { length self.old.drives.items ≤ 8 }
        requires gone { drive_at (drives_of self.old).each d ≡ Gone }
        requires attached { d < (B.world bay.old).attached.drives }
        requires sized { IsSizeOf self.old.plan rec.index rec.size }
        requires next { length entries.items ≡ rec.index }
        requires gate { gate ≡ next_gate self.old.plan rec.index }
        requires room { files_of self.old.plan ≤ vec_capacity entries }
        requires free { 1 ≤ free_in pool.old.lent }
        ensures same { ordered_of self.new ≡ ordered_of self.old }
        ensures stocked { IsStocked self.new }
        ensures lent { pool.new.lent ≡ pool.old.lent }
        ensures spares { Spares [] (λ n. Unit {0}) pool.old pool.new }
        ensures acted { (kept : Bool) → RecordedAloud (ordered_of self.old) rec d (record { recs = entries.items; gate = gate; kept = kept }) (drives_of self.old) (stands_at self.new) (B.world bay.old) (B.world bay.new) }
    {
        shape_of(&rec);
        let next = self.after_record(rec, d);
        let files = self.plan.files().len();
        let file = file_at(&self.plan, rec.index);
        let came = record_with_slot(bay, pool, d, gate, &file.path, &rec);
        let said = say_recorded(bay, d, files, &file.path, &rec, &came, &mut self.line);
        self.go_on(said, next);
        match came {
            Ok(gate) => self.add_record(d, entries, rec, gate),
            Err(_) => self.set_dropped(d),
        }
    }

    // What is done after a file was recorded on drive d.
    fn after_record(&self, rec: Rec, d: u32) -> Phase
        requires there { d < length self.now.drives.items }
        requires few { length self.now.drives.items ≤ 8 }
        requires file { rec.index < files_of self.now.plan }
        ensures { result ≡ after_record (length (drives_of self.now).each) (files_of self.now.plan) rec d }
    {
        if (d as usize) + 1 < self.drives.len() {
            Phase::Records { rec, d: d + 1 }
        } else {
            self.after_file(rec.index)
        }
    }
}

// Records a file on a drive, with a slot for reading back.
fn record_with_slot<B: Bay>(
    bay: &mut B,
    pool: &mut Pool,
    d: u32,
    gate: Gate,
    path: &PathText,
    rec: &Rec,
) -> Result<Gate, ReadBackError>
    requires drive { d < (B.world bay.old).attached.drives }
    requires at { gate.at ≤ 67_108_864 }
    requires index { gate.index < 262_144 }
    requires number { rec.now.index ≡ gate.index }
    requires size { rec.now.size < 2 ^ 48 }
    requires card_path { is_control_path path.now ≡ false }
    requires free { 1 ≤ free_in pool.old.lent }
    ensures went { Went (Only (Drive d)) (RecordCalls d gate.at path.now rec.now result) (B.world bay.old) (B.world bay.new) }
    ensures cause { RecordCause d result (B.world bay.old) (B.world bay.new) }
    ensures next { IfOk result (λ next. next ≡ record { at = gate.at + 65; index = gate.index + 1 }) }
    ensures lent { pool.new.lent ≡ pool.old.lent }
    ensures spares { Spares [] (λ n. Unit {0}) pool.old pool.new }
    ensures clean { Cleans d (is_ok result) (B.world bay.old) (B.world bay.new) }
    ensures honest { FailsAlone d rec.now result (B.world bay.old) (B.world bay.new) }
    ensures records { Records d gate.at path.now rec.now (is_ok result) (B.world bay.old) (B.world bay.new) }
{
    let slot = match pool.take() {
        Some(slot) => slot,
        None => unreachable!(),
    };
    let came = record_file(bay, d, gate, path, rec, pool, &slot);
    pool.give(slot);
    came
}

// What is known of every record.
fn shape_of(rec: &Rec)
    ensures { IsShape rec.now }
{
    let _index = rec.index;
    let _size = rec.size;
    let _early = rec.hashed.seconds();
    is_whole(&rec.triple.md5);
    is_whole(&rec.triple.sha1);
    is_whole(&rec.triple.xxh);
}

// A digest has its length.
fn is_whole<const N: usize>(digest: &[u8; N])
    ensures { length digest.now ≡ N }
{}
