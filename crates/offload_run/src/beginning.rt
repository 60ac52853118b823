// A drive is begun, or goes on.
ghost use Rattle.std.specs.Prelude.{◌≡◌, ◌≤◌, ◌<◌, List, [], false, length, option_copied, vec_capacity};
ghost use Rattle.run_state.specs.Acts.{BeginTurn, BegunAloud, MovesOrDrops, begin_line, next_path};
ghost use Rattle.run_state.specs.State.{Gone, Fresh, Begun, after_begin, drive_at, files_of, is_gone};
ghost use Rattle.offload_run.specs.Offload.{ordered_of, drives_of, stands_at, IsStocked, IsTurning, SaysOn};

use crate::Offload;
use crate::saying::say_begun;
use bay_core::Bay;
use copy_plan::Plan;
use drive_journal::{Gate, Rec};
use path_text::PathText;
use recording::{begin_on, rejoin_on};
use run_state::{DriveRun, Phase};

impl Offload {
    // The turn of drive d: a fresh drive gets its journal, and one that was begun goes on.
    pub(crate) fn begin_drive<B: Bay>(&mut self, bay: &mut B, d: u32)
        requires turning { IsTurning self.old }
        requires stocked { IsStocked self.old }
        requires there { d < length self.old.drives.items }
        requires few { length self.old.drives.items ≤ 8 }
        requires attached { is_gone (drive_at (drives_of self.old).each d) ≡ false → d < (B.world bay.old).attached.drives }
        ensures same { ordered_of self.new ≡ ordered_of self.old }
        ensures stocked { IsStocked self.new }
        ensures acted { BeginTurn (ordered_of self.old) d (drive_at (drives_of self.old).each d) (drives_of self.old) (stands_at self.new) (B.world bay.old) (B.world bay.new) }
    {
        match self.take_drive(d) {
            DriveRun::Fresh { room } => self.begin_fresh(bay, d, room),
            DriveRun::Begun {
                entries,
                gate,
                kept,
            } => self.rejoin(bay, d, entries, gate, kept),
            other => {
                let next = self.after_begin(d);
                self.pass_drive(d, other, next);
            }
        }
    }

    // A fresh drive, which was taken out of the run, gets its journal.
    fn begin_fresh<B: Bay>(&mut self, bay: &mut B, d: u32, room: Vec<Rec>)
        requires turning { IsTurning self.old }
        requires stocked { IsStocked self.old }
        requires there { d < length self.old.drives.items }
        requires few { length self.old.drives.items ≤ 8 }
        requires gone { drive_at (drives_of self.old).each d ≡ Gone }
        requires attached { d < (B.world bay.old).attached.drives }
        requires none { room.items ≡ [] }
        requires room { files_of self.old.plan ≤ vec_capacity room }
        ensures same { ordered_of self.new ≡ ordered_of self.old }
        ensures stocked { IsStocked self.new }
        ensures acted { BegunAloud (ordered_of self.old) d Fresh (drives_of self.old) (stands_at self.new) (B.world bay.old) (B.world bay.new) }
    {
        let gate = Gate {
            at: (self.journal.len() - 1) as u64,
            index: 0,
        };
        let begun = begin_on(bay, d, &self.journal).is_ok();
        self.settle_begin(bay, d, begun, room, gate, false);
    }

    // A drive with these records, which was taken out of the run, goes on.
    fn rejoin<B: Bay>(&mut self, bay: &mut B, d: u32, entries: Vec<Rec>, gate: Gate, kept: bool)
        requires turning { IsTurning self.old }
        requires stocked { IsStocked self.old }
        requires there { d < length self.old.drives.items }
        requires few { length self.old.drives.items ≤ 8 }
        requires gone { drive_at (drives_of self.old).each d ≡ Gone }
        requires attached { d < (B.world bay.old).attached.drives }
        requires room { files_of self.old.plan ≤ vec_capacity entries }
        ensures same { ordered_of self.new ≡ ordered_of self.old }
        ensures stocked { IsStocked self.new }
        ensures acted { BegunAloud (ordered_of self.old) d (Begun entries.items gate kept) (drives_of self.old) (stands_at self.new) (B.world bay.old) (B.world bay.new) }
    {
        let path = next_path(&self.plan, entries.len());
        let begun = rejoin_on(bay, d, path, kept).is_ok();
        self.settle_begin(bay, d, begun, entries, gate, kept);
    }

    // A drive that was begun stands with these records and this gate, or it is dropped; its line is said.
    fn settle_begin<B: Bay>(
        &mut self,
        bay: &mut B,
        d: u32,
        begun: bool,
        entries: Vec<Rec>,
        gate: Gate,
        kept: bool,
    )
        requires turning { IsTurning self.old }
        requires stocked { IsStocked self.old }
        requires there { d < length self.old.drives.items }
        requires few { length self.old.drives.items ≤ 8 }
        requires gone { drive_at (drives_of self.old).each d ≡ Gone }
        requires room { files_of self.old.plan ≤ vec_capacity entries }
        ensures same { ordered_of self.new ≡ ordered_of self.old }
        ensures stocked { IsStocked self.new }
        ensures stands { MovesOrDrops d begun (Begun entries.items gate kept) (drives_of self.old) (drives_of self.new) }
        ensures said { SaysOn (begin_line d (length entries.items) (files_of self.old.plan) begun) (after_begin (length (drives_of self.old).each) d) (stands_at self.new) (B.world bay.old) (B.world bay.new) }
    {
        let files = self.plan.files().len();
        let next = self.after_begin(d);
        let said = say_begun(bay, d, entries.len(), files, begun, &mut self.line);
        self.go_on(said, next);
        if begun {
            self.put_drive(
                d,
                DriveRun::Begun {
                    entries,
                    gate,
                    kept,
                },
            );
        } else {
            self.set_dropped(d);
        }
    }

    // What is done after drive d is begun.
    fn after_begin(&self, d: u32) -> Phase
        requires there { d < length self.now.drives.items }
        requires few { length self.now.drives.items ≤ 8 }
        ensures { result ≡ after_begin (length (drives_of self.now).each) d }
    {
        if (d as usize) + 1 < self.drives.len() {
            Phase::Begins { d: d + 1 }
        } else {
            Phase::File { index: 0 }
        }
    }
}

// The path of the file behind so many records, if there is one more.
fn next_path(plan: &Plan, records: usize) -> Option<&PathText>
    ensures { (recs : List Rec) → length recs ≡ records → option_copied result ≡ next_path plan.now recs }
{
    match plan.files().get(records) {
        Some(file) => Some(&file.path),
        None => None,
    }
}
