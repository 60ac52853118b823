// Where the drives of a run stand.
ghost use Rattle.std.specs.Prelude.{◌≡◌, ◌≤◌, ◌<◌, ◌++◌, ◌∷◌, [], false, true, length, vec_capacity};
ghost use Rattle.run_state.specs.Acts.{Moves, Drops, SealsDrive, Goes};
ghost use Rattle.run_state.specs.State.{Gone, Begun, at_of, drive_at, files_of};
ghost use Rattle.offload_run.specs.Offload.{ordered_of, drives_of, stands_at, run_at, HasRoom, IsStocked, IsTurning};

use crate::Offload;
use drive_journal::{Gate, Rec};
use run_state::{DriveRun, Outcome, Phase};

impl Offload {
    // Takes drive d out of the run, which has it as a drive that is gone meanwhile.
    pub(crate) fn take_drive(&mut self, d: u32) -> DriveRun
        requires there { d < length self.old.drives.items }
        requires stocked { IsStocked self.old }
        ensures was { at_of result ≡ drive_at (drives_of self.old).each d }
        ensures room { HasRoom (files_of self.old.plan) result }
        ensures moves { Moves d Gone (drives_of self.old) (drives_of self.new) }
        ensures same { ordered_of self.new ≡ ordered_of self.old }
        ensures next { (self.new.phase ≡ self.old.phase) × (self.new.outcome ≡ self.old.outcome) }
        ensures stocked { IsStocked self.new }
    {
        std::mem::replace(&mut self.drives[d as usize], DriveRun::Gone)
    }

    // Drive d stands so from now on.
    pub(crate) fn put_drive(&mut self, d: u32, drive: DriveRun)
        requires there { d < length self.old.drives.items }
        requires room { HasRoom (files_of self.old.plan) drive }
        requires stocked { IsStocked self.old }
        ensures moves { Moves d (at_of drive) (drives_of self.old) (drives_of self.new) }
        ensures same { ordered_of self.new ≡ ordered_of self.old }
        ensures next { (self.new.phase ≡ self.old.phase) × (self.new.outcome ≡ self.old.outcome) }
        ensures stocked { IsStocked self.new }
    {
        self.drives[d as usize] = drive;
    }

    // Drive d, which is gone, was dropped.
    pub(crate) fn set_dropped(&mut self, d: u32)
        requires few { d < 8 }
        requires gone { drive_at (drives_of self.old).each d ≡ Gone }
        ensures drops { Drops d (drives_of self.old) (drives_of self.new) }
        ensures same { ordered_of self.new ≡ ordered_of self.old }
        ensures next { (self.new.phase ≡ self.old.phase) × (self.new.outcome ≡ self.old.outcome) }
        ensures stocked { IsStocked self.old → IsStocked self.new }
    {
        self.dropped = self.dropped.with(d);
    }

    // Drive d is sealed, and its line was said.
    pub(crate) fn set_sealed(&mut self, d: u32)
        requires there { d < length self.old.drives.items }
        requires few { d < 8 }
        requires stocked { IsStocked self.old }
        ensures seals { SealsDrive d (drives_of self.old) (drives_of self.new) }
        ensures same { ordered_of self.new ≡ ordered_of self.old }
        ensures next { (self.new.phase ≡ self.old.phase) × (self.new.outcome ≡ self.old.outcome) }
        ensures stocked { IsStocked self.new }
    {
        self.put_drive(d, DriveRun::Sealed);
        self.sealed = self.sealed.with(d);
    }

    // Drive d has this record more, behind its others, and this gate.
    pub(crate) fn add_record(&mut self, d: u32, entries: Vec<Rec>, rec: Rec, gate: Gate)
        requires there { d < length self.old.drives.items }
        requires room { length entries.items < files_of self.old.plan }
        requires taken { files_of self.old.plan ≤ vec_capacity entries }
        requires stocked { IsStocked self.old }
        ensures moves { Moves d (Begun (entries.items ++ rec ∷ []) gate false) (drives_of self.old) (drives_of self.new) }
        ensures same { ordered_of self.new ≡ ordered_of self.old }
        ensures next { (self.new.phase ≡ self.old.phase) × (self.new.outcome ≡ self.old.outcome) }
        ensures stocked { IsStocked self.new }
    {
        let mut entries = entries;
        entries.push_reserved(rec);
        self.put_drive(
            d,
            DriveRun::Begun {
                entries,
                gate,
                kept: false,
            },
        );
    }

    // The run goes on with this where its line was said, and else has ended.
    pub(crate) fn go_on(&mut self, said: bool, next: Phase)
        requires { IsTurning self.old }
        ensures goes { Goes said next (stands_at self.new) }
        ensures same { ordered_of self.new ≡ ordered_of self.old }
        ensures drives { drives_of self.new ≡ drives_of self.old }
        ensures items { self.new.drives.items ≡ self.old.drives.items }
        ensures stocked { IsStocked self.old → IsStocked self.new }
    {
        if said {
            self.phase = next;
        } else {
            self.outcome = Outcome::OutFailed;
        }
    }

    // Drive d stays as it stood, and the run goes on with this.
    pub(crate) fn pass_drive(&mut self, d: u32, drive: DriveRun, next: Phase)
        requires turning { IsTurning self.old }
        requires there { d < length self.old.drives.items }
        requires room { HasRoom (files_of self.old.plan) drive }
        requires stocked { IsStocked self.old }
        ensures moves { Moves d (at_of drive) (drives_of self.old) (drives_of self.new) }
        ensures goes { Goes true next (stands_at self.new) }
        ensures same { ordered_of self.new ≡ ordered_of self.old }
        ensures stocked { IsStocked self.new }
    {
        self.put_drive(d, drive);
        self.phase = next;
    }
}
