// The drives of a file are chosen.
ghost use Rattle.std.specs.Prelude.{◌≡◌, ◌≤◌, ◌<◌, ℕ, true, length, Some, is_some, slice_set, if◌then◌else◌};
ghost use Rattle.std.specs.List.{slice_get};
ghost use Rattle.bay_core.specs.World.{World};
ghost use Rattle.block_pool.specs.Lent.{PoolState};
ghost use Rattle.copy_plan.specs.Inventory.{IsPlannable};
ghost use Rattle.fan_core.specs.Flags.{has, HasSome};
ghost use Rattle.fan_copier.specs.Copying.{live_of, slots_of};
ghost use Rattle.fan_copier.specs.Ring.{taken, Owns};
ghost use Rattle.run_state.specs.Acts.{FileTurn};
ghost use Rattle.run_state.specs.Copies.{Opens};
ghost use Rattle.run_state.specs.Rules.{held, slots_in, left_at};
ghost use Rattle.run_state.specs.State.{after_file, at_of, drive_at, due, files_of, keeps_part};
ghost use Rattle.offload_run.specs.Offload.{ordered_of, drives_of, stands_at, turns_left_of, IsStocked, IsTurning};

use crate::Offload;
use crate::offload::file_at;
use copy_plan::PlannedFile;
use fan_copier::FileCopy;
use fan_core::Drives;
use run_state::{DriveRun, Phase};

impl Offload {
    // A copy of the file begins, to just the drives on which it is due; or the file is passed over.
    pub(crate) fn choose_drives(&mut self, index: u32)
        requires turning { IsTurning self.old }
        requires stocked { IsStocked self.old }
        requires few { length self.old.drives.items ≤ 8 }
        requires there { index < files_of self.old.plan }
        requires slots { (1 ≤ self.old.slots) × (self.old.slots ≤ 16) }
        ensures same { ordered_of self.new ≡ ordered_of self.old }
        ensures stocked { IsStocked self.new }
        ensures owns { (pool : PoolState) → Owns (slots_in self.new.phase) pool }
        ensures none { held self.new.phase ≡ 0 }
        ensures nearer { turns_left_of self.new < left_at (length (drives_of self.old).each) self.old.plan (Phase.File index) }
        ensures acted { (w : World) → FileTurn (ordered_of self.old) index (drives_of self.old) (stands_at self.new) w w }
    {
        let (drives, kept) = self.due(index);
        if drives.lowest().is_none() {
            self.phase = self.after_file(index);
            return;
        }
        let file = file_at(&self.plan, index);
        let copy = self.begin_copy(index, file, drives, kept);
        self.phase = Phase::Copies { index, copy };
    }

    // The copy of a file to the drives on which it is due, of which some keep their part.
    fn begin_copy(&self, index: u32, file: &PlannedFile, drives: Drives, kept: Drives) -> FileCopy
        requires few { length self.now.drives.items ≤ 8 }
        requires is { slice_get self.now.plan.files index ≡ Some file.now }
        requires plannable { IsPlannable file.now }
        requires slots { (1 ≤ self.now.slots) × (self.now.slots ≤ 16) }
        requires some { HasSome drives }
        requires drives { (d : ℕ) → has drives d ≡ is_some (due index (drive_at (drives_of self.now).each d)) }
        requires kept { (d : ℕ) → has kept d ≡ keeps_part (due index (drive_at (drives_of self.now).each d)) }
        ensures opens { Opens (ordered_of self.now) (drives_of self.now).each index file.now.size result }
        ensures live { live_of result ≡ drives }
        ensures owns { (pool : PoolState) → Owns (slots_of result) pool }
        ensures none { taken (slots_of result) ≡ 0 }
        ensures nearer { left_at (length (drives_of self.now).each) self.now.plan (Phase.Copies index result) < left_at (length (drives_of self.now).each) self.now.plan (Phase.File index) }
    {
        FileCopy::begin(self.source, file.size, drives, kept, self.slots)
    }

    // The drives on which the file is due, and those of them that keep their part.
    fn due(&self, index: u32) -> (Drives, Drives)
        requires { length self.now.drives.items ≤ 8 }
        ensures drives { (d : ℕ) → has result.0 d ≡ is_some (due index (drive_at (drives_of self.now).each d)) }
        ensures kept { (d : ℕ) → has result.1 d ≡ keeps_part (due index (drive_at (drives_of self.now).each d)) }
    {
        let mut drives = Drives::none();
        let mut keeping = Drives::none();
        for d in 0..self.drives.len() {
            drives = with_if(drives, d as u32, is_due(&self.drives[d], index));
            keeping = with_if(keeping, d as u32, keeps_part(&self.drives[d], index));
        }
        (drives, keeping)
    }

    // What is done after a file.
    pub(crate) fn after_file(&self, index: u32) -> Phase
        requires { index < files_of self.now.plan }
        ensures { result ≡ after_file (files_of self.now.plan) index }
    {
        if (index as usize) + 1 < self.plan.files().len() {
            Phase::File { index: index + 1 }
        } else {
            Phase::Seals { d: 0 }
        }
    }
}

// Whether the file is due on a drive.
fn is_due(drive: &DriveRun, index: u32) -> bool
    ensures { result ≡ is_some (due index (at_of drive.now)) }
{
    match drive {
        DriveRun::Begun { entries, .. } => entries.len() == index as usize,
        _ => false,
    }
}

// Whether the file is due on a drive that keeps its part.
fn keeps_part(drive: &DriveRun, index: u32) -> bool
    ensures { result ≡ keeps_part (due index (at_of drive.now)) }
{
    match drive {
        DriveRun::Begun { entries, kept, .. } => entries.len() == index as usize && *kept,
        _ => false,
    }
}

// The set with a number more, if that is one of it.
fn with_if(set: Drives, d: u32, is_one: bool) -> Drives
    requires { d < 8 }
    ensures { result ≡ (if is_one then slice_set set d true else set) }
{
    if is_one { set.with(d) } else { set }
}
