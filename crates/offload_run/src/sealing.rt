// A drive is sealed.
ghost use Rattle.std.specs.Prelude.{◌≡◌, ◌≤◌, ◌<◌, [], false, length, is_ok};
ghost use Rattle.bay_core.specs.Crashes.{Rests};
ghost use Rattle.bay_core.specs.Replay.{Drive};
ghost use Rattle.bay_core.specs.Went.{Went, Only};
ghost use Rattle.block_pool.specs.Lent.{free_in};
ghost use Rattle.copy_plan.specs.Plan.{list_of};
ghost use Rattle.drive_journal.specs.Steps.{NoScratch, IsThere};
ghost use Rattle.fan_copier.specs.Ring.{Spares};
ghost use Rattle.offload_law.specs.Sealing.{plan_list_text};
ghost use Rattle.run_state.specs.Acts.{SealTurn, SealedAloud, FoundAloud};
ghost use Rattle.run_state.specs.Rules.{FitsPlan, HasAtLeast};
ghost use Rattle.run_state.specs.State.{Gone, after_seal, drive_at, files_of, is_gone};
ghost use Rattle.seal_step.specs.Calls.{SealCalls, SealCause, FailsAlone};
ghost use Rattle.seal_step.specs.Parts.{list_parts, joined};
ghost use Rattle.seal_step.specs.Sealing.{Seals};
ghost use Rattle.offload_run.specs.Offload.{ordered_of, drives_of, stands_at, IsStocked, IsTurning};

use crate::Offload;
use crate::dating::ask_moment;
use crate::saying::say_sealed;
use bay_core::Bay;
use block_pool::Pool;
use copy_plan::Plan;
use drive_journal::Rec;
use path_text::{Moment, Scratch};
use run_state::{DriveRun, Phase};
use seal_step::{SealError, seal};

impl Offload {
    // The turn of drive d: a drive with a record of each file is sealed, and one that was found sealed is said to be.
    pub(crate) fn seal_drive<B: Bay>(&mut self, bay: &mut B, pool: &mut Pool, d: u32)
        requires turning { IsTurning self.old }
        requires stocked { IsStocked self.old }
        requires there { d < length self.old.drives.items }
        requires few { length self.old.drives.items ≤ 8 }
        requires attached { is_gone (drive_at (drives_of self.old).each d) ≡ false → d < (B.world bay.old).attached.drives }
        requires fits { FitsPlan self.old.plan (drive_at (drives_of self.old).each d) }
        requires all { HasAtLeast (files_of self.old.plan) (drive_at (drives_of self.old).each d) }
        requires free { 1 ≤ free_in pool.old.lent }
        ensures same { ordered_of self.new ≡ ordered_of self.old }
        ensures stocked { IsStocked self.new }
        ensures lent { pool.new.lent ≡ pool.old.lent }
        ensures spares { Spares [] (λ n. Unit {0}) pool.old pool.new }
        ensures acted { SealTurn (ordered_of self.old) d (drive_at (drives_of self.old).each d) (drives_of self.old) (stands_at self.new) (B.world bay.old) (B.world bay.new) }
    {
        match self.take_drive(d) {
            DriveRun::Begun { entries, .. } => self.seal_begun(bay, pool, d, entries),
            DriveRun::Found { .. } => self.say_found(bay, d),
            other => {
                let next = self.after_seal(d);
                self.pass_drive(d, other, next);
            }
        }
    }

    // The moment of the list is asked, and the drive, which was taken out of the run, is sealed by it; its line is said.
    fn seal_begun<B: Bay>(&mut self, bay: &mut B, pool: &mut Pool, d: u32, entries: Vec<Rec>)
        requires turning { IsTurning self.old }
        requires stocked { IsStocked self.old }
        requires there { d < length self.old.drives.items }
        requires few { length self.old.drives.items ≤ 8 }
        requires gone { drive_at (drives_of self.old).each d ≡ Gone }
        requires attached { d < (B.world bay.old).attached.drives }
        requires all { length entries.items ≡ files_of self.old.plan }
        requires free { 1 ≤ free_in pool.old.lent }
        ensures same { ordered_of self.new ≡ ordered_of self.old }
        ensures stocked { IsStocked self.new }
        ensures lent { pool.new.lent ≡ pool.old.lent }
        ensures spares { Spares [] (λ n. Unit {0}) pool.old pool.new }
        ensures acted { SealedAloud (ordered_of self.old) d entries.items (drives_of self.old) (stands_at self.new) (B.world bay.old) (B.world bay.new) }
    {
        let next = self.after_seal(d);
        let finish = ask_moment(bay);
        let came = seal_with_slot(bay, pool, d, &self.plan, &entries, finish, &mut self.line);
        let said = say_sealed(bay, d, &self.plan, &came, &mut self.line);
        self.go_on(said, next);
        match came {
            Ok(()) => self.set_sealed(d),
            Err(_) => self.set_dropped(d),
        }
    }

    // The line of a drive that was found sealed, and was taken out of the run, is said.
    fn say_found<B: Bay>(&mut self, bay: &mut B, d: u32)
        requires turning { IsTurning self.old }
        requires stocked { IsStocked self.old }
        requires there { d < length self.old.drives.items }
        requires few { length self.old.drives.items ≤ 8 }
        ensures same { ordered_of self.new ≡ ordered_of self.old }
        ensures stocked { IsStocked self.new }
        ensures acted { FoundAloud (ordered_of self.old) d (drives_of self.old) (stands_at self.new) (B.world bay.old) (B.world bay.new) }
    {
        let next = self.after_seal(d);
        let said = say_sealed(bay, d, &self.plan, &Ok(()), &mut self.line);
        self.go_on(said, next);
        self.set_sealed(d);
    }

    // What is done after drive d is sealed.
    fn after_seal(&self, d: u32) -> Phase
        requires there { d < length self.now.drives.items }
        requires few { length self.now.drives.items ≤ 8 }
        ensures { result ≡ after_seal (length (drives_of self.now).each) d }
    {
        if (d as usize) + 1 < self.drives.len() {
            Phase::Seals { d: d + 1 }
        } else {
            Phase::Clears
        }
    }
}

// Seals a drive, with a slot for reading its list again.
fn seal_with_slot<B: Bay>(
    bay: &mut B,
    pool: &mut Pool,
    d: u32,
    plan: &Plan,
    entries: &[Rec],
    finish: Moment,
    scratch: &mut Scratch,
) -> Result<(), SealError>
    requires drive { d < (B.world bay.old).attached.drives }
    requires entries { length entries.now ≡ length plan.now.files }
    requires free { 1 ≤ free_in pool.old.lent }
    ensures went { Went (Only (Drive d)) (SealCalls d (list_of plan.now) (list_parts plan.now entries.now finish) result) (B.world bay.old) (B.world bay.new) }
    ensures text { joined (list_parts plan.now entries.now finish) ≡ plan_list_text plan.now entries.now finish }
    ensures cause { SealCause d result (B.world bay.old) (B.world bay.new) }
    ensures lent { pool.new.lent ≡ pool.old.lent }
    ensures spares { Spares [] (λ n. Unit {0}) pool.old pool.new }
    ensures honest { FailsAlone d result (B.world bay.old) (B.world bay.new) }
    ensures rests { Rests d NoScratch (IsThere (list_of plan.now) (plan_list_text plan.now entries.now finish)) (is_ok result) (B.world bay.old) (B.world bay.new) }
    ensures seals { Seals d (list_of plan.now) (plan_list_text plan.now entries.now finish) (is_ok result) (B.world bay.old) (B.world bay.new) }
{
    let slot = match pool.take() {
        Some(slot) => slot,
        None => unreachable!(),
    };
    let came = seal(bay, d, plan, entries, finish, pool, &slot, scratch);
    pool.give(slot);
    came
}
