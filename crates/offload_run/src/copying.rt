// One turn of the copy of a file.
ghost use Rattle.std.specs.Prelude.{◌≡◌, ◌≢◌, ◌≤◌, ◌<◌, ◌+◌, ℕ, List, true, false, length, None};
ghost use Rattle.bay_core.specs.Map.{Map, content};
ghost use Rattle.bay_core.specs.Went.{Went};
ghost use Rattle.bay_core.specs.World.{Steady};
ghost use Rattle.block_pool.specs.Lent.{free_in};
ghost use Rattle.fan_core.specs.Flags.{has, lowest};
ghost use Rattle.fan_copier.specs.Copying.{card_of, size_of, live_of, slots_at_most, slots_of, standing, Copying};
ghost use Rattle.fan_copier.specs.Ring.{taken, Owns};
ghost use Rattle.fan_copier.specs.Turning.{Touches, AreCopyCalls, GoOn, TurnCause, IsChanged, Nearer, Turned, turns_left};
ghost use Rattle.fan_copier.specs.declared.turn.Turn.TheVariants.{Dropped, NoDrive};
ghost use Rattle.run_state.specs.Acts.{CopyActed, CopyDrops, CopySettles};
ghost use Rattle.run_state.specs.Rules.{FitsCopy, KeepsRunPool, left_at};
ghost use Rattle.run_state.specs.State.{drive_at, files_of, is_gone};
ghost use Rattle.offload_run.specs.Offload.{ordered_of, drives_of, stands_at, turns_left_of, IsStocked, IsTurning};

use crate::Offload;
use crate::offload::file_at;
use crate::saying::say;
use bay_core::Bay;
use block_pool::Pool;
use fan_copier::{FileCopy, Turn};
use path_text::PathText;
use report_text::Line;
use run_state::{DriveRun, Outcome, Phase};

// One turn of a copy, with a slot for comparing.
fn turn_with_slot<B: Bay>(
    bay: &mut B,
    pool: &mut Pool,
    copy: &mut FileCopy,
    path: &PathText,
) -> Turn
    requires source { card_of copy.old < (B.world bay.old).attached.sources }
    requires drives { (d : ℕ) → has (live_of copy.old) d ≡ true → d < (B.world bay.old).attached.drives }
    requires some { lowest (live_of copy.old) ≢ None }
    requires owns { Owns (slots_of copy.old) pool.old }
    requires free { slots_at_most copy.old + 1 ≤ free_in pool.old.lent + taken (slots_of copy.old) }
    ensures same { (card_of copy.new ≡ card_of copy.old) × (size_of copy.new ≡ size_of copy.old) × (slots_at_most copy.new ≡ slots_at_most copy.old) }
    ensures pool { (i : ℕ) → KeepsRunPool (Phase.Copies i copy.old) (Phase.Copies i copy.new) pool.old pool.new }
    ensures go_on { GoOn result (live_of copy.old) (live_of copy.new) }
    ensures nearer { Nearer result (turns_left (standing copy.old)) (turns_left (standing copy.new)) }
    ensures some { result ≢ NoDrive }
    ensures touches { Went (Touches (card_of copy.old) (live_of copy.old)) (AreCopyCalls (card_of copy.old) path.now) (B.world bay.old) (B.world bay.new) }
    ensures cause { TurnCause (card_of copy.old) result (B.world bay.old) (B.world bay.new) }
    ensures steady { (m : Map) → Steady (B.world bay.old) (card_of copy.old) m → length (content m path.now) ≡ size_of copy.old → IsChanged result → ⊥ }
    ensures turned { (bytes : List ℕ) → Copying copy.old pool.old (B.world bay.old) bytes → Turned path.now copy.old copy.new pool.new (B.world bay.old) (B.world bay.new) bytes result }
{
    let compare = match pool.take() {
        Some(slot) => slot,
        None => unreachable!(),
    };
    let came = copy.turn(bay, pool, &compare, path);
    pool.give(compare);
    came
}

impl Offload {
    // One turn of the copy of a file; where the copy has come to an end its slots are given back.
    pub(crate) fn turn_copy<B: Bay>(
        &mut self,
        bay: &mut B,
        pool: &mut Pool,
        index: u32,
        copy: FileCopy,
    )
        requires turning { IsTurning self.old }
        requires stocked { IsStocked self.old }
        requires few { length self.old.drives.items ≤ 8 }
        requires fits { FitsCopy (ordered_of self.old) (drives_of self.old).each index copy }
        requires source { self.old.source < (B.world bay.old).attached.sources }
        requires attached { (d : ℕ) → is_gone (drive_at (drives_of self.old).each d) ≡ false → d < (B.world bay.old).attached.drives }
        requires owns { Owns (slots_of copy) pool.old }
        requires free { self.old.slots + 1 ≤ free_in pool.old.lent + taken (slots_of copy) }
        ensures same { ordered_of self.new ≡ ordered_of self.old }
        ensures stocked { IsStocked self.new }
        ensures pool { KeepsRunPool (Phase.Copies index copy) self.new.phase pool.old pool.new }
        ensures nearer { turns_left_of self.new < left_at (length (drives_of self.old).each) self.old.plan (Phase.Copies index copy) }
        ensures acted { CopyActed (ordered_of self.old) index copy (drives_of self.old) (stands_at self.new) pool.old pool.new (B.world bay.old) (B.world bay.new) }
    {
        let mut copy = copy;
        let file = file_at(&self.plan, index);
        let came = turn_with_slot(bay, pool, &mut copy, &file.path);
        self.settle_copy(bay, pool, index, copy, came);
    }

    // What comes of a turn of a copy.
    fn settle_copy<B: Bay>(
        &mut self,
        bay: &mut B,
        pool: &mut Pool,
        index: u32,
        copy: FileCopy,
        came: Turn,
    )
        requires turning { IsTurning self.old }
        requires stocked { IsStocked self.old }
        requires few { length self.old.drives.items ≤ 8 }
        requires file { index < files_of self.old.plan }
        requires there { (d : ℕ) → came ≡ Dropped d → d < length self.old.drives.items }
        requires some { came ≢ NoDrive }
        requires owns { Owns (slots_of copy) pool.old }
        ensures same { ordered_of self.new ≡ ordered_of self.old }
        ensures stocked { IsStocked self.new }
        ensures pool { KeepsRunPool (Phase.Copies index copy) self.new.phase pool.old pool.new }
        ensures kept { self.new.phase ≡ Phase.Copies index copy → pool.new ≡ pool.old }
        ensures settles { CopySettles (files_of self.old.plan) index came copy (drives_of self.old) (stands_at self.new) (B.world bay.old) (B.world bay.new) }
    {
        match came {
            Turn::Going => self.phase = Phase::Copies { index, copy },
            Turn::Dropped { d } => self.drop_from_copy(bay, pool, index, copy, d),
            Turn::Copied { triple } => {
                copy.end(pool);
                self.phase = Phase::Dates { index, triple };
            }
            Turn::SourceFailed => {
                copy.end(pool);
                self.outcome = Outcome::SourceFailed;
            }
            Turn::Changed { listed, read } => {
                copy.end(pool);
                self.outcome = Outcome::Changed {
                    index,
                    listed,
                    read,
                };
            }
            Turn::NoDrive => unreachable!(),
        }
    }

    // A drive of the copy failed: its line is said, and the copy goes on where a drive is left.
    fn drop_from_copy<B: Bay>(
        &mut self,
        bay: &mut B,
        pool: &mut Pool,
        index: u32,
        copy: FileCopy,
        d: u32,
    )
        requires turning { IsTurning self.old }
        requires stocked { IsStocked self.old }
        requires there { d < length self.old.drives.items }
        requires few { length self.old.drives.items ≤ 8 }
        requires file { index < files_of self.old.plan }
        requires owns { Owns (slots_of copy) pool.old }
        ensures same { ordered_of self.new ≡ ordered_of self.old }
        ensures stocked { IsStocked self.new }
        ensures pool { KeepsRunPool (Phase.Copies index copy) self.new.phase pool.old pool.new }
        ensures kept { self.new.phase ≡ Phase.Copies index copy → pool.new ≡ pool.old }
        ensures dropped { CopyDrops (files_of self.old.plan) index d copy (drives_of self.old) (stands_at self.new) (B.world bay.old) (B.world bay.new) }
    {
        self.put_drive(d, DriveRun::Gone);
        self.set_dropped(d);
        let said = say(bay, &Line::DroppedFault(d), &mut self.line);
        if said && copy.live().lowest().is_some() {
            self.phase = Phase::Copies { index, copy };
            return;
        }
        copy.end(pool);
        let next = self.after_file(index);
        self.go_on(said, next);
    }
}
