// The first file of an offload, from the attach of its drive to the line `done`.
ghost use Rattle.std.specs.Prelude.{◌≡◌, ◌≤◌, ◌<◌, ◌^◌, ◌++◌, ◌∷◌, [], true, is_ok, length};
ghost use Rattle.bay_core.specs.Went.{Went};
ghost use Rattle.block_pool.specs.Lent.{is_lent, free_in};
ghost use Rattle.copy_plan.specs.Fields.{plan_code};
ghost use Rattle.fan_copier.specs.Copying.{NoPart};
ghost use Rattle.first_file.specs.Causes.{AttachesOne, FileCause, FilesAlone, FirstAlone, FirstFileCause};
ghost use Rattle.first_file.specs.Copied.{SparesPool, GivesBack};
ghost use Rattle.first_file.specs.First.{OffloadsFirst};
ghost use Rattle.first_file.specs.Steps.{OfFile, AnyCalls, CopiesFirst, CountsOf};

use crate::FirstFileError;
use crate::aloud::{begin_aloud, record_aloud};
use crate::copying::copy_file;
use bay_core::Bay;
use block_pool::{Pool, Slot};
use copy_plan::Plan;
use drive_journal::{Gate, Rec};
use path_text::{Moment, Scratch};
use recording::keeping_is_safe;

/// Attaches the drive at a place, begins an offload by this plan on it, says so, copies the first file of the plan from card
/// `source` to it, records it once it was read back, and says so (docs/FORMATS.md, "The journal", "Lines"). `journal` is
/// the code of the plan and a closed gate. Takes no memory: 17 blocks of the pool are free, and are given back. What it
/// changes on a drive that had a journal is not said, so it is for fresh drives.
pub fn offload_first_file<B: Bay>(
    bay: &mut B,
    place: &str,
    source: u32,
    plan: &Plan,
    journal: &[u8],
    pool: &mut Pool,
    line: &mut Scratch,
) -> Result<(), FirstFileError>
    requires source { source < (B.world bay.old).attached.sources }
    requires drives { (B.world bay.old).attached.drives < 8 }
    requires journal { journal.now ≡ plan_code plan.now ++ 0 ∷ [] }
    requires free { 17 ≤ free_in pool.old.lent }
    // Each error has its cause.
    ensures cause { FirstFileCause source plan.now result (B.world bay.old) (B.world bay.new) }
    ensures attached { AttachesOne result (B.world bay.old) (B.world bay.new) }
    // On an honest drive, from a steady card that has the file with the planned length, it fails by a call alone.
    ensures alone { FirstAlone source plan.now result (B.world bay.old) (B.world bay.new) }
    ensures counts { CountsOf (OfFile source (B.world bay.old).attached.drives) (B.world bay.old) (B.world bay.new) }
    ensures pool { GivesBack pool.old pool.new }
    // Wherever it stops, the drive is left with a prefix of the offload's steps that holds what was announced.
    ensures offloads { OffloadsFirst place.now source plan.now (is_ok result) (B.world bay.old) (B.world bay.new) }
{
    keeping_is_safe();
    let d = match bay.attach_drive(place) {
        Ok(d) => d,
        Err(_) => return Err(FirstFileError::Attach),
    };
    begin_aloud(bay, d, journal, plan.files().len() as u32, line)?;
    let gate = Gate {
        at: (journal.len() - 1) as u64,
        index: 0,
    };
    let slot = match pool.take() {
        Some(slot) => slot,
        None => unreachable!(),
    };
    let came = copy_first(bay, source, d, plan, gate, pool, &slot, line);
    pool.give(slot);
    came
}

// Copies the first file of a plan to a drive on which its offload was begun, records it, and says so.
fn copy_first<B: Bay>(
    bay: &mut B,
    source: u32,
    d: u32,
    plan: &Plan,
    gate: Gate,
    pool: &mut Pool,
    slot: &Slot,
    line: &mut Scratch,
) -> Result<(), FirstFileError>
    requires source { source < (B.world bay.old).attached.sources }
    requires drive { d < (B.world bay.old).attached.drives }
    requires few { d < 8 }
    requires gate { (gate.at ≡ length (plan_code plan.now)) × (gate.index ≡ 0) }
    requires lent { is_lent pool.old slot.now ≡ true }
    requires free { 16 ≤ free_in pool.old.lent }
    requires no_part { NoPart d (B.world bay.old) }
    ensures went { Went (OfFile source d) AnyCalls (B.world bay.old) (B.world bay.new) }
    ensures cause { FileCause source d plan.now result (B.world bay.old) (B.world bay.new) }
    ensures alone { FilesAlone source d plan.now result (B.world bay.old) (B.world bay.new) }
    ensures pool { SparesPool slot.now pool.old pool.new }
    ensures copies { CopiesFirst source d plan.now (is_ok result) (B.world bay.old) (B.world bay.new) }
{
    let file = &plan.files()[0];
    let triple = copy_file(bay, source, d, file, pool, slot)?;
    let hashed = match Moment::new(bay.moment()) {
        Some(moment) => moment,
        None => unreachable!(),
    };
    let rec = Rec {
        index: 0,
        size: file.size,
        triple,
        hashed,
    };
    let count = plan.files().len() as u32;
    record_aloud(bay, d, gate, &file.path, &rec, count, pool, slot, line)
}
