// A file is copied to one drive.
ghost use Rattle.std.specs.Prelude.{◌≡◌, ◌^◌, ◌<◌, ◌≤◌, ◌+◌, ℕ, [], true, length, IfOk};
ghost use Rattle.bay_core.specs.Map.{Map, content};
ghost use Rattle.bay_core.specs.Went.{Went};
ghost use Rattle.bay_core.specs.World.{Steady};
ghost use Rattle.block_pool.specs.Lent.{is_lent, free_in};
ghost use Rattle.fan_core.specs.Flags.{has};
ghost use Rattle.fan_copier.specs.Copying.{card_of, size_of, live_of, slots_at_most, slots_of, Copying, NoPart};
ghost use Rattle.fan_copier.specs.Ring.{taken, IsOut, Owns, KeepsPool};
ghost use Rattle.fan_copier.specs.Turning.{Touches, AreCopyCalls};
ghost use Rattle.first_file.specs.Copied.{IsCopied, SparesPool, just};
ghost use Rattle.first_file.specs.Causes.{CopyCause, EndsByCall};

use crate::FirstFileError;
use bay_core::Bay;
use block_pool::{Pool, Slot};
use copy_plan::PlannedFile;
use digest_set::Triple;
use fan_copier::{FileCopy, Turn};
use fan_core::Drives;
use path_text::PathText;

/// The blocks that a copy may hold.
const SLOTS: u32 = 16;

/// Copies a file of card `source` to the part of a drive that has none, turn by turn. The answer is the digests of the file.
/// Ends at the first call that fails, or where the card's file has another length. At most 16 blocks of the pool are held, and
/// are given back; `slot` is another one. Takes no memory.
pub fn copy_file<B: Bay>(
    bay: &mut B,
    source: u32,
    d: u32,
    file: &PlannedFile,
    pool: &mut Pool,
    slot: &Slot,
) -> Result<Triple, FirstFileError>
    requires source { source < (B.world bay.old).attached.sources }
    requires drive { d < (B.world bay.old).attached.drives }
    requires few { d < 8 }
    requires size { file.now.size < 2 ^ 48 }
    requires lent { is_lent pool.old slot.now ≡ true }
    requires free { 16 ≤ free_in pool.old.lent }
    requires no_part { NoPart d (B.world bay.old) }
    ensures touches { Went (Touches source (just d)) (AreCopyCalls source file.now.path) (B.world bay.old) (B.world bay.new) }
    ensures copied { IfOk result (λ triple. IsCopied source d file.now.path file.now.size triple (B.world bay.old) (B.world bay.new)) }
    ensures pool { SparesPool slot.now pool.old pool.new }
    // A steady card's file with the planned length is copied, or a call fails.
    ensures steady { (m : Map) → Steady (B.world bay.old) source m → length (content m file.now.path) ≡ file.now.size → EndsByCall result }
    ensures cause { CopyCause source (just d) file.now.size result (B.world bay.old) (B.world bay.new) }
{
    let drives = Drives::none().with(d);
    let mut copy = FileCopy::begin(source, file.size, drives, Drives::none(), SLOTS);
    let came = copy_to_end(bay, &mut copy, &file.path, pool, slot);
    copy.end(pool);
    came
}

// Turns a copy to one drive to its end. The answer is the digests of the file.
fn copy_to_end<B: Bay>(
    bay: &mut B,
    copy: &mut FileCopy,
    path: &PathText,
    pool: &mut Pool,
    slot: &Slot,
) -> Result<Triple, FirstFileError>
    requires source { card_of copy.old < (B.world bay.old).attached.sources }
    requires drives { (d : ℕ) → has (live_of copy.old) d ≡ true → d < (B.world bay.old).attached.drives }
    requires owns { Owns (slots_of copy.old) pool.old }
    requires free { slots_at_most copy.old ≤ free_in pool.old.lent + taken (slots_of copy.old) }
    requires lent { (is_lent pool.old slot.now ≡ true) × IsOut (slots_of copy.old) slot.now }
    requires some { (d : ℕ) × (has (live_of copy.old) d ≡ true) }
    requires fresh { Copying copy.old pool.old (B.world bay.old) [] }
    ensures touches { Went (Touches (card_of copy.old) (live_of copy.old)) (AreCopyCalls (card_of copy.old) path.now) (B.world bay.old) (B.world bay.new) }
    ensures copied { IfOk result (λ triple. (d : ℕ) → has (live_of copy.old) d ≡ true → IsCopied (card_of copy.old) d path.now (size_of copy.old) triple (B.world bay.old) (B.world bay.new)) }
    ensures pool { KeepsPool slot.now (slots_of copy.old) (slots_of copy.new) pool.old pool.new }
    ensures steady { (m : Map) → Steady (B.world bay.old) (card_of copy.old) m → length (content m path.now) ≡ size_of copy.old → EndsByCall result }
    ensures cause { CopyCause (card_of copy.old) (live_of copy.old) (size_of copy.old) result (B.world bay.old) (B.world bay.new) }
{
    loop {
        match copy.turn(bay, pool, slot, path) {
            Turn::Going => {}
            Turn::Copied { triple } => return Ok(triple),
            Turn::Dropped { .. } => return Err(FirstFileError::Drive),
            Turn::SourceFailed => return Err(FirstFileError::Card),
            Turn::Changed { listed, read } => return Err(FirstFileError::Changed { listed, read }),
            Turn::NoDrive => unreachable!(),
        }
    }
}
