// A copy that is turned to its end.
ghost use Rattle.std.specs.Prelude.{◌≡◌, ℕ, [], ◌+◌, ◌<◌, ◌≤◌, true, length};
ghost use Rattle.bay_core.specs.Crashes.{Leaves, IsAny, OnlyAt};
ghost use Rattle.bay_core.specs.Map.{Map, content};
ghost use Rattle.bay_core.specs.Paths.{part_path};
ghost use Rattle.bay_core.specs.World.{World, Steady};
ghost use Rattle.block_pool.specs.Lent.{is_lent, free_in};
ghost use Rattle.fan_core.specs.Flags.{has};
ghost use Rattle.fan_copier.specs.Copying.{card_of, size_of, live_of, slots_at_most, slots_of, Copying};
ghost use Rattle.fan_copier.specs.Follows.{CopyEnded};
ghost use Rattle.fan_copier.specs.Ring.{taken, IsOut, Owns, KeepsPool};
ghost use Rattle.fan_copier.specs.Turning.{IsChanged};

use bay_core::Bay;
use block_pool::{Pool, Slot};
use fan_copier::{FileCopy, Turn};
use path_text::PathText;

/// Turns a copy to its end, and says what it came to: `Copied`, `SourceFailed`, `Changed` or `NoDrive`. The copy keeps
/// its slots until [`FileCopy::end`].
pub fn copy_whole<B: Bay>(
    copy: &mut FileCopy,
    bay: &mut B,
    pool: &mut Pool,
    compare: &Slot,
    path: &PathText,
) -> Turn
    requires source { card_of copy.old < (B.world bay.old).attached.sources }
    requires drives { (d : ℕ) → has (live_of copy.old) d ≡ true → d < (B.world bay.old).attached.drives }
    requires owns { Owns (slots_of copy.old) pool.old }
    requires free { slots_at_most copy.old ≤ free_in pool.old.lent + taken (slots_of copy.old) }
    requires compare { (is_lent pool.old compare.now ≡ true) × IsOut (slots_of copy.old) compare.now }
    requires fresh { Copying copy.old pool.old (B.world bay.old) [] }
    ensures ended { CopyEnded path.now copy.old copy.new (B.world bay.old) (B.world bay.new) result }
    ensures pool { KeepsPool compare.now (slots_of copy.old) (slots_of copy.new) pool.old pool.new }
    ensures steady { (m : Map) → Steady (B.world bay.old) (card_of copy.old) m → length (content m path.now) ≡ size_of copy.old → IsChanged result → ⊥ }
    ensures leaves { (d : ℕ) → Leaves d IsAny (OnlyAt (λ q. q ≡ part_path)) (B.world bay.old) (B.world bay.new) }
{
    loop {
        match copy.turn(bay, pool, compare, path) {
            Turn::Going => {}
            Turn::Dropped { .. } => {}
            ended => return ended,
        }
    }
}
