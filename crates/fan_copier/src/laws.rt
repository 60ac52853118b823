// Laws of copies between their turns. Each is the contract of a function that does nothing.
ghost use Rattle.std.specs.Prelude.{◌≡◌, ◌≤◌, ℕ, List, Bool, true, Option};
ghost use Rattle.bay_core.specs.World.{World};
ghost use Rattle.bay_core.specs.Went.{Went};
ghost use Rattle.block_pool.specs.Lent.{PoolState, LendsOut, TakesBack};
ghost use Rattle.fan_core.specs.Flags.{has};
ghost use Rattle.fan_copier.specs.declared.copy.FileCopy.{FileCopy};
ghost use Rattle.fan_copier.specs.Copying.{live_of, slots_of, slots_at_most, Copying};
ghost use Rattle.fan_copier.specs.Keeping.{KeepsBlocks, KeepsTheRest, ReadsSame};
ghost use Rattle.fan_copier.specs.Ring.{taken};
ghost use Rattle.fan_copier.specs.Turning.{Touches, AreCopyCalls};

/// What a copy knows stays true where its drives read as before and its blocks have the same bytes.
pub fn copying_is_kept()
    ensures { (copy : FileCopy) (pool after : PoolState) (w new : World) (bytes : List ℕ) → KeepsBlocks (slots_of copy) pool after → ((d : ℕ) → has (live_of copy) d ≡ true → ReadsSame d w new) → Copying copy pool w bytes → Copying copy after new bytes }
{}

/// The blocks of a copy have the same bytes after a block is lent to another, or taken back.
pub fn blocks_are_kept()
    ensures lent { (ring : List (Option ℕ)) (n : ℕ) (old new : PoolState) → LendsOut n old new → KeepsBlocks ring old new }
    ensures back { (ring : List (Option ℕ)) (n : ℕ) (old new : PoolState) → TakesBack n old new → KeepsBlocks ring old new }
{}

/// A copy has no more slots than it was given leave for.
pub fn slots_are_few()
    ensures { (copy : FileCopy) → taken (slots_of copy) ≤ slots_at_most copy }
{}

/// The calls of a copy leave all but the parts of its drives as it was.
pub fn copy_keeps_the_rest()
    ensures { (s : ℕ) (live : List Bool) (path : List ℕ) (old new : World) → Went (Touches s live) (AreCopyCalls s path) old new → KeepsTheRest s live old new }
{}
