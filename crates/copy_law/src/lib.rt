//! A copy, seen from the offload of each drive: its drives stay under way, and the others stay as they are.
#![tactic(auto)]

ghost use Rattle.std.specs.Prelude.{ℕ, List, Bool};
ghost use Rattle.bay_core.specs.World.{World};
ghost use Rattle.bay_core.specs.Went.{Went};
ghost use Rattle.fan_copier.specs.Turning.{Touches, AreCopyCalls};
ghost use Rattle.copy_law.specs.Keeping.{CopyKeeps};

/// The calls of a copy leave the offload of each of its drives under way, and that of each other drive as it was.
pub fn copy_keeps_drives()
    ensures { (s : ℕ) (live : List Bool) (path : List ℕ) (old new : World) → Went (Touches s live) (AreCopyCalls s path) old new → CopyKeeps live old new }
{}
