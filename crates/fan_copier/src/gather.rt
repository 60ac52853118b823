// Filling a buffer from a place of a file on, by as many reads as it takes.
ghost use Rattle.std.specs.Prelude.{◌≡◌, ℕ, ◌+◌, ◌-◌, ◌^◌, ◌<◌, ◌≤◌, length, take, is_ok, IfOk};
ghost use Rattle.bay_core.specs.Map.{Map};
ghost use Rattle.bay_core.specs.Replay.{Source, Drive};
ghost use Rattle.bay_core.specs.World.{World, Steady};
ghost use Rattle.bay_core.specs.Went.{Called};
ghost use Rattle.fan_copier.specs.Reads.{OnCard, OnDrive, GatherCalls, Gathers, AreOn};

use bay_core::{Bay, Failed};

/// Reads a file of the card until the buffer is full or a read gives none, and says how many bytes came.
pub fn gather_card<B: Bay>(
    bay: &mut B,
    s: u32,
    path: &str,
    at: u64,
    into: &mut [u8],
) -> Result<usize, Failed>
    requires source { s < (B.world bay.old).attached.sources }
    requires range { at + length into.old < 2 ^ 63 }
    ensures bound { IfOk result (λ n. n ≤ length into.new) }
    ensures size { length into.new ≡ length into.old }
    ensures called { Called (Source s) (GatherCalls (OnCard s path.now) at into.new result) (is_ok result) (B.world bay.old) (B.world bay.new) }
    ensures steady { (m : Map) → Steady (B.world bay.old) s m → IfOk result (Gathers m path.now at into.new) }
{
    let mut n = 0;
    while n < into.len() {
        let got = bay.source_read(s, path, at + n as u64, &mut into[n..])?;
        if got == 0 {
            return Ok(n);
        }
        n += got;
    }
    Ok(n)
}

/// Reads a file of a drive until the buffer is full or a read gives none, and says how many bytes came. An absent file
/// gives none.
pub fn gather_drive<B: Bay>(
    bay: &mut B,
    d: u32,
    path: &str,
    at: u64,
    into: &mut [u8],
) -> Result<usize, Failed>
    requires drive { d < (B.world bay.old).attached.drives }
    requires range { at + length into.old < 2 ^ 63 }
    ensures bound { IfOk result (λ n. n ≤ length into.new) }
    ensures size { length into.new ≡ length into.old }
    ensures called { Called (Drive d) (GatherCalls (OnDrive d path.now) at into.new result) (is_ok result) (B.world bay.old) (B.world bay.new) }
    ensures honest { IfOk result (λ n. AreOn d path.now at (take n into.new) (B.world bay.new)) }
{
    let mut n = 0;
    while n < into.len() {
        let got = bay
            .drive_read(d, path, at + n as u64, &mut into[n..])?
            .unwrap_or(0);
        if got == 0 {
            return Ok(n);
        }
        n += got;
    }
    Ok(n)
}
