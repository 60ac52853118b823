// A copy by the words of a command line.
ghost use Rattle.std.specs.Prelude.{◌≡◌, ℕ, ◌<◌, ◌≤◌, true, length, None, IfOk};
ghost use Rattle.bay_core.specs.World.{World};
ghost use Rattle.fan_core.specs.Flags.{has, HasSome};

use crate::copying::copy_whole;
use bay_core::Bay;
use block_pool::Pool;
use fan_copier::{FileCopy, Turn};
use fan_core::Drives;
use path_text::PathText;
use std::alloc::Global;

/// The blocks that a copy may hold.
const SLOTS: u32 = 16;

/// Why no copy was begun.
#[derive(Clone, Copy, Debug, PartialEq, Eq)]
pub enum NotBegun {
    /// The words are not CARD PATH SIZE DRIVE.., with a valid path, a size below 2^48 and one to eight drives.
    Words,
    /// A card or a drive was not attached.
    Attach,
    /// Memory was wanting.
    Memory,
}

// Attaches a drive for each place, and gives their numbers.
fn attach_drives<B: Bay>(bay: &mut B, places: &[String]) -> Result<Drives, NotBegun>
    requires untold { (B.world bay.old).events ≡ None }
    requires none { (B.world bay.old).attached.drives ≡ 0 }
    requires places { (1 ≤ length places.now) × (length places.now ≤ 8) }
    ensures untold { (B.world bay.new).events ≡ None }
    ensures sources { (B.world bay.new).attached.sources ≡ (B.world bay.old).attached.sources }
    ensures drives { IfOk result (λ drives. HasSome drives × ((d : ℕ) → has drives d ≡ true → d < (B.world bay.new).attached.drives)) }
{
    let mut drives = Drives::none();
    for place in places {
        match bay.attach_drive(place) {
            Ok(d) => drives = drives.with(d),
            Err(_) => return Err(NotBegun::Attach),
        }
    }
    Ok(drives)
}

/// Copies a file of the card at a place to the drives at these places, and says what the copy came to.
pub fn copy_to_places<B: Bay>(
    alloc: Global,
    bay: &mut B,
    card: &str,
    path: &PathText,
    size: u64,
    places: &[String],
) -> Result<Turn, NotBegun>
    requires untold { (B.world bay.old).events ≡ None }
    requires none { ((B.world bay.old).attached.sources ≡ 0) × ((B.world bay.old).attached.drives ≡ 0) }
{
    if size >= 1 << 48 || places.is_empty() || places.len() > 8 {
        return Err(NotBegun::Words);
    }
    let mut pool = match Pool::new(alloc, SLOTS + 1) {
        Ok(pool) => pool,
        Err(_) => return Err(NotBegun::Memory),
    };
    let compare = match pool.take() {
        Some(slot) => slot,
        None => return Err(NotBegun::Memory),
    };
    let source = match bay.attach_source(card) {
        Ok(source) => source,
        Err(_) => return Err(NotBegun::Attach),
    };
    let drives = attach_drives(bay, places)?;
    let mut copy = FileCopy::begin(source, size, drives, Drives::none(), SLOTS);
    let ended = copy_whole(&mut copy, bay, &mut pool, &compare, path);
    copy.end(&mut pool);
    pool.give(compare);
    Ok(ended)
}
