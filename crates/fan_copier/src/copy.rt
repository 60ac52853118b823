// The state of a copy between two turns.
ghost use Rattle.fan_copier.specs.Standing.{IsCopy};

use crate::blocks::Run;
use crate::ring::Ring;
use fan_core::{Drives, Window};

/// One file on its way from the card to several drives.
#[derive(Drop)]
pub struct FileCopy {
    pub(crate) source: u32,
    pub(crate) size: u64,
    pub(crate) window: Window,
    // The drives whose empty piece is still to be written.
    pub(crate) pieces: Drives,
    // The drives that keep their part, as far as it has the card's bytes.
    pub(crate) kept: Drives,
    pub(crate) ring: Ring,
    pub(crate) run: Run,
    pub ghost keeps: { IsCopy size (record { counts = window.counts; pieces = pieces; kept = kept }) ring.slots },
}
