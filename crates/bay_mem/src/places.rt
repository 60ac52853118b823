// The files of places, and which device was attached last from a place.
ghost use Rattle.std.specs.Prelude.{◌≡◌, option_map, option_copied};
ghost use Rattle.bay_core.specs.Attach.{last_from};
ghost use Rattle.bay_mem.specs.Kept.{device_of_kept};
ghost use Rattle.bay_mem.specs.State.{placed};

use crate::MemMap;
use bay_core::{Bytes, Event};

/// The files that were added for a place.
#[derive(Drop)]
pub struct Place {
    pub name: Bytes,
    pub files: MemMap,
}

/// A card or a drive by its number.
#[derive(Clone, Copy, Drop)]
pub enum Kept {
    Card(u32),
    Drive(u32),
}

// The device that was attached last from a place.
pub fn last_kept(events: &[Event], place: &[u8]) -> Option<Kept>
    ensures { option_map device_of_kept result ≡ last_from place.now events.now }
{
    let mut found = None;
    for event in events {
        match event {
            Event::AttachSource { s, place: from } => {
                if from.as_slice() == place {
                    found = Some(Kept::Card(*s));
                }
            }
            Event::AttachDrive { d, place: from } => {
                if from.as_slice() == place {
                    found = Some(Kept::Drive(*d));
                }
            }
            _ => {}
        }
    }
    found
}

// The files that were added last for a place.
pub fn place_at<'a>(places: &'a [Place], place: &[u8]) -> Option<&'a MemMap>
    ensures { option_copied result ≡ placed places.now place.now }
{
    let mut found = None;
    for added in places {
        if added.name.as_slice() == place {
            found = Some(&added.files);
        }
    }
    found
}
