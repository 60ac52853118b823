// What was called in memory, and on what.
ghost use Rattle.std.specs.Prelude.{◌≡◌, ◌-◌, ◌^◌, ◌<◌, ◌≤◌, length, IfOk, OnOk, OnErr, Some, None, IfSome, option_copied, true, false, slice_get};
ghost use Rattle.bay_core.specs.Replay.{Source, Drive, Attaching, Output, device_of};
ghost use Rattle.bay_mem.specs.Files.{Files};
ghost use Rattle.std.specs.FinMap.{get};
ghost use Rattle.bay_core.specs.Attach.{last_from};
ghost use Rattle.bay_core.specs.declared.event.Event.TheVariants.{Write, Rename, Remove};
ghost use Rattle.bay_mem.specs.State.{State, untouched, noted, hushed, raised, one_more, with_place, with_flip, with_listed, is_flipped as flipped, Holds, Keeps, IsKnown, is_change, AddsCard, AddsDrive, Rewrites, found_at, placed, Counted};

use crate::MemMap;
use crate::changes::{try_remove, try_rename, try_write};
use crate::lies::{Flip, ListedAs};
use crate::places::{Kept, Place, last_kept, place_at};
use bay_core::{Bytes, Event};
use std::alloc::{AllocError, Global};
use std::marker::Model;

#[derive(Drop)]
pub struct MemWorld {
    told: bool,
    events: Vec<Event>,
    cards: Vec<MemMap>,
    drives: Vec<MemMap>,
    places: Vec<Place>,
    flips: Vec<Flip>,
    listed: Vec<ListedAs>,
    contents: Vec<MemMap>,
    card_counts: Vec<u64>,
    drive_counts: Vec<u64>,
    attaching: u64,
    output: u64,
}

impl Model for MemWorld {
    ghost use Rattle.bay_mem.specs.State.{State, Keeps};
    ghost use Rattle.bay_mem.specs.Inside.{state_of};
    ghost use Rattle.bay_mem.specs.contracts.mem_map.MemMap as files;
    ghost use Rattle.std.specs.Coded.{codes};

    ghost Value = { State };

    ghost coded = { Prim.hlevel (codes, files.the_row.coded) };

    ghost view = { λ w. state_of w.told w.events.items w.cards.items w.drives.items w.places.items w.flips.items w.listed.items w.contents.items w.card_counts.items w.drive_counts.items w.attaching w.output };

    ghost invariant = { λ w. Keeps (state_of w.told w.events.items w.cards.items w.drives.items w.places.items w.flips.items w.listed.items w.contents.items w.card_counts.items w.drive_counts.items w.attaching w.output) };
}

impl MemWorld {
    pub fn new(alloc: Global) -> MemWorld
        ensures { result ≡ untouched }
    {
        MemWorld {
            told: true,
            events: Vec::new(alloc),
            cards: Vec::new(alloc),
            drives: Vec::new(alloc),
            places: Vec::new(alloc),
            flips: Vec::new(alloc),
            listed: Vec::new(alloc),
            contents: Vec::new(alloc),
            card_counts: Vec::new(alloc),
            drive_counts: Vec::new(alloc),
            attaching: 0,
            output: 0,
        }
    }

    pub fn events(&self) -> &[Event]
        ensures { result.now ≡ self.now.events }
    {
        &self.events
    }

    pub fn flips(&self) -> &[Flip]
        ensures { result.now ≡ self.now.fixed.flips }
    {
        &self.flips
    }

    pub fn listed(&self) -> &[ListedAs]
        ensures { result.now ≡ self.now.fixed.listed }
    {
        &self.listed
    }

    // The files of a card.
    pub fn card(&self, s: u32) -> &MemMap
        requires { s < length self.now.fixed.cards }
        ensures { slice_get self.now.fixed.cards s ≡ Some result.now }
    {
        &self.cards[s as usize]
    }

    // The files of a drive as it was attached.
    pub fn start(&self, d: u32) -> &MemMap
        requires { d < length self.now.fixed.drives }
        ensures { slice_get self.now.fixed.drives d ≡ Some result.now }
    {
        &self.drives[d as usize]
    }

    // What a drive holds now.
    pub fn files(&self, d: u32) -> &MemMap
        requires { d < length self.now.fixed.drives }
        ensures holds { (start : Files) → slice_get self.now.fixed.drives d ≡ Some start → Holds start self.now.events d result.now }
        ensures is { slice_get self.now.contents d ≡ Some result.now }
    {
        &self.contents[d as usize]
    }

    // Notes a call that changes nothing on a drive.
    pub fn note(&mut self, event: Event) -> Result<(), AllocError>
        requires known { IsKnown self.old.fixed (device_of event) }
        requires idle { is_change event ≡ false }
        ensures ok { OnOk result (self.new ≡ noted self.old event) }
        ensures err { OnErr result (self.new ≡ self.old) }
    {
        self.events.push(event)?;
        Ok(())
    }

    // Tells no calls from now on.
    pub fn hush(&mut self)
        ensures { self.new ≡ hushed self.old }
    {
        self.told = false;
    }

    // Attaches the card at a place. None where no such place was added.
    pub fn attach_card(&mut self, alloc: Global, place: &str) -> Result<Option<u32>, AllocError>
        requires { length self.old.fixed.cards < 2 ^ 32 - 1 }
        ensures ok { IfOk result (λ got. IfSome got (λ s. AddsCard place.now s self.old self.new)) }
        ensures absent { IfOk result (λ got. got ≡ None → self.new ≡ self.old) }
        ensures lacks { IfOk result (λ got. got ≡ None → placed self.old.fixed.places place.now ≡ None) }
        ensures err { OnErr result (self.new ≡ self.old) }
    {
        let Some(found) = self.found(place) else {
            return Ok(None);
        };
        let files = found.copy()?;
        let s = self.cards.len() as u32;
        let place = Bytes::of(alloc, place.as_bytes())?;
        self.cards.reserve(1)?;
        self.card_counts.reserve(1)?;
        self.events.push(Event::AttachSource { s, place })?;
        let (Ok(()), Ok(())) = (self.cards.push(files), self.card_counts.push(0)) else {
            unreachable!();
        };
        Ok(Some(s))
    }

    // Attaches the drive at a place. None where no such place was added.
    pub fn attach_drive(&mut self, alloc: Global, place: &str) -> Result<Option<u32>, AllocError>
        requires { length self.old.fixed.drives < 2 ^ 32 - 1 }
        ensures ok { IfOk result (λ got. IfSome got (λ d. AddsDrive place.now d self.old self.new)) }
        ensures absent { IfOk result (λ got. got ≡ None → self.new ≡ self.old) }
        ensures lacks { IfOk result (λ got. got ≡ None → placed self.old.fixed.places place.now ≡ None) }
        ensures err { OnErr result (self.new ≡ self.old) }
    {
        let Some(found) = self.found(place) else {
            return Ok(None);
        };
        let start = found.copy()?;
        let files = found.copy()?;
        let d = self.drives.len() as u32;
        let place = Bytes::of(alloc, place.as_bytes())?;
        self.drives.reserve(1)?;
        self.contents.reserve(1)?;
        self.drive_counts.reserve(1)?;
        self.events.push(Event::AttachDrive { d, place })?;
        let (Ok(()), Ok(()), Ok(())) = (
            self.drives.push(start),
            self.contents.push(files),
            self.drive_counts.push(0),
        ) else {
            unreachable!();
        };
        Ok(Some(d))
    }

    // The files that a device gets that is attached from this place now.
    fn found(&self, place: &str) -> Option<&MemMap>
        ensures found { option_copied result ≡ found_at self.now place.now (last_from place.now self.now.events) }
        ensures none { result ≡ None → placed self.now.fixed.places place.now ≡ None }
        ensures kept { Keeps self.now }
    {
        match last_kept(&self.events, place.as_bytes()) {
            Some(Kept::Card(s)) => self.cards.get(s as usize),
            Some(Kept::Drive(d)) => self.contents.get(d as usize),
            None => place_at(&self.places, place.as_bytes()),
        }
    }

    // Adds the files of a place.
    pub fn add_place(&mut self, place: Place) -> Result<(), AllocError>
        ensures ok { OnOk result (self.new ≡ with_place self.old place) }
        ensures err { OnErr result (self.new ≡ self.old) }
    {
        self.places.push(place)?;
        Ok(())
    }

    pub fn add_flip(&mut self, flip: Flip) -> Result<(), AllocError>
        ensures ok { OnOk result (self.new ≡ with_flip self.old flip) }
        ensures err { OnErr result (self.new ≡ self.old) }
    {
        self.flips.push(flip)?;
        Ok(())
    }

    pub fn add_listed(&mut self, listed: ListedAs) -> Result<(), AllocError>
        ensures ok { OnOk result (self.new ≡ with_listed self.old listed) }
        ensures err { OnErr result (self.new ≡ self.old) }
    {
        self.listed.push(listed)?;
        Ok(())
    }

    // Writes to a file of a drive.
    pub fn write(
        &mut self,
        alloc: Global,
        d: u32,
        path: &str,
        at: u64,
        bytes: &[u8],
        modified: u64,
    ) -> Result<(), AllocError>
        requires { d < length self.old.fixed.drives }
        ensures ok { OnOk result (Rewrites d (Write d path.now at bytes.now true) self.old self.new) }
        ensures err { OnErr result (self.new ≡ self.old) }
    {
        let now = &mut self.contents[d as usize];
        try_write(alloc, &mut self.events, now, d, path, at, bytes, modified)
    }

    // Removes a file of a drive.
    pub fn remove(&mut self, alloc: Global, d: u32, path: &str) -> Result<(), AllocError>
        requires { d < length self.old.fixed.drives }
        ensures ok { OnOk result (Rewrites d (Remove d path.now true) self.old self.new) }
        ensures err { OnErr result (self.new ≡ self.old) }
    {
        let now = &mut self.contents[d as usize];
        try_remove(alloc, &mut self.events, now, d, path)
    }

    // Renames a file of a drive, whose bytes are these.
    pub fn rename(
        &mut self,
        alloc: Global,
        d: u32,
        from: &str,
        to: &str,
        bytes: Vec<u8>,
        modified: u64,
    ) -> Result<(), AllocError>
        requires drive { d < length self.old.fixed.drives }
        requires bytes { (f : Files) → slice_get self.old.contents d ≡ Some f → get f.map from.now ≡ Some bytes.items }
        ensures ok { OnOk result (Rewrites d (Rename d from.now to.now true) self.old self.new) }
        ensures err { OnErr result (self.new ≡ self.old) }
    {
        let now = &mut self.contents[d as usize];
        try_rename(alloc, &mut self.events, now, d, from, to, bytes, modified)
    }

    pub fn raise_card(&mut self, s: u32)
        requires { s < length self.old.fixed.cards }
        ensures raised { self.new ≡ raised self.old (Source s) }
        ensures counted { Counted self.old.counts (Source s) }
    {
        raise(&mut self.card_counts[s as usize]);
    }

    pub fn raise_drive(&mut self, d: u32)
        requires { d < length self.old.fixed.drives }
        ensures raised { self.new ≡ raised self.old (Drive d) }
        ensures counted { Counted self.old.counts (Drive d) }
    {
        raise(&mut self.drive_counts[d as usize]);
    }

    pub fn raise_attaching(&mut self)
        ensures raised { self.new ≡ raised self.old Attaching }
        ensures counted { Counted self.old.counts Attaching }
        ensures kept { Keeps self.old }
    {
        raise(&mut self.attaching);
    }

    pub fn raise_output(&mut self)
        ensures raised { self.new ≡ raised self.old Output }
        ensures counted { Counted self.old.counts Output }
    {
        raise(&mut self.output);
    }
}

// A count rises, or stays at its end.
pub fn raise(count: &mut u64)
    ensures more { count.new ≡ one_more count.old }
    ensures later { count.old ≤ count.new }
{
    *count = count.saturating_add(1);
}
