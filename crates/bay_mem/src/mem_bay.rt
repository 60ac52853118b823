ghost use Rattle.std.specs.Prelude.{◌≡◌, ◌∷◌, [], ◌⊎◌, ◌+◌, ◌-◌, ◌^◌, ◌<◌, ◌≤◌, ℕ, List, length, take, slice_get, is_ok, is_some, true, false, Some, None, IfOk, IfSome, OnOk, OnErr, IsErrOf};
ghost use Rattle.std.specs.FinMap.{get};
ghost use Rattle.bay_core.specs.declared.event.Event.{Event};
ghost use Rattle.bay_core.specs.declared.event.Event.TheVariants.{SourceRead, DriveRead, Write, Rename, Remove, Sync, Moment, Pick, Say};
ghost use Rattle.bay_core.specs.declared.failed.ListError.TheVariants.{Memory};
ghost use Rattle.bay_core.specs.Map.{Map, Lists, ReadsAs, ReadsSome};
ghost use Rattle.bay_core.specs.Replay.{Source, Drive, Clock, Picker, Output, device_of, reads, dated};
ghost use Rattle.bay_core.specs.World.{Honest, Steady};
ghost use Rattle.bay_core.specs.Went.{Called, Tried, Ran, IsCall, CardReadCall, CardListCall, ReadCall, ListCall, no_fault, read_got, write_call, sync_call, rename_call, remove_call, say_call};
ghost use Rattle.bay_core.specs.Attach.{Attaches, CardAttaches};
ghost use Rattle.bay_core.specs.Left.{Left};
ghost use Rattle.bay_mem.specs.Files.{Files};
ghost use Rattle.bay_mem.specs.State.{world_of, with_place, with_flip, with_listed, noted, hushed, is_flipped, is_change, IsKnown, Rewrites, AddsCard, AddsDrive};
ghost use Rattle.bay_mem.specs.Failing.{NotedOrHushed, new_bay, seeing, refusing, with_due, Excused, Blamed, NoFault, NotAdded, CardLacks, DriveLacks};

use crate::MemMap;
use crate::failures::*;
use crate::faults::Faults;
use crate::images::image;
use crate::lies::{Flip, ListedAs};
use crate::looks::{try_list, try_read, try_say, try_source_list, try_source_read};
use crate::mem_world::MemWorld;
use crate::places::Place;
use bay_core::{Bay, Bytes, Event, Failed, FileInfo, ListError, NameText};
use std::alloc::{AllocError, Global};
use std::marker::Model;

/// A bay in memory, which tells all that was called.
///
/// Each attach makes a device of its own. Its files are a copy of what the device holds then that
/// was attached last from the place, or else of the files that were added for the place. A place
/// that was not added cannot be attached. A call without an answer for want of memory is Failed
/// where a growth was refused to it, and the device's count rises; no call that was answered Ok is
/// missing from the events. Where there was no memory for the event of the clock or the picker, no
/// events are told from then on.
#[derive(Drop)]
pub struct MemBay {
    alloc: Global,
    world: MemWorld,
    faults: Faults,
    read_limit: usize,
    clock: u64,
    picks: Vec<u32>,
    picked: usize,
}

impl Model for MemBay {
    ghost use Rattle.std.specs.Prelude.{◌≤◌};
    ghost use Rattle.bay_mem.specs.Failing.{BayState};
    ghost use Rattle.bay_mem.specs.contracts.mem_world.MemWorld as inner;
    ghost use Rattle.bay_mem.specs.contracts.faults.Faults as due;
    ghost use Rattle.std.specs.Coded.{codes};

    ghost Value = { BayState };

    ghost coded = { Prim.hlevel (codes, inner.the_row.coded, due.the_row.coded) };

    ghost view = { λ b. record { seen = b.world; failing = b.faults } };

    ghost invariant = { λ b. (1 ≤ b.read_limit) × (b.clock ≤ 253402300799) };
}

impl MemBay {
    /// No device, no place, no fault, no event. The clock stands at 0. Takes no memory.
    pub fn new(alloc: Global) -> MemBay
        ensures { result ≡ new_bay }
    {
        MemBay {
            alloc,
            world: MemWorld::new(alloc),
            faults: Faults::new(alloc),
            read_limit: usize::MAX,
            clock: 0,
            picks: Vec::new(alloc),
            picked: 0,
        }
    }

    /// The same as `add_drive`: what was added as a card can be attached as a drive.
    pub fn add_source(&mut self, place: &str, files: MemMap) -> Result<(), AllocError>
        ensures ok { OnOk result (self.new ≡ seeing self.old (with_place self.old.seen (record { name = place.now; files = files }))) }
        ensures err { OnErr result (self.new ≡ refusing self.old) }
    {
        self.add_drive(place, files)
    }

    /// From now on a place from which nothing was attached yet has these files. Want of memory is
    /// the only error.
    pub fn add_drive(&mut self, place: &str, files: MemMap) -> Result<(), AllocError>
        ensures ok { OnOk result (self.new ≡ seeing self.old (with_place self.old.seen (record { name = place.now; files = files }))) }
        ensures err { OnErr result (self.new ≡ refusing self.old) }
    {
        let name = self
            .faults
            .counted(Bytes::of(self.alloc, place.as_bytes()))?;
        self.faults
            .counted(self.world.add_place(Place { name, files }))
    }

    /// From now on reads of this file of drive `d` show the byte at `at` with its lowest bit
    /// changed. The drive is not honest, also where it is attached later.
    pub fn flip(&mut self, d: u32, path: &str, at: u64) -> Result<(), AllocError>
        ensures ok { OnOk result (self.new ≡ seeing self.old (with_flip self.old.seen (record { d = d; path = path.now; at = at }))) }
        ensures err { OnErr result (self.new ≡ refusing self.old) }
    {
        let path = self.faults.counted(Bytes::of(self.alloc, path.as_bytes()))?;
        self.faults
            .counted(self.world.add_flip(Flip { d, path, at }))
    }

    /// From now on listings of card `s` say this size of this file. Where the card has the file with
    /// another size it is not steady, also where it is attached later.
    pub fn list_as(&mut self, s: u32, path: &str, size: u64) -> Result<(), AllocError>
        ensures ok { OnOk result (self.new ≡ seeing self.old (with_listed self.old.seen (record { s = s; path = path.now; size = size }))) }
        ensures err { OnErr result (self.new ≡ refusing self.old) }
    {
        let path = self.faults.counted(NameText::of(self.alloc, path))?;
        self.faults
            .counted(self.world.add_listed(ListedAs { s, path, size }))
    }

    /// The n-th call from now that can fail, counted from 1 over all devices, fails: its event with
    /// the failed answer is told where memory for it is there, and the device's count rises by one.
    /// Nothing else changes. Several calls may be set.
    pub fn fail_call(&mut self, n: u64) -> Result<(), AllocError>
        ensures ok { OnOk result (self.new ≡ record { seen = self.old.seen; failing = with_due self.old.failing n }) }
        ensures err { OnErr result (self.new ≡ refusing self.old) }
    {
        let outcome = self.faults.set(n);
        self.faults.counted(outcome)
    }

    /// From now on each read gives at most `n` bytes.
    pub fn cut_reads(&mut self, n: usize)
        requires { 1 ≤ n }
        ensures { self.new ≡ self.old }
    {
        self.read_limit = n;
    }

    /// The numbers that the picker answers, one after another and again from the first. Where there
    /// are none, it answers 0.
    pub fn picks(&mut self, numbers: Vec<u32>)
        ensures { self.new ≡ self.old }
    {
        self.picks = numbers;
        self.picked = 0;
    }

    /// The second since 1970 that the clock answers from now on.
    pub fn clock(&mut self, t: u64)
        requires { t ≤ 253_402_300_799 }
        ensures { self.new ≡ self.old }
    {
        self.clock = t;
    }

    /// How many growths were refused to this bay so far.
    pub fn refused(&self) -> u64
        ensures { result ≡ self.now.failing.refused }
    {
        self.faults.refused()
    }

    /// The calls so far.
    pub fn events(&self) -> &[Event]
        ensures { result.now ≡ self.now.seen.events }
    {
        self.world.events()
    }

    /// One map that a stop after the first `upto` calls may leave of drive `d`. An `upto` above the
    /// number of calls counts as that number. Want of memory is the only error.
    ///
    /// Each change of the drive since its last sync that answered Ok takes one number of `choice`,
    /// 0 where it has run out. Modulo 3, 0 is undone and 1 is done. 2 is done, for a write with each
    /// byte of the written range replaced by the number's third, modulo 256, and for a rename with
    /// the bytes kept under the old name too.
    pub fn image(&self, d: u32, upto: usize, choice: &[u32]) -> Result<MemMap, AllocError>
        requires { d < length self.now.seen.fixed.drives }
        ensures { (start : Files) → slice_get self.now.seen.fixed.drives d ≡ Some start → IfOk result (λ left. Left start.map (take upto self.now.seen.events) d left.map) }
    {
        let events = self.world.events();
        let upto = upto.min(events.len());
        image(self.alloc, self.world.start(d), &events[..upto], d, choice)
    }

    // Notes a call of the clock or the picker, or tells no calls from now on.
    fn note_or_hush(&mut self, event: Event)
        requires known { IsKnown self.old.seen.fixed (device_of event) }
        requires idle { is_change event ≡ false }
        ensures { NotedOrHushed event self.old self.new }
    {
        let outcome = self.world.note(event);
        if self.faults.counted(outcome).is_err() {
            self.world.hush();
        }
    }

    fn next_pick(&mut self) -> u32
        ensures { self.new ≡ self.old }
    {
        let Some(n) = self.picks.get(self.picked) else {
            return 0;
        };
        self.picked = if self.picked + 1 < self.picks.len() {
            self.picked + 1
        } else {
            0
        };
        *n
    }

    fn attached_drive(&mut self, place: &str) -> Option<u32>
        requires { length self.old.seen.fixed.drives < 2 ^ 32 - 1 }
        ensures ok { IfSome result (λ d. AddsDrive place.now d self.old.seen self.new.seen) }
        ensures none { result ≡ None → self.new.seen ≡ self.old.seen }
        ensures excuse { result ≡ None → Excused (NotAdded self.old.seen place.now) self.old.failing self.new.failing }
    {
        if self.faults.strikes() {
            return None;
        }
        let outcome = self.world.attach_drive(self.alloc, place);
        self.faults.counted(outcome).ok()?
    }

    fn attached_card(&mut self, place: &str) -> Option<u32>
        requires { length self.old.seen.fixed.cards < 2 ^ 32 - 1 }
        ensures ok { IfSome result (λ s. AddsCard place.now s self.old.seen self.new.seen) }
        ensures none { result ≡ None → self.new.seen ≡ self.old.seen }
        ensures excuse { result ≡ None → Excused (NotAdded self.old.seen place.now) self.old.failing self.new.failing }
    {
        if self.faults.strikes() {
            return None;
        }
        let outcome = self.world.attach_card(self.alloc, place);
        self.faults.counted(outcome).ok()?
    }

    fn written(&mut self, d: u32, path: &str, at: u64, bytes: &[u8]) -> Result<(), Failed>
        requires { d < length self.old.seen.fixed.drives }
        ensures ok { OnOk result (Rewrites d (Write d path.now at bytes.now true) self.old.seen self.new.seen) }
        ensures err { OnErr result (self.new.seen ≡ self.old.seen) }
        ensures excuse { OnErr result (Excused ⊥ self.old.failing self.new.failing) }
    {
        if self.faults.strikes() {
            return Err(Failed);
        }
        let outcome = self.world.write(self.alloc, d, path, at, bytes, self.clock);
        match self.faults.counted(outcome) {
            Ok(()) => Ok(()),
            Err(_) => Err(Failed),
        }
    }

    // None where the call is to fail, memory was refused, or the card has no such file.
    fn card_bytes(&mut self, s: u32, path: &str, at: u64, into: &mut [u8]) -> Option<usize>
        requires { s < length self.old.seen.fixed.cards }
        ensures length { length into.new ≡ length into.old }
        ensures bound { IfSome result (λ n. n ≤ length into.new) }
        ensures ok { IfSome result (λ n. self.new.seen ≡ noted self.old.seen (SourceRead s path.now at (length into.new) (Some (take n into.new)))) }
        ensures content { IfSome result (λ n. (f : Files) → slice_get self.old.seen.fixed.cards s ≡ Some f → ReadsSome f.map path.now at into.new n) }
        ensures none { result ≡ None → self.new.seen ≡ self.old.seen }
        ensures excuse { result ≡ None → Excused (CardLacks self.old.seen s path.now) self.old.failing self.new.failing }
    {
        if self.faults.strikes() {
            return None;
        }
        let limit = self.read_limit;
        let outcome = try_source_read(self.alloc, &mut self.world, limit, s, path, at, into);
        match self.faults.counted(outcome) {
            Ok(got) => got,
            Err(_) => None,
        }
    }

    fn drive_bytes(
        &mut self,
        d: u32,
        path: &str,
        at: u64,
        into: &mut [u8],
    ) -> Result<Option<usize>, Failed>
        requires { d < length self.old.seen.fixed.drives }
        ensures length { length into.new ≡ length into.old }
        ensures bound { IfOk result (λ got. IfSome got (λ n. n ≤ length into.new)) }
        ensures ok { IfOk result (λ got. self.new.seen ≡ noted self.old.seen (DriveRead d path.now at (length into.new) (read_got got into.new))) }
        ensures content { IfOk result (λ got. (m : Files) → slice_get self.old.seen.fixed.drives d ≡ Some m → is_flipped self.old.seen.fixed.flips d ≡ false → ReadsAs (reads m.map self.old.seen.events d) path.now at into.new got) }
        ensures err { OnErr result (self.new.seen ≡ self.old.seen) }
        ensures excuse { OnErr result (Excused ⊥ self.old.failing self.new.failing) }
    {
        if self.faults.strikes() {
            return Err(Failed);
        }
        let limit = self.read_limit;
        let outcome = try_read(self.alloc, &mut self.world, limit, d, path, at, into);
        match self.faults.counted(outcome) {
            Ok(got) => Ok(got),
            Err(_) => Err(Failed),
        }
    }

    fn renamed(&mut self, d: u32, from: &str, to: &str) -> Result<(), Failed>
        requires { d < length self.old.seen.fixed.drives }
        ensures ok { OnOk result (Rewrites d (Rename d from.now to.now true) self.old.seen self.new.seen) }
        ensures there { (m : Files) → slice_get self.old.seen.fixed.drives d ≡ Some m → OnOk result (is_some (get (reads m.map self.old.seen.events d) from.now) ≡ true) }
        ensures err { OnErr result (self.new.seen ≡ self.old.seen) }
        ensures excuse { OnErr result (Excused (DriveLacks self.old.seen d from.now) self.old.failing self.new.failing) }
    {
        if self.faults.strikes() {
            return Err(Failed);
        }
        let Some(bytes) = self.world.files(d).get(from) else {
            return Err(Failed);
        };
        let bytes = bytes.to_vec(self.alloc);
        let Ok(bytes) = self.faults.counted(bytes) else {
            return Err(Failed);
        };
        let outcome = self
            .world
            .rename(self.alloc, d, from, to, bytes, self.clock);
        match self.faults.counted(outcome) {
            Ok(()) => Ok(()),
            Err(_) => Err(Failed),
        }
    }

    fn removed(&mut self, d: u32, path: &str) -> Result<(), Failed>
        requires { d < length self.old.seen.fixed.drives }
        ensures ok { OnOk result (Rewrites d (Remove d path.now true) self.old.seen self.new.seen) }
        ensures err { OnErr result (self.new.seen ≡ self.old.seen) }
        ensures excuse { OnErr result (Excused ⊥ self.old.failing self.new.failing) }
    {
        if self.faults.strikes() {
            return Err(Failed);
        }
        let outcome = self.world.remove(self.alloc, d, path);
        match self.faults.counted(outcome) {
            Ok(()) => Ok(()),
            Err(_) => Err(Failed),
        }
    }

    fn synced(&mut self, d: u32) -> Result<(), Failed>
        requires { d < length self.old.seen.fixed.drives }
        ensures ok { OnOk result (self.new.seen ≡ noted self.old.seen (Sync d true)) }
        ensures err { OnErr result (self.new.seen ≡ self.old.seen) }
        ensures excuse { OnErr result (Excused ⊥ self.old.failing self.new.failing) }
    {
        if self.faults.strikes() {
            return Err(Failed);
        }
        let outcome = self.world.note(Event::Sync { d, ok: true });
        match self.faults.counted(outcome) {
            Ok(()) => Ok(()),
            Err(_) => Err(Failed),
        }
    }

    fn said(&mut self, line: &[u8]) -> Result<(), Failed>
        ensures ok { OnOk result (self.new.seen ≡ noted self.old.seen (Say line.now true)) }
        ensures err { OnErr result (self.new.seen ≡ self.old.seen) }
        ensures excuse { OnErr result (Excused ⊥ self.old.failing self.new.failing) }
    {
        if self.faults.strikes() {
            return Err(Failed);
        }
        let outcome = try_say(self.alloc, &mut self.world, line);
        match self.faults.counted(outcome) {
            Ok(()) => Ok(()),
            Err(_) => Err(Failed),
        }
    }
}

impl Bay for MemBay {
    ghost world = { λ b. world_of b.seen };

    fn attach_source(&mut self, place: &str) -> Result<u32, Failed>
        requires { length self.old.seen.fixed.cards < 2 ^ 32 - 1 }
        ensures attaches { CardAttaches place.now result (world_of self.old.seen) (world_of self.new.seen) }
        ensures blamed { Blamed (NotAdded self.old.seen place.now) self.old self.new }
    {
        match self.attached_card(place) {
            Some(s) => Ok(s),
            None => {
                let noted = fail_attach(self.alloc, &mut self.world, place);
                let _ = self.faults.counted(noted);
                Err(Failed)
            }
        }
    }

    fn attach_drive(&mut self, place: &str) -> Result<u32, Failed>
        requires { length self.old.seen.fixed.drives < 2 ^ 32 - 1 }
        ensures attaches { Attaches place.now result (world_of self.old.seen) (world_of self.new.seen) }
        ensures blamed { Blamed (NotAdded self.old.seen place.now) self.old self.new }
    {
        match self.attached_drive(place) {
            Some(d) => Ok(d),
            None => {
                let noted = fail_attach(self.alloc, &mut self.world, place);
                let _ = self.faults.counted(noted);
                Err(Failed)
            }
        }
    }

    fn source_list(&mut self, alloc: Global, s: u32) -> Result<Vec<FileInfo>, ListError>
        requires { s < length self.old.seen.fixed.cards }
        ensures called { Called (Source s) (CardListCall s result) (no_fault result) (world_of self.old.seen) (world_of self.new.seen) }
        ensures memory { IsErrOf result Memory → world_of self.new.seen ≡ world_of self.old.seen }
        ensures steady { (m : Map) → Steady (world_of self.old.seen) s m → IfOk result (λ files. Lists m ((world_of self.old.seen).attached.card_dates s) files.items) }
        ensures blamed { Blamed ⊥ self.old self.new }
    {
        if self.faults.strikes() {
            let noted = fail_source_list(&mut self.world, s);
            let _ = self.faults.counted(noted);
            return Err(ListError::Failed);
        }
        let outcome = try_source_list(alloc, &mut self.world, s);
        let Ok(files) = self.faults.counted(outcome) else {
            return Err(ListError::Memory);
        };
        Ok(files)
    }

    fn source_read(&mut self, s: u32, path: &str, at: u64, into: &mut [u8]) -> Result<usize, Failed>
        requires { s < length self.old.seen.fixed.cards }
        ensures bound { IfOk result (λ n. n ≤ length into.new) }
        ensures called { Called (Source s) (CardReadCall s path.now at into.new result) (is_ok result) (world_of self.old.seen) (world_of self.new.seen) }
        ensures steady { (m : Map) → Steady (world_of self.old.seen) s m → IfOk result (ReadsSome m path.now at into.new) }
        ensures blamed { Blamed (CardLacks self.old.seen s path.now) self.old self.new }
    {
        match self.card_bytes(s, path, at, into) {
            Some(n) => Ok(n),
            None => {
                let want = into.len() as u64;
                let noted = fail_source_read(self.alloc, &mut self.world, s, path, at, want);
                let _ = self.faults.counted(noted);
                Err(Failed)
            }
        }
    }

    fn drive_list(&mut self, alloc: Global, d: u32) -> Result<Vec<FileInfo>, ListError>
        requires { d < length self.old.seen.fixed.drives }
        ensures called { Called (Drive d) (ListCall d result) (no_fault result) (world_of self.old.seen) (world_of self.new.seen) }
        ensures memory { IsErrOf result Memory → world_of self.new.seen ≡ world_of self.old.seen }
        ensures honest { (m : Map) (L : List Event) → Honest (world_of self.old.seen) d m L → IfOk result (λ files. Lists (reads m L d) (dated ((world_of self.old.seen).attached.dates d) L d) files.items) }
        ensures blamed { Blamed ⊥ self.old self.new }
    {
        if self.faults.strikes() {
            let noted = fail_list(&mut self.world, d);
            let _ = self.faults.counted(noted);
            return Err(ListError::Failed);
        }
        let outcome = try_list(alloc, &mut self.world, d);
        let Ok(files) = self.faults.counted(outcome) else {
            return Err(ListError::Memory);
        };
        Ok(files)
    }

    fn drive_read(
        &mut self,
        d: u32,
        path: &str,
        at: u64,
        into: &mut [u8],
    ) -> Result<Option<usize>, Failed>
        requires { d < length self.old.seen.fixed.drives }
        ensures bound { IfOk result (λ got. IfSome got (λ n. n ≤ length into.new)) }
        ensures called { Called (Drive d) (ReadCall d path.now at into.new result) (is_ok result) (world_of self.old.seen) (world_of self.new.seen) }
        ensures honest { (m : Map) (L : List Event) → Honest (world_of self.old.seen) d m L → IfOk result (ReadsAs (reads m L d) path.now at into.new) }
        ensures blamed { Blamed ⊥ self.old self.new }
    {
        match self.drive_bytes(d, path, at, into) {
            Ok(got) => Ok(got),
            Err(Failed) => {
                let want = into.len() as u64;
                let noted = fail_read(self.alloc, &mut self.world, d, path, at, want);
                let _ = self.faults.counted(noted);
                Err(Failed)
            }
        }
    }

    fn write(&mut self, d: u32, path: &str, at: u64, bytes: &[u8]) -> Result<(), Failed>
        requires drive { d < length self.old.seen.fixed.drives }
        ensures called { Tried d (write_call d path.now at bytes.now ∷ []) (is_ok result) (world_of self.old.seen) (world_of self.new.seen) }
        ensures blamed { Blamed ⊥ self.old self.new }
    {
        match self.written(d, path, at, bytes) {
            Ok(()) => Ok(()),
            Err(Failed) => {
                let noted = fail_write(self.alloc, &mut self.world, d, path, at, bytes);
                let _ = self.faults.counted(noted);
                Err(Failed)
            }
        }
    }

    fn sync(&mut self, d: u32) -> Result<(), Failed>
        requires { d < length self.old.seen.fixed.drives }
        ensures called { Tried d (sync_call d ∷ []) (is_ok result) (world_of self.old.seen) (world_of self.new.seen) }
        ensures blamed { Blamed ⊥ self.old self.new }
    {
        match self.synced(d) {
            Ok(()) => Ok(()),
            Err(Failed) => {
                let noted = fail_sync(&mut self.world, d);
                let _ = self.faults.counted(noted);
                Err(Failed)
            }
        }
    }

    fn rename(&mut self, d: u32, from: &str, to: &str) -> Result<(), Failed>
        requires { d < length self.old.seen.fixed.drives }
        ensures called { Tried d (rename_call d from.now to.now ∷ []) (is_ok result) (world_of self.old.seen) (world_of self.new.seen) }
        ensures there { (m : Map) (L : List Event) → Honest (world_of self.old.seen) d m L → OnOk result (is_some (get (reads m L d) from.now) ≡ true) }
        ensures blamed { Blamed (DriveLacks self.old.seen d from.now) self.old self.new }
    {
        match self.renamed(d, from, to) {
            Ok(()) => Ok(()),
            Err(Failed) => {
                let noted = fail_rename(self.alloc, &mut self.world, d, from, to);
                let _ = self.faults.counted(noted);
                Err(Failed)
            }
        }
    }

    fn remove(&mut self, d: u32, path: &str) -> Result<(), Failed>
        requires { d < length self.old.seen.fixed.drives }
        ensures called { Tried d (remove_call d path.now ∷ []) (is_ok result) (world_of self.old.seen) (world_of self.new.seen) }
        ensures blamed { Blamed ⊥ self.old self.new }
    {
        match self.removed(d, path) {
            Ok(()) => Ok(()),
            Err(Failed) => {
                let noted = fail_remove(self.alloc, &mut self.world, d, path);
                let _ = self.faults.counted(noted);
                Err(Failed)
            }
        }
    }

    fn moment(&mut self) -> u64
        ensures range { result ≤ 253_402_300_799 }
        ensures called { Called Clock (IsCall (Moment result)) true (world_of self.old.seen) (world_of self.new.seen) }
        ensures blamed { NoFault self.old self.new }
    {
        let t = self.clock;
        self.note_or_hush(Event::Moment { t });
        t
    }

    fn pick(&mut self) -> u32
        ensures called { Called Picker (IsCall (Pick result)) true (world_of self.old.seen) (world_of self.new.seen) }
        ensures blamed { NoFault self.old self.new }
    {
        let n = self.next_pick();
        self.note_or_hush(Event::Pick { n });
        n
    }

    fn say(&mut self, line: &[u8]) -> Result<(), Failed>
        ensures called { Called Output (Ran (say_call line.now ∷ []) (is_ok result)) (is_ok result) (world_of self.old.seen) (world_of self.new.seen) }
        ensures blamed { Blamed ⊥ self.old self.new }
    {
        match self.said(line) {
            Ok(()) => Ok(()),
            Err(Failed) => {
                let noted = fail_say(self.alloc, &mut self.world, line);
                let _ = self.faults.counted(noted);
                Err(Failed)
            }
        }
    }
}
