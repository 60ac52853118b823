// The turns of a copy.
ghost use Rattle.std.specs.Prelude.{◌≡◌, ◌≢◌, ℕ, List, ◌++◌, [], ◌∷◌, ◌+◌, ◌*◌, ◌^◌, ◌<◌, ◌≤◌, true, false, is_ok, length, IfOk, IfNone, IfSome, Some, None, slice_index};
ghost use Rattle.bay_core.specs.Crashes.{Leaves, IsAny, OnlyAt};
ghost use Rattle.bay_core.specs.declared.event.Event.TheVariants.{Pick};
ghost use Rattle.bay_core.specs.Map.{Map, content};
ghost use Rattle.bay_core.specs.Paths.{part_path};
ghost use Rattle.bay_core.specs.Replay.{Source, Drive, Picker};
ghost use Rattle.bay_core.specs.World.{World, Rose, Steady};
ghost use Rattle.bay_core.specs.Went.{Went, Called, Tried, Only, IsCall, write_call};
ghost use Rattle.block_pool.specs.Lent.{PoolState, is_lent, free_in};
ghost use Rattle.digest_set.specs.Fed.{AllFed, Md5Fed, Sha1Fed, XxhFed};
ghost use Rattle.digest_set.specs.Triple.{triple};
ghost use Rattle.fan_core.specs.Flags.{has, HasSome, lowest, count};
ghost use Rattle.fan_core.specs.Next.{CanRead, waiting};
ghost use Rattle.fan_copier.specs.Ring.{taken, IsOut, Owns, KeepsPool, GivesAll};
ghost use Rattle.fan_copier.specs.Standing.{IsAtStart, blocks_of, block_len, block_of};
ghost use Rattle.fan_copier.specs.Reads.{AreAt, AreOn};
ghost use Rattle.fan_copier.specs.Copying.{card_of, size_of, live_of, kept_of, slots_at_most, slots_of, standing, Has, HoldsBlocks, Copying, NoPart, PartBegins};
ghost use Rattle.fan_copier.specs.Turning.{with_piece, with_read, dropped, ReadCalls, PastCalls, next_block, Touches, AreCopyCalls, Nearer, GoOn, TurnCause, turns_left, Turned, PutStands, WriteCalls, IsChanged};
ghost use Rattle.fan_copier.specs.declared.turn.Turn.TheVariants.{NoDrive};

use crate::blocks::{PART, put_block, read_into};
use crate::ring::Ring;
use crate::{FileCopy, Turn};
use bay_core::{Bay, Failed};
use block_pool::{Pool, Slot};
use digest_set::{Fan, Triple, triple_of};
use fan_core::{Act, Drives, Window};
use path_text::PathText;

/// The bytes of a block.
const BLOCK: u64 = 65536;

// The first drives but those that are among the second.
fn without_all(drives: Drives, others: Drives) -> Drives
    ensures within { (d : ℕ) → has result d ≡ true → (has drives d ≡ true) × (has others d ≡ false) }
    ensures all { (d : ℕ) → d < 8 → has drives d ≡ true → has others d ≡ false → has result d ≡ true }
    ensures eight { (length result ≡ 8) × (length others ≡ 8) }
{
    let mut left = Drives::none();
    for d in 0..8 {
        if drives.has(d) && !others.has(d) {
            left = left.with(d);
        }
    }
    left
}

// Asks for the pick of an act.
fn ask<B: Bay>(bay: &mut B) -> u32
    ensures { Called Picker (IsCall (Pick result)) true (B.world bay.old) (B.world bay.new) }
{
    bay.pick()
}

impl FileCopy {
    /// A copy of a file of card `source`, of `size` bytes, to these drives. Those that are in `kept`, which is within
    /// `drives`, keep the part that they have, as far as its bytes are the card's; the others have none. At most `slots`
    /// blocks of the pool are held.
    pub fn begin(source: u32, size: u64, drives: Drives, kept: Drives, slots: u32) -> FileCopy
        requires size { size < 2 ^ 48 }
        requires slots { (1 ≤ slots) × (slots ≤ 16) }
        requires drives { HasSome drives }
        requires kept { (d : ℕ) → has kept d ≡ true → has drives d ≡ true }
        ensures is { (card_of result ≡ source) × (size_of result ≡ size) × (live_of result ≡ drives) × (slots_at_most result ≡ slots) × (kept_of result ≡ kept) }
        ensures stands { IsAtStart size drives kept slots (standing result) }
        ensures owns { (pool : PoolState) → Owns (slots_of result) pool }
        ensures none { taken (slots_of result) ≡ 0 }
        ensures turns { turns_left (standing result) ≤ (blocks_of size + 1) * (count drives + 1) }
        ensures copying { (pool : PoolState) (w : World) → ((d : ℕ) → has drives d ≡ true → has kept d ≡ false → NoPart d w) → ((d : ℕ) → has kept d ≡ true → PartBegins d size w [])
            → Copying result pool w [] }
    {
        FileCopy {
            source,
            size,
            window: Window::new(drives, size.div_ceil(BLOCK), slots),
            pieces: without_all(drives, kept),
            kept,
            ring: Ring::new(),
            run: Fan::start(),
        }
    }

    // Drops a drive.
    fn drop_drive(&mut self, d: u32)
        ensures same { (self.new.source ≡ self.old.source) × (self.new.size ≡ self.old.size) × (self.new.ring ≡ self.old.ring) × (self.new.run ≡ self.old.run) }
        ensures stands { standing self.new ≡ dropped (standing self.old) d }
    {
        self.window.drop_drive(d);
        self.pieces = self.pieces.without(d);
        self.kept = self.kept.without(d);
    }

    // Writes the empty piece of a drive.
    fn write_piece<B: Bay>(&mut self, bay: &mut B, d: u32) -> Result<(), Failed>
        requires drive { d < (B.world bay.old).attached.drives }
        requires todo { has self.old.pieces d ≡ true }
        ensures same { (self.new.source ≡ self.old.source) × (self.new.size ≡ self.old.size) × (self.new.ring ≡ self.old.ring) × (self.new.run ≡ self.old.run) }
        ensures ok { is_ok result ≡ true → standing self.new ≡ with_piece (standing self.old) d }
        ensures dropped { is_ok result ≡ false → standing self.new ≡ dropped (standing self.old) d }
        ensures tried { Tried d (write_call d part_path 0 [] ∷ []) (is_ok result) (B.world bay.old) (B.world bay.new) }
    {
        match bay.write(d, PART, 0, &[]) {
            Ok(()) => {
                self.pieces = self.pieces.without(d);
                Ok(())
            }
            Err(failed) => {
                self.drop_drive(d);
                Err(failed)
            }
        }
    }

    // Reads the next block of the card. The answer is where the file ended, if it did before the block's end.
    fn read_block<B: Bay>(
        &mut self,
        bay: &mut B,
        pool: &mut Pool,
        path: &str,
    ) -> Result<Option<u64>, Failed>
        requires source { self.old.source < (B.world bay.old).attached.sources }
        requires more { CanRead self.old.window.counts }
        requires pieces { lowest self.old.pieces ≡ None }
        requires owns { Owns self.old.ring.slots pool.old }
        requires free { self.old.window.counts.slots ≤ free_in pool.old.lent + taken self.old.ring.slots }
        ensures same { (self.new.source ≡ self.old.source) × (self.new.size ≡ self.old.size) }
        ensures whole { IfOk result (λ end. IfNone end (standing self.new ≡ with_read (standing self.old))) }
        ensures ended { IfOk result (λ end. IfSome end (λ n. (self.old.window.counts.read * 65536 ≤ n) × (n < self.old.window.counts.read * 65536 + block_len self.old.size self.old.window.counts.read) × (standing self.new ≡ standing self.old))) }
        ensures lost { is_ok result ≡ false → standing self.new ≡ standing self.old }
        ensures pool { (compare : ℕ) → is_lent pool.old compare ≡ true → IsOut self.old.ring.slots compare → KeepsPool compare self.old.ring.slots self.new.ring.slots pool.old pool.new }
        ensures len { length (next_block self.old.size self.old.window.counts self.new.ring.slots pool.new) ≡ block_len self.old.size self.old.window.counts.read }
        ensures called { Called (Source self.old.source) (ReadCalls self.old.source path.now (self.old.window.counts.read * 65536) (next_block self.old.size self.old.window.counts self.new.ring.slots pool.new) result) (is_ok result) (B.world bay.old) (B.world bay.new) }
        ensures steady { (m : Map) → Steady (B.world bay.old) self.old.source m → length (content m path.now) ≡ self.old.size → IfOk result (λ end. end ≡ None) }
        ensures card { (m : Map) → Steady (B.world bay.old) self.old.source m → IfOk result (λ end. IfNone end (AreAt (content m path.now) (self.old.window.counts.read * 65536) (next_block self.old.size self.old.window.counts self.new.ring.slots pool.new))) }
        ensures holds { (bytes : List ℕ) → Has self.old pool.old bytes → standing self.new ≡ standing self.old → HoldsBlocks self.new pool.new bytes }
        ensures grown { (bytes : List ℕ) → Has self.old pool.old bytes → IfOk result (λ end. IfNone end (Has self.new pool.new (bytes ++ next_block self.old.size self.old.window.counts self.new.ring.slots pool.new))) }
    {
        let block = self.window.read_count();
        let place = (block % self.window.slots() as u64) as usize;
        let at = block * BLOCK;
        let want = (self.size - at).min(BLOCK) as usize;
        self.ring.ready(pool, place);
        let slot = self.ring.slot(place);
        let n = read_into(bay, pool, slot, &mut self.run, self.source, path, at, want)?;
        if n < want {
            return Ok(Some(at + n as u64));
        }
        self.window.done_read();
        Ok(None)
    }

    // Brings the next block of a drive to its part.
    fn write_block<B: Bay>(
        &mut self,
        bay: &mut B,
        pool: &mut Pool,
        compare: &Slot,
        d: u32,
        block: u64,
    ) -> Result<(), Failed>
        requires drive { d < (B.world bay.old).attached.drives }
        requires waits { has (waiting self.old.window.counts) d ≡ true }
        requires next { block ≡ slice_index self.old.window.counts.written d }
        requires owns { Owns self.old.ring.slots pool.old }
        requires compare { (is_lent pool.old compare.now ≡ true) × IsOut self.old.ring.slots compare.now }
        ensures same { (self.new.source ≡ self.old.source) × (self.new.size ≡ self.old.size) }
        ensures ok { is_ok result ≡ true → PutStands d (standing self.old) (standing self.new) }
        ensures dropped { is_ok result ≡ false → standing self.new ≡ dropped (standing self.old) d }
        ensures pool { KeepsPool compare.now self.old.ring.slots self.new.ring.slots pool.old pool.new }
        ensures touches { (s : ℕ) (path : List ℕ) → Went (Only (Drive d)) (AreCopyCalls s path) (B.world bay.old) (B.world bay.new) }
        ensures cause { is_ok result ≡ false → Rose ((B.world bay.old).faults (Drive d)) ((B.world bay.new).faults (Drive d)) }
        ensures has { (bytes : List ℕ) → Has self.old pool.old bytes → Has self.new pool.new bytes }
        ensures called { (bytes : List ℕ) → Has self.old pool.old bytes
            → Called (Drive d) (WriteCalls (has self.old.kept d) (has self.new.kept d) (is_ok result) d (block * 65536) (block_of bytes block)) (is_ok result) (B.world bay.old) (B.world bay.new) }
        ensures agreed { (bytes : List ℕ) → Has self.old pool.old bytes → is_ok result ≡ true → has self.new.kept d ≡ true → AreOn d part_path (block * 65536) (block_of bytes block) (B.world bay.new) }
    {
        let place = (block % self.window.slots() as u64) as usize;
        let at = block * BLOCK;
        let len = (self.size - at).min(BLOCK) as usize;
        let keeps = self.kept.has(d);
        match put_block(bay, pool, self.ring.slot(place), compare, keeps, d, at, len) {
            Ok(true) => {
                self.window.done_write(d);
                Ok(())
            }
            Ok(false) => {
                self.kept = self.kept.without(d);
                self.window.done_write(d);
                Ok(())
            }
            Err(failed) => {
                self.drop_drive(d);
                Err(failed)
            }
        }
    }

    // Asks for one byte at the size: the byte, if one came.
    fn read_past<B: Bay>(&self, bay: &mut B, path: &str) -> Result<Option<u8>, Failed>
        requires source { self.now.source < (B.world bay.old).attached.sources }
        ensures called { Called (Source self.now.source) (PastCalls self.now.source path.now self.now.size result) (is_ok result) (B.world bay.old) (B.world bay.new) }
        ensures steady { (m : Map) → Steady (B.world bay.old) self.now.source m → length (content m path.now) ≡ self.now.size → IfOk result (λ byte. byte ≡ None) }
        ensures ends { (m : Map) → Steady (B.world bay.old) self.now.source m → IfOk result (λ byte. IfNone byte (length (content m path.now) ≤ self.now.size)) }
    {
        let mut one = [0];
        let n = bay.source_read(self.source, path, self.size, &mut one)?;
        Ok(if n == 0 { None } else { Some(one[0]) })
    }

    // The digests of what was read.
    fn finish(&mut self) -> Triple
        ensures same { (self.new.source ≡ self.old.source) × (self.new.size ≡ self.old.size) × (self.new.ring ≡ self.old.ring) × (standing self.new ≡ standing self.old) }
        ensures triple { (bytes : List ℕ) → AllFed Md5Fed Sha1Fed XxhFed self.old.run bytes → result ≡ triple bytes }
    {
        triple_of(std::mem::replace(&mut self.run, Fan::start()))
    }

    // One pick, and the act that follows from it.
    fn act<B: Bay>(&mut self, bay: &mut B, pool: &mut Pool, compare: &Slot, path: &str) -> Turn
        requires source { self.old.source < (B.world bay.old).attached.sources }
        requires drives { (d : ℕ) → has self.old.window.counts.live d ≡ true → d < (B.world bay.old).attached.drives }
        requires live { HasSome self.old.window.counts.live }
        requires pieces { lowest self.old.pieces ≡ None }
        requires owns { Owns self.old.ring.slots pool.old }
        requires free { self.old.window.counts.slots ≤ free_in pool.old.lent + taken self.old.ring.slots }
        requires compare { (is_lent pool.old compare.now ≡ true) × IsOut self.old.ring.slots compare.now }
        ensures same { (self.new.source ≡ self.old.source) × (self.new.size ≡ self.old.size) × (self.new.window.counts.slots ≡ self.old.window.counts.slots) }
        ensures pool { KeepsPool compare.now self.old.ring.slots self.new.ring.slots pool.old pool.new }
        ensures go_on { GoOn result self.old.window.counts.live self.new.window.counts.live }
        ensures nearer { Nearer result (turns_left (standing self.old)) (turns_left (standing self.new)) }
        ensures some { result ≢ NoDrive }
        ensures touches { Went (Touches self.old.source self.old.window.counts.live) (AreCopyCalls self.old.source path.now) (B.world bay.old) (B.world bay.new) }
        ensures cause { TurnCause self.old.source result (B.world bay.old) (B.world bay.new) }
        ensures steady { (m : Map) → Steady (B.world bay.old) self.old.source m → length (content m path.now) ≡ self.old.size → IsChanged result → ⊥ }
        ensures turned { (bytes : List ℕ) → Copying self.old pool.old (B.world bay.old) bytes
            → Turned path.now self.old self.new pool.new (B.world bay.old) (B.world bay.new) bytes result }
    {
        let pick = ask(bay);
        match self.window.next(pick) {
            Act::Read => match self.read_block(bay, pool, path) {
                Ok(None) => Turn::Going,
                Ok(Some(read)) => Turn::Changed {
                    listed: self.size,
                    read,
                },
                Err(_) => Turn::SourceFailed,
            },
            Act::Write { d, block } => match self.write_block(bay, pool, compare, d, block) {
                Ok(()) => Turn::Going,
                Err(_) => Turn::Dropped { d },
            },
            Act::Finished => match self.read_past(bay, path) {
                Ok(None) => Turn::Copied {
                    triple: self.finish(),
                },
                Ok(Some(_)) => Turn::Changed {
                    listed: self.size,
                    read: self.size + 1,
                },
                Err(_) => Turn::SourceFailed,
            },
        }
    }

    /// One turn. The first turns write an empty piece on each drive that keeps no part, in order; each later one asks for
    /// one pick, and does one act of the window: it reads the next block, brings a block to a drive's part, or asks the
    /// card for one byte at the size. `compare` is a slot of the pool that is not the copy's: what a kept part has at a
    /// block's place is read into it. `path` is the same in each turn. After `Copied`, `SourceFailed`, `Changed` or
    /// `NoDrive` there is no further turn. Takes no memory.
    pub fn turn<B: Bay>(
        &mut self,
        bay: &mut B,
        pool: &mut Pool,
        compare: &Slot,
        path: &PathText,
    ) -> Turn
        requires source { card_of self.old < (B.world bay.old).attached.sources }
        requires drives { (d : ℕ) → has (live_of self.old) d ≡ true → d < (B.world bay.old).attached.drives }
        requires owns { Owns (slots_of self.old) pool.old }
        requires free { slots_at_most self.old ≤ free_in pool.old.lent + taken (slots_of self.old) }
        requires compare { (is_lent pool.old compare.now ≡ true) × IsOut (slots_of self.old) compare.now }
        ensures same { (card_of self.new ≡ card_of self.old) × (size_of self.new ≡ size_of self.old) × (slots_at_most self.new ≡ slots_at_most self.old) }
        ensures pool { KeepsPool compare.now (slots_of self.old) (slots_of self.new) pool.old pool.new }
        ensures go_on { GoOn result (live_of self.old) (live_of self.new) }
        ensures nearer { Nearer result (turns_left (standing self.old)) (turns_left (standing self.new)) }
        ensures no_drive { result ≡ NoDrive → lowest (live_of self.old) ≡ None }
        ensures idle { lowest (live_of self.old) ≡ None → (result ≡ NoDrive) × (B.world bay.new ≡ B.world bay.old) × (pool.new ≡ pool.old) × (self.new ≡ self.old) }
        ensures touches { Went (Touches (card_of self.old) (live_of self.old)) (AreCopyCalls (card_of self.old) path.now) (B.world bay.old) (B.world bay.new) }
        ensures cause { TurnCause (card_of self.old) result (B.world bay.old) (B.world bay.new) }
        ensures leaves { (d : ℕ) → Leaves d IsAny (OnlyAt (λ q. q ≡ part_path)) (B.world bay.old) (B.world bay.new) }
        ensures steady { (m : Map) → Steady (B.world bay.old) (card_of self.old) m → length (content m path.now) ≡ size_of self.old → IsChanged result → ⊥ }
        ensures turned { (d : ℕ) → has (live_of self.old) d ≡ true → (bytes : List ℕ) → Copying self.old pool.old (B.world bay.old) bytes
            → Turned path.now self.old self.new pool.new (B.world bay.old) (B.world bay.new) bytes result }
    {
        if self.window.live().lowest().is_none() {
            return Turn::NoDrive;
        }
        match self.pieces.lowest() {
            Some(d) => match self.write_piece(bay, d) {
                Ok(()) => Turn::Going,
                Err(_) => Turn::Dropped { d },
            },
            None => self.act(bay, pool, compare, path.as_str()),
        }
    }

    /// The drives that were not dropped.
    pub fn live(&self) -> Drives
        ensures { result ≡ live_of self.now }
    {
        self.window.live()
    }

    /// How many slots of the pool the copy has.
    pub fn held(&self) -> u32
        ensures { result ≡ taken (slots_of self.now) }
    {
        self.ring.held()
    }

    /// Ends the copy, and gives its slots back.
    pub fn end(self, pool: &mut Pool)
        requires { Owns (slots_of self) pool.old }
        ensures { GivesAll (slots_of self) pool.old pool.new }
    {
        let mut ring = self.ring;
        ring.give_back(pool);
    }
}
