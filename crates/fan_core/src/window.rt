ghost use Rattle.std.specs.Prelude.{◌≡◌, ◌≤◌, ◌↔◌, true, slice_index};
ghost use Rattle.fan_core.specs.Flags.{has, HasSome, lowest};
ghost use Rattle.fan_core.specs.Next.{at_start, one_more_read, one_more_written, without_drive, next_act, held, fewest, waiting, chosen, CanRead, Done, IsWindow};

use crate::{Act, Counts, Drives};

/// The blocks of one file on their way from a card to the drives. A block is held from its read until
/// every live drive wrote it.
#[derive(Drop)]
pub struct Window {
    pub counts: Counts,
    pub ghost keeps: { IsWindow counts },
}

impl Window {
    /// The window of a file of this many blocks, none of them read.
    pub fn new(drives: Drives, blocks: u64, slots: u32) -> Window
        requires drives { HasSome drives }
        requires slots { 1 ≤ slots }
        ensures { result.counts ≡ at_start drives blocks slots }
    {
        Window {
            counts: Counts {
                blocks,
                read: 0,
                live: drives,
                written: [0; 8],
                slots,
            },
        }
    }

    /// What is done next. The pick is a wish for a drive; where it is not live, the lowest live drive is meant.
    pub fn next(&self, pick: u32) -> Act
        requires { HasSome self.now.counts.live }
        ensures act { result ≡ next_act self.now.counts pick }
        ensures finished { (result ≡ Act.Finished) ↔ Done self.now.counts }
    {
        let drive = self.chosen(pick);
        if self.is_waiting(drive) {
            return Act::Write {
                d: drive,
                block: self.written(drive),
            };
        }
        if self.counts.read < self.counts.blocks && self.held() < self.counts.slots as u64 {
            return Act::Read;
        }
        match self.lowest_waiting() {
            Some(d) => Act::Write {
                d,
                block: self.written(d),
            },
            None => Act::Finished,
        }
    }

    // The drive that a pick means.
    fn chosen(&self, pick: u32) -> u32
        ensures { result ≡ chosen self.now.counts pick }
    {
        if self.counts.live.has(pick) {
            pick
        } else {
            self.counts.live.lowest().unwrap_or(0)
        }
    }

    // Whether a drive is live and has a read block that it has not written.
    fn is_waiting(&self, d: u32) -> bool
        ensures { result ≡ has (waiting self.now.counts) d }
    {
        self.counts.live.has(d) && self.counts.written[d as usize] < self.counts.read
    }

    // The lowest live drive with a read block that it has not written.
    fn lowest_waiting(&self) -> Option<u32>
        ensures { result ≡ lowest (waiting self.now.counts) }
    {
        for d in 0..8 {
            if self.is_waiting(d) {
                return Some(d);
            }
        }
        None
    }

    // The fewest blocks that a live drive wrote.
    fn fewest(&self) -> u64
        ensures { result ≡ fewest self.now.counts.live self.now.counts.written self.now.counts.read }
    {
        let mut least = self.counts.read;
        for d in 0..8 {
            if self.counts.live.has(d) {
                least = least.min(self.counts.written[d as usize]);
            }
        }
        least
    }

    /// Notes that a block was read.
    pub fn done_read(&mut self)
        requires { CanRead self.old.counts }
        ensures { self.new.counts ≡ one_more_read self.old.counts }
    {
        self.counts.read += 1;
    }

    /// Notes that a drive wrote its next block.
    pub fn done_write(&mut self, d: u32)
        requires { has (waiting self.old.counts) d ≡ true }
        ensures { self.new.counts ≡ one_more_written self.old.counts d }
    {
        self.counts.written[d as usize] += 1;
    }

    /// Leaves a drive out from now on. Blocks that wait for it alone are held no longer.
    pub fn drop_drive(&mut self, d: u32)
        ensures { self.new.counts ≡ without_drive self.old.counts d }
    {
        self.counts.live = self.counts.live.without(d);
    }

    /// The drives that were not dropped.
    pub fn live(&self) -> Drives
        ensures { result ≡ self.now.counts.live }
    {
        self.counts.live
    }

    /// How many blocks may be held.
    pub fn slots(&self) -> u32
        ensures { result ≡ self.now.counts.slots }
    {
        self.counts.slots
    }

    /// How many blocks are read.
    pub fn read_count(&self) -> u64
        ensures { result ≡ self.now.counts.read }
    {
        self.counts.read
    }

    /// How many blocks a drive wrote; 0 above 7.
    pub fn written(&self, d: u32) -> u64
        ensures { result ≡ slice_index self.now.counts.written d }
    {
        if d < 8 {
            self.counts.written[d as usize]
        } else {
            0
        }
    }

    /// How many blocks are held: those read that some live drive has not written.
    pub fn held(&self) -> u64
        ensures { result ≡ held self.now.counts }
    {
        self.counts.read - self.fewest()
    }
}
