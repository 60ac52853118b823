ghost use Rattle.std.specs.Prelude.{◌≡◌, ◌+◌, ◌-◌, ◌^◌, ◌<◌, ◌≤◌, ℕ, List, [], ◌∷◌, length, true, is_ok, is_some, OnOk, IfOk, IfSome, IsErrOf};
ghost use Rattle.std.specs.FinMap.{get};
ghost use Rattle.bay_core.specs.declared.event.Event.{Event};
ghost use Rattle.bay_core.specs.declared.event.Event.TheVariants.{Moment, Pick};
ghost use Rattle.bay_core.specs.declared.failed.ListError.TheVariants.{Memory};
ghost use Rattle.bay_core.specs.Map.{Map, ReadsAs, ReadsSome, Lists};
ghost use Rattle.bay_core.specs.Replay.{Source, Drive, Clock, Picker, Output, reads, dated};
ghost use Rattle.bay_core.specs.World.{World, Honest, Steady};
ghost use Rattle.bay_core.specs.Went.{Called, Tried, Ran, IsCall, CardReadCall, CardListCall, ReadCall, ListCall, no_fault, write_call, sync_call, rename_call, remove_call, say_call};
ghost use Rattle.bay_core.specs.Attach.{Attaches, CardAttaches};

use crate::{Failed, FileInfo, ListError};
use std::alloc::Global;

/// The outside: cards, drives, output, clock and picker. Cards and drives are numbered from 0 as they are attached.
///
/// After a call on a drive that answered Failed, no further call is made on it in that run.
pub trait Bay {
    /// The calls so far where they are told, the counts of faults, and what is known of the cards and drives.
    ghost world: { Self → World };

    /// Attaches the card at a place. The answer is its number.
    fn attach_source(&mut self, place: &str) -> Result<u32, Failed>
        requires { (world self.old).attached.sources < 2 ^ 32 - 1 }
        ensures { CardAttaches place.now result (world self.old) (world self.new) };

    /// Attaches the drive at a place. The answer is its number. It is a barrier: nothing is pending on the drive then.
    fn attach_drive(&mut self, place: &str) -> Result<u32, Failed>
        requires { (world self.old).attached.drives < 2 ^ 32 - 1 }
        ensures { Attaches place.now result (world self.old) (world self.new) };

    /// Lists every file of a steady card once, in any order, with its size in bytes and the second since 1970 at which
    /// it was changed last.
    fn source_list(&mut self, alloc: Global, s: u32) -> Result<Vec<FileInfo>, ListError>
        requires { s < (world self.old).attached.sources }
        ensures called { Called (Source s) (CardListCall s result) (no_fault result) (world self.old) (world self.new) }
        ensures memory { IsErrOf result Memory → world self.new ≡ world self.old }
        ensures steady { (m : Map) → Steady (world self.old) s m → IfOk result (λ files. Lists m ((world self.old).attached.card_dates s) files.items) };

    /// Reads a file's bytes from `at` on into a buffer, and says how many: 0 only at or past the file's end, or where the
    /// buffer is empty. Of a steady card only a file that is there is read.
    fn source_read(&mut self, s: u32, path: &str, at: u64, into: &mut [u8]) -> Result<usize, Failed>
        requires { s < (world self.old).attached.sources }
        ensures bound { IfOk result (λ n. n ≤ length into.new) }
        ensures called { Called (Source s) (CardReadCall s path.now at into.new result) (is_ok result) (world self.old) (world self.new) }
        ensures steady { (m : Map) → Steady (world self.old) s m → IfOk result (ReadsSome m path.now at into.new) };

    /// Lists every file of an honest drive once, in any order, with its size in bytes and the
    /// second since 1970 at which it was changed last.
    fn drive_list(&mut self, alloc: Global, d: u32) -> Result<Vec<FileInfo>, ListError>
        requires { d < (world self.old).attached.drives }
        ensures called { Called (Drive d) (ListCall d result) (no_fault result) (world self.old) (world self.new) }
        ensures memory { IsErrOf result Memory → world self.new ≡ world self.old }
        ensures honest { (m : Map) (L : List Event) → Honest (world self.old) d m L → IfOk result (λ files. Lists (reads m L d) (dated ((world self.old).attached.dates d) L d) files.items) };

    /// Reads a file's bytes from `at` on into a buffer, and says how many. `None` where an honest
    /// drive has no such file; 0 only at or past the file's end, or where the buffer is empty.
    fn drive_read(
        &mut self,
        d: u32,
        path: &str,
        at: u64,
        into: &mut [u8],
    ) -> Result<Option<usize>, Failed>
        requires { d < (world self.old).attached.drives }
        ensures bound { IfOk result (λ got. IfSome got (λ n. n ≤ length into.new)) }
        ensures called { Called (Drive d) (ReadCall d path.now at into.new result) (is_ok result) (world self.old) (world self.new) }
        ensures honest { (m : Map) (L : List Event) → Honest (world self.old) d m L → IfOk result (ReadsAs (reads m L d) path.now at into.new) };

    /// Writes bytes to a file from `at` on. Makes the file and its folders where they are absent, also for no bytes. Bytes
    /// between the old end and `at` become 0.
    fn write(&mut self, d: u32, path: &str, at: u64, bytes: &[u8]) -> Result<(), Failed>
        requires drive { d < (world self.old).attached.drives }
        requires range { at + length bytes.now < 2 ^ 63 }
        ensures { Tried d (write_call d path.now at bytes.now ∷ []) (is_ok result) (world self.old) (world self.new) };

    /// The barrier of the whole drive.
    fn sync(&mut self, d: u32) -> Result<(), Failed>
        requires { d < (world self.old).attached.drives }
        ensures { Tried d (sync_call d ∷ []) (is_ok result) (world self.old) (world self.new) };

    /// Renames a file. Makes the folders of `to` where they are absent, and replaces a file that is there. A `from` that is
    /// absent on an honest drive is Failed.
    fn rename(&mut self, d: u32, from: &str, to: &str) -> Result<(), Failed>
        requires { d < (world self.old).attached.drives }
        ensures called { Tried d (rename_call d from.now to.now ∷ []) (is_ok result) (world self.old) (world self.new) }
        ensures there { (m : Map) (L : List Event) → Honest (world self.old) d m L → OnOk result (is_some (get (reads m L d) from.now) ≡ true) };

    /// Removes a file. An absent path is Ok and changes nothing.
    fn remove(&mut self, d: u32, path: &str) -> Result<(), Failed>
        requires { d < (world self.old).attached.drives }
        ensures { Tried d (remove_call d path.now ∷ []) (is_ok result) (world self.old) (world self.new) };

    /// Seconds since 1970-01-01T00:00:00Z, at most those of 9999-12-31T23:59:59Z.
    fn moment(&mut self) -> u64
        ensures range { result ≤ 253_402_300_799 }
        ensures called { Called Clock (IsCall (Moment result)) true (world self.old) (world self.new) };

    /// Any number.
    fn pick(&mut self) -> u32
        ensures { Called Picker (IsCall (Pick result)) true (world self.old) (world self.new) };

    /// Says one line, given without its line feed.
    fn say(&mut self, line: &[u8]) -> Result<(), Failed>
        ensures { Called Output (Ran (say_call line.now ∷ []) (is_ok result)) (is_ok result) (world self.old) (world self.new) };
}
