// The list of a plan, its records and a finish, one part at a time.
ghost use Rattle.std.specs.Prelude.{◌≡◌, ◌+◌, ◌≤◌, ◌<◌, true, [], length, slice_index_or};
ghost use Rattle.path_text.specs.Kinds.{has_kind};
ghost use Rattle.mhl_writer.specs.ListText.{head_text, entry_text};
ghost use Rattle.offload_law.specs.Sealing.{shown, sealed_entry, sealed_creator};
ghost use Rattle.seal_step.specs.Parts.{list_parts};

use copy_plan::{Plan, PlannedFile};
use drive_journal::Rec;
use mhl_writer::{EntryPart, HeadPart, part_entry, part_head, part_tail};
use path_text::{Kinds, Moment, Scratch};

// The tool that each list names.
const TOOL: &str = "mhlstation 1";

/// What a list is made of (docs/FORMATS.md, "Lists"). There is one record for each file of the plan, in their order.
#[derive(Clone, Copy)]
pub struct ListParts<'a> {
    pub plan: &'a Plan,
    pub entries: &'a [Rec],
    pub finish: Moment,
}

impl ListParts<'_> {
    /// How many parts the list has: its head, the entry of each file, and its tail.
    pub fn count(&self) -> usize
        requires { length self.now.entries.now ≡ length self.now.plan.now.files }
        ensures count { result ≡ length (list_parts self.now.plan.now self.now.entries.now self.now.finish) }
        ensures few { result ≤ 262_146 }
    {
        self.plan.files().len() + 2
    }

    /// Leaves a part in `out`, counted from 0.
    pub fn part_into(&self, part: usize, out: &mut Scratch)
        requires whole { length self.now.entries.now ≡ length self.now.plan.now.files }
        requires part { part < length (list_parts self.now.plan.now self.now.entries.now self.now.finish) }
        ensures is { out.new ≡ slice_index_or (list_parts self.now.plan.now self.now.entries.now self.now.finish) part [] }
        ensures fits { length out.new ≤ 8192 }
    {
        let files = self.plan.files();
        if part == 0 {
            self.head_into(out);
        } else if part <= files.len() {
            let kinds = self.plan.kinds();
            entry_into(&files[part - 1], &self.entries[part - 1], kinds, out);
        } else {
            part_tail(out);
        }
    }

    // Leaves its head in `out`.
    fn head_into(&self, out: &mut Scratch)
        ensures text { out.new ≡ head_text (sealed_creator self.now.plan.now self.now.finish) }
        ensures fits { length out.new ≤ 8192 }
    {
        let head = HeadPart {
            name: self.plan.name().as_str(),
            username: self.plan.user().as_str(),
            hostname: self.plan.host().as_str(),
            tool: TOOL,
            started: self.plan.started(),
            finished: self.finish,
        };
        part_head(&head, out);
    }
}

// Leaves the entry of a file in `out`, with the digests of these kinds.
fn entry_into(file: &PlannedFile, rec: &Rec, kinds: Kinds, out: &mut Scratch)
    requires { has_kind kinds ≡ true }
    ensures text { out.new ≡ entry_text (sealed_entry kinds file.now rec.now) }
    ensures fits { length out.new ≤ 8192 }
{
    let entry = EntryPart {
        path: &file.path,
        size: file.size,
        modified: file.modified,
        hashed: rec.hashed,
        md5: shown(kinds.md5, &rec.triple.md5),
        sha1: shown(kinds.sha1, &rec.triple.sha1),
        xxh: shown(kinds.xxh, &rec.triple.xxh),
    };
    part_entry(&entry, out);
}

// A digest of a kind that the list shows.
fn shown<const N: usize>(kind: bool, digest: &[u8; N]) -> Option<[u8; N]>
    ensures { result ≡ shown kind digest.now }
{
    if kind { Some(*digest) } else { None }
}
