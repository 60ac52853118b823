//! The whole text of a list.
ghost use Rattle.std.specs.Prelude.{◌≡◌, IfOk, IsSome, Some};
ghost use Rattle.mhl_writer.specs.ListText.{IsWholeCreator, IsWholeEntry, IsCanonical, creator_of, entry_of, list_text, values_of};

use crate::note::NoteText;
use crate::parts::{EntryPart, HeadPart, part_entry, part_head, part_tail};
use crate::values::{Creator, HashEntry, HashList};
use path_text::Scratch;
use std::alloc::{AllocError, Global};

// The text of a note that is there.
fn text_of(note: &Option<NoteText>) -> &str
    requires { IsSome note.now }
    ensures { Some result.now ≡ note.now }
{
    match note {
        Some(note) => note.as_str(),
        None => unreachable!(),
    }
}

fn head_part(creator: &Creator) -> HeadPart<'_>
    requires { IsWholeCreator creator.now }
    ensures { creator_of result ≡ creator.now }
{
    HeadPart {
        name: text_of(&creator.name),
        username: text_of(&creator.username),
        hostname: text_of(&creator.hostname),
        tool: text_of(&creator.tool),
        started: creator.started.unwrap(),
        finished: creator.finished.unwrap(),
    }
}

fn entry_part(entry: &HashEntry) -> EntryPart<'_>
    requires { IsWholeEntry entry.now }
    ensures { entry_of result ≡ entry.now }
{
    EntryPart {
        path: &entry.path,
        size: entry.size.unwrap(),
        modified: entry.modified.unwrap(),
        hashed: entry.hashed.unwrap(),
        md5: entry.md5,
        sha1: entry.sha1,
        xxh: entry.xxh,
    }
}

/// The canonical text of a list (docs/FORMATS.md, "Lists"). All of its creator is there, no two entries have the same
/// path, there are at most 262,144 of them, and each has its size, both its moments and at least one digest.
pub fn write_list(alloc: Global, list: &HashList) -> Result<Vec<u8>, AllocError>
    requires { IsCanonical (values_of list.now) }
    ensures { IfOk result (λ text. text.items ≡ list_text (values_of list.now)) }
{
    let mut part = Scratch::new(alloc)?;
    let mut text = Vec::new(alloc);
    part_head(&head_part(&list.creator), &mut part);
    text.extend_from_slice(part.bytes())?;
    for entry in &list.entries {
        part_entry(&entry_part(entry), &mut part);
        text.extend_from_slice(part.bytes())?;
    }
    part_tail(&mut part);
    text.extend_from_slice(part.bytes())?;
    Ok(text)
}
