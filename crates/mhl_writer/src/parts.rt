//! The text of a list part by part, each part in a scratch.
ghost use Rattle.std.specs.Prelude.{◌≡◌, ◌≤◌, length, IsTrue};
ghost use Rattle.mhl_writer.specs.Note.{is_note};
ghost use Rattle.mhl_writer.specs.ListText.{head_text, creator_of, entry_text, entry_of, tail_text, has_digest};

use crate::lines::{put_digest_part, put_escaped_line, put_moment, put_note, put_number};
use path_text::{Moment, PathText, Scratch};

/// The creator of a list, borrowed: what stands before the entries.
#[derive(Clone, Copy, Debug)]
pub struct HeadPart<'a> {
    pub name: &'a str,
    pub username: &'a str,
    pub hostname: &'a str,
    pub tool: &'a str,
    pub started: Moment,
    pub finished: Moment,
}

/// One entry of a list, with its path borrowed.
#[derive(Clone, Copy, Debug)]
pub struct EntryPart<'a> {
    pub path: &'a PathText,
    pub size: u64,
    pub modified: Moment,
    pub hashed: Moment,
    pub md5: Option<[u8; 16]>,
    pub sha1: Option<[u8; 20]>,
    pub xxh: Option<[u8; 8]>,
}

/// Leaves in `out` what stands before the entries of a list. Its four texts are notes.
pub fn part_head(head: &HeadPart<'_>, out: &mut Scratch)
    requires name { IsTrue (is_note head.now.name.now) }
    requires username { IsTrue (is_note head.now.username.now) }
    requires hostname { IsTrue (is_note head.now.hostname.now) }
    requires tool { IsTrue (is_note head.now.tool.now) }
    ensures text { out.new ≡ head_text (creator_of head.now) }
    ensures fits { length out.new ≤ 8192 }
{
    out.clear();
    out.push(b"<?xml version=\"1.0\" encoding=\"UTF-8\"?>\n<hashlist version=\"1.1\">\n");
    out.push(b"  <creatorinfo>\n");
    put_note(out, b"    <name>", head.name, b"</name>\n");
    put_note(out, b"    <username>", head.username, b"</username>\n");
    put_note(out, b"    <hostname>", head.hostname, b"</hostname>\n");
    put_note(out, b"    <tool>", head.tool, b"</tool>\n");
    put_moment(out, b"    <startdate>", head.started, b"</startdate>\n");
    put_moment(out, b"    <finishdate>", head.finished, b"</finishdate>\n");
    out.push(b"  </creatorinfo>\n");
}

/// Leaves in `out` the text of one entry. It has at least one digest.
pub fn part_entry(entry: &EntryPart<'_>, out: &mut Scratch)
    requires { IsTrue (has_digest (entry_of entry.now)) }
    ensures text { out.new ≡ entry_text (entry_of entry.now) }
    ensures fits { length out.new ≤ 8192 }
{
    out.clear();
    out.push(b"  <hash>\n");
    put_escaped_line(
        out,
        b"    <file>",
        entry.path.as_str().as_bytes(),
        b"</file>\n",
    );
    put_number(out, b"    <size>", entry.size, b"</size>\n");
    put_moment(
        out,
        b"    <lastmodificationdate>",
        entry.modified,
        b"</lastmodificationdate>\n",
    );
    put_digest_part(out, b"    <md5>", &entry.md5, b"</md5>\n");
    put_digest_part(out, b"    <sha1>", &entry.sha1, b"</sha1>\n");
    put_digest_part(out, b"    <xxhash64be>", &entry.xxh, b"</xxhash64be>\n");
    put_moment(out, b"    <hashdate>", entry.hashed, b"</hashdate>\n");
    out.push(b"  </hash>\n");
}

/// Leaves in `out` what stands behind the entries of a list.
pub fn part_tail(out: &mut Scratch)
    ensures text { out.new ≡ tail_text }
    ensures fits { length out.new ≤ 8192 }
{
    out.clear();
    out.push(b"</hashlist>\n");
}
