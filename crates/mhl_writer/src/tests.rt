ghost use Rattle.std.specs.Prelude.{◌≤◌, IfOk, IfSome, IsTrue};
ghost use Rattle.path_text.specs.Path.{is_path};
ghost use Rattle.path_text.specs.Moment.{last_moment};
ghost use Rattle.mhl_writer.specs.Note.{is_note};
ghost use Rattle.mhl_writer.specs.ListText.{IsCanonical, IsDigest, values_of};

use super::*;
use path_text::{Moment, PathText, Scratch};
use std::alloc::Global;
use std::process::Abort;
use std::test::Fail;

// 2014-10-24, at 00:00:00Z and at 12:00:00Z.
const MIDNIGHT: u64 = 1_414_108_800;

const NOON: u64 = 1_414_152_000;

// The digests of the empty file.
const MD5: [u8; 16] = [
    0xd4, 0x1d, 0x8c, 0xd9, 0x8f, 0x00, 0xb2, 0x04, 0xe9, 0x80, 0x09, 0x98, 0xec, 0xf8, 0x42, 0x7e,
];

const SHA1: [u8; 20] = [
    0xda, 0x39, 0xa3, 0xee, 0x5e, 0x6b, 0x4b, 0x0d, 0x32, 0x55, 0xbf, 0xef, 0x95, 0x60, 0x18, 0x90,
    0xaf, 0xd8, 0x07, 0x09,
];

const XXH: [u8; 8] = [0xef, 0x46, 0xdb, 0x37, 0x51, 0xd8, 0xe9, 0x99];

// The MD5 of `abc`.
const MD5_ABC: [u8; 16] = [
    0x90, 0x01, 0x50, 0x98, 0x3c, 0xd2, 0x4f, 0xb0, 0xd6, 0x96, 0x3f, 0x7d, 0x28, 0xe1, 0x7f, 0x72,
];

const HEAD: &str = "<?xml version=\"1.0\" encoding=\"UTF-8\"?>
<hashlist version=\"1.1\">
  <creatorinfo>
    <name>A001</name>
    <username>ana</username>
    <hostname>cart1</hostname>
    <tool>mhlstation 1</tool>
    <startdate>2014-10-24T12:00:00Z</startdate>
    <finishdate>2014-10-24T12:00:00Z</finishdate>
  </creatorinfo>
";

const ALL: &str = "  <hash>
    <file>e.mov</file>
    <size>0</size>
    <lastmodificationdate>2014-10-24T00:00:00Z</lastmodificationdate>
    <md5>d41d8cd98f00b204e9800998ecf8427e</md5>
    <sha1>da39a3ee5e6b4b0d3255bfef95601890afd80709</sha1>
    <xxhash64be>ef46db3751d8e999</xxhash64be>
    <hashdate>2014-10-24T12:00:00Z</hashdate>
  </hash>
";

const MD5_ALONE: &str = "  <hash>
    <file>a.mov</file>
    <size>3</size>
    <lastmodificationdate>2014-10-24T00:00:00Z</lastmodificationdate>
    <md5>900150983cd24fb0d6963f7d28e17f72</md5>
    <hashdate>2014-10-24T12:00:00Z</hashdate>
  </hash>
";

const SHA1_ALONE: &str = "  <hash>
    <file>&lt;b&gt; &amp; 'c\".mov</file>
    <size>18446744073709551615</size>
    <lastmodificationdate>1970-01-01T00:00:00Z</lastmodificationdate>
    <sha1>da39a3ee5e6b4b0d3255bfef95601890afd80709</sha1>
    <hashdate>9999-12-31T23:59:59Z</hashdate>
  </hash>
";

const XXH_ALONE: &str = "  <hash>
    <file>Clips/\u{e9}.mov</file>
    <size>10</size>
    <lastmodificationdate>2014-10-24T00:00:00Z</lastmodificationdate>
    <xxhash64be>ef46db3751d8e999</xxhash64be>
    <hashdate>2014-10-24T12:00:00Z</hashdate>
  </hash>
";

const TAIL: &str = "</hashlist>\n";

fn moment(rt: &impl Abort, seconds: u64) -> Moment
    ensures { result ≤ last_moment }
{
    Moment::new(seconds).expect(rt, "a moment")
}

fn note(rt: &impl Abort, alloc: Global, text: &str) -> Result<NoteText, Fail>
    ensures { IfOk result (λ note. IsTrue (is_note note)) }
{
    let note = NoteText::read(alloc, text)?;
    Ok(note.expect(rt, "a note"))
}

fn path(alloc: Global, text: &str) -> Result<PathText, Fail>
    ensures { IfOk result (λ path. IsTrue (is_path path)) }
{
    Ok(PathText::read(alloc, text)?)
}

#[test]
fn parts_are_written(rt: HostRuntime) -> Result<(), Fail> {
    let mut out = Scratch::new(rt.alloc())?;
    let name = note(&rt, rt.alloc(), "A001")?;
    let username = note(&rt, rt.alloc(), "ana")?;
    let hostname = note(&rt, rt.alloc(), "cart1")?;
    let tool = note(&rt, rt.alloc(), "mhlstation 1")?;
    let head = HeadPart {
        name: name.as_str(),
        username: username.as_str(),
        hostname: hostname.as_str(),
        tool: tool.as_str(),
        started: moment(&rt, NOON),
        finished: moment(&rt, NOON),
    };
    part_head(&head, &mut out);
    assert_eq!(rt; out.bytes(), HEAD.as_bytes());
    part_tail(&mut out);
    assert_eq!(rt; out.bytes(), TAIL.as_bytes());
    Ok(())
}

#[test]
fn entries_are_written(rt: HostRuntime) -> Result<(), Fail> {
    let mut out = Scratch::new(rt.alloc())?;
    let all = PathText::read(rt.alloc(), "e.mov")?;
    let entry = EntryPart {
        path: &all,
        size: 0,
        modified: moment(&rt, MIDNIGHT),
        hashed: moment(&rt, NOON),
        md5: Some(MD5),
        sha1: Some(SHA1),
        xxh: Some(XXH),
    };
    part_entry(&entry, &mut out);
    assert_eq!(rt; out.bytes(), ALL.as_bytes());
    let escaped = PathText::read(rt.alloc(), "<b> & 'c\".mov")?;
    let entry = EntryPart {
        path: &escaped,
        size: u64::MAX,
        modified: moment(&rt, 0),
        hashed: moment(&rt, 253_402_300_799),
        md5: None,
        sha1: Some(SHA1),
        xxh: None,
    };
    part_entry(&entry, &mut out);
    assert_eq!(rt; out.bytes(), SHA1_ALONE.as_bytes());
    let accented = PathText::read(rt.alloc(), "Clips/\u{e9}.mov")?;
    let entry = EntryPart {
        path: &accented,
        size: 10,
        modified: moment(&rt, MIDNIGHT),
        hashed: moment(&rt, NOON),
        md5: None,
        sha1: None,
        xxh: Some(XXH),
    };
    part_entry(&entry, &mut out);
    assert_eq!(rt; out.bytes(), XXH_ALONE.as_bytes());
    Ok(())
}

// A list of one entry.
fn list(
    rt: &impl Abort,
    alloc: Global,
    path: PathText,
    size: u64,
    md5: &[u8; 16],
    sha1: Option<[u8; 20]>,
    xxh: Option<[u8; 8]>,
) -> Result<HashList, Fail>
    requires path { IsTrue (is_path path) }
    requires sha1 { IfSome sha1 (IsDigest 20) }
    requires xxh { IfSome xxh (IsDigest 8) }
    ensures { IfOk result (λ list. IsCanonical (values_of list)) }
{
    let mut entries = Vec::new(alloc);
    entries.push(HashEntry {
        path,
        size: Some(size),
        modified: Some(moment(rt, MIDNIGHT)),
        hashed: Some(moment(rt, NOON)),
        md5: Some(*md5),
        sha1,
        xxh,
    })?;
    let creator = Creator {
        name: Some(note(rt, alloc, "A001")?),
        username: Some(note(rt, alloc, "ana")?),
        hostname: Some(note(rt, alloc, "cart1")?),
        tool: Some(note(rt, alloc, "mhlstation 1")?),
        started: Some(moment(rt, NOON)),
        finished: Some(moment(rt, NOON)),
    };
    Ok(HashList { creator, entries })
}

#[test]
fn a_list_is_written(rt: HostRuntime) -> Result<(), Fail> {
    let path = path(rt.alloc(), "a.mov")?;
    let list = list(&rt, rt.alloc(), path, 3, &MD5_ABC, None, None)?;
    let text = write_list(rt.alloc(), &list)?;
    let wanted = format!(in rt.alloc(); "{HEAD}{MD5_ALONE}{TAIL}")?;
    assert_eq!(rt; text.as_slice(), wanted.as_bytes());
    Ok(())
}

#[test]
fn a_list_of_all_digests_is_written(rt: HostRuntime) -> Result<(), Fail> {
    let path = path(rt.alloc(), "e.mov")?;
    let list = list(&rt, rt.alloc(), path, 0, &MD5, Some(SHA1), Some(XXH))?;
    let text = write_list(rt.alloc(), &list)?;
    let wanted = format!(in rt.alloc(); "{HEAD}{ALL}{TAIL}")?;
    assert_eq!(rt; text.as_slice(), wanted.as_bytes());
    Ok(())
}
