// The lines of the values of an entry that differ from those of its file.
ghost use Rattle.std.specs.Prelude.{◌≡◌, ℕ, List, length, IfSome, option_map};
ghost use Rattle.std.specs.List.{flat_map, AllByRecursion};
ghost use Rattle.md5.specs.Md5.{md5};
ghost use Rattle.sha1.specs.Sha1.{sha1};
ghost use Rattle.digest_set.specs.Xxh.{xxh};
ghost use Rattle.report_text.specs.Line.{IsSayable, altered_md5_text, altered_sha1_text, altered_xxhash64be_text};
ghost use Rattle.verify_run.specs.Report.{size_lines, digest_lines, altered_lines};
ghost use Rattle.verify_run.specs.Results.{DigestsOf, texts};

use crate::reading::FileRead;
use mhl_writer::HashEntry;
use report_text::Line;

fn size_line<'a>(entry: &'a HashEntry, len: u64) -> Option<Line<'a>>
    ensures text { (bytes : List ℕ) → len ≡ length bytes → texts result ≡ size_lines entry.now.path entry.now.size bytes }
    ensures short { IfSome result IsSayable }
{
    match entry.size {
        Some(listed) if listed != len => {
            Some(Line::AlteredSize(listed, len, entry.path.as_str()))
        }
        _ => None,
    }
}

fn md5_line<'a>(entry: &'a HashEntry, found: Option<[u8; 16]>) -> Option<Line<'a>>
    ensures text { (bytes : List ℕ) → found ≡ option_map (λ _. md5 bytes) entry.now.md5 → texts result ≡ digest_lines md5 altered_md5_text entry.now.path entry.now.md5 bytes }
    ensures short { IfSome result IsSayable }
{
    let (Some(listed), Some(found)) = (entry.md5, found) else {
        return None;
    };
    if listed.as_slice() == found.as_slice() {
        return None;
    }
    Some(Line::AlteredMd5(listed, found, entry.path.as_str()))
}

fn sha1_line<'a>(entry: &'a HashEntry, found: Option<[u8; 20]>) -> Option<Line<'a>>
    ensures text { (bytes : List ℕ) → found ≡ option_map (λ _. sha1 bytes) entry.now.sha1 → texts result ≡ digest_lines sha1 altered_sha1_text entry.now.path entry.now.sha1 bytes }
    ensures short { IfSome result IsSayable }
{
    let (Some(listed), Some(found)) = (entry.sha1, found) else {
        return None;
    };
    if listed.as_slice() == found.as_slice() {
        return None;
    }
    Some(Line::AlteredSha1(listed, found, entry.path.as_str()))
}

fn xxh_line<'a>(entry: &'a HashEntry, found: Option<[u8; 8]>) -> Option<Line<'a>>
    ensures text { (bytes : List ℕ) → found ≡ option_map (λ _. xxh bytes) entry.now.xxh → texts result ≡ digest_lines xxh altered_xxhash64be_text entry.now.path entry.now.xxh bytes }
    ensures short { IfSome result IsSayable }
{
    let (Some(listed), Some(found)) = (entry.xxh, found) else {
        return None;
    };
    if listed.as_slice() == found.as_slice() {
        return None;
    }
    Some(Line::AlteredXxhash64be(listed, found, entry.path.as_str()))
}

/// A line for each recorded value that differs from that of the file, in the order size, MD5, SHA-1, XXH64.
pub fn altered_lines<'a>(entry: &'a HashEntry, found: &FileRead) -> [Option<Line<'a>>; 4]
    ensures text { (bytes : List ℕ) → found.now.len ≡ length bytes → DigestsOf entry.now found.now bytes → flat_map texts result ≡ altered_lines entry.now bytes }
    ensures short { AllByRecursion (λ line. IfSome line IsSayable) result }
{
    [
        size_line(entry, found.len),
        md5_line(entry, found.md5),
        sha1_line(entry, found.sha1),
        xxh_line(entry, found.xxh),
    ]
}
