// The lines of a verification, those on a list that cannot be read, and `memory`.
ghost use Rattle.std.specs.Prelude.{◌≡◌, ◌≤◌, length, false};
ghost use Rattle.report_text.specs.Groups.{is_run, is_loss, is_failure, is_refusal, is_standing, is_table};
ghost use Rattle.report_text.specs.Line.{line_text, unreadable_text, IsSayable};

use crate::Line;
use crate::fields::{add, add_number, begin};
use crate::forms::{add_count, add_numbers, with_digests, with_number, with_path};
use path_text::Scratch;

// A line of the fault of a list and its place.
fn unreadable(out: &mut Scratch, what: &str, at: u64)
    requires { length what.now ≤ 1024 }
    ensures text { out.new ≡ unreadable_text what.now at }
    ensures len { length out.new ≤ 2048 }
{
    begin(out, b"unreadable");
    add(out, what.as_bytes());
    add_number(out, at);
}

/// Leaves a line in `out` that none of the other groups has.
pub fn report_line(line: &Line<'_>, out: &mut Scratch)
    requires short { IsSayable line.now }
    requires run { is_run line.now ≡ false }
    requires loss { is_loss line.now ≡ false }
    requires failure { is_failure line.now ≡ false }
    requires refusal { is_refusal line.now ≡ false }
    requires standing { is_standing line.now ≡ false }
    requires table { is_table line.now ≡ false }
    ensures text { out.new ≡ line_text line.now }
    ensures len { length out.new ≤ 2048 }
{
    match line {
        Line::Missing(path) => with_path(out, b"missing", path),
        Line::Unchecked(path) => with_path(out, b"unchecked", path),
        Line::Unlisted(path) => with_path(out, b"unlisted", path),
        Line::AlteredSize(listed, found, path) => {
            begin(out, b"altered size");
            add_numbers(out, *listed, *found, path);
        }
        Line::AlteredMd5(listed, found, path) => {
            with_digests(out, b"altered md5", listed, found, path)
        }
        Line::AlteredSha1(listed, found, path) => {
            with_digests(out, b"altered sha1", listed, found, path)
        }
        Line::AlteredXxhash64be(listed, found, path) => {
            with_digests(out, b"altered xxhash64be", listed, found, path)
        }
        Line::Verdict(word, entries, missing, altered, unchecked, unlisted) => {
            begin(out, b"verdict");
            add(out, word.as_bytes());
            add_count(out, *entries, b"entries");
            add_count(out, *missing, b"missing");
            add_count(out, *altered, b"altered");
            add_count(out, *unchecked, b"unchecked");
            add_count(out, *unlisted, b"unlisted");
        }
        Line::UnreadableAbsent => begin(out, b"unreadable absent"),
        Line::UnreadableToolarge(len) => with_number(out, b"unreadable toolarge", *len),
        Line::UnreadableVersion => begin(out, b"unreadable version"),
        Line::Unreadable(what, at) => unreadable(out, what, *at),
        Line::Memory => begin(out, b"memory"),
        _ => unreachable!(),
    }
}
