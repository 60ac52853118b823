// The lines on what was lost or failed.
ghost use Rattle.std.specs.Prelude.{◌≡◌, ◌≤◌, [], ◌∷◌, length, true, codes, decimal};
ghost use Rattle.hex.specs.Hex.{encode_lower};
ghost use Rattle.report_text.specs.Fields.{fields};
ghost use Rattle.report_text.specs.Groups.{is_loss, is_failure};
ghost use Rattle.report_text.specs.Line.{line_text, IsSayable};

use crate::Line;
use crate::fields::begin;
use crate::forms::{
    add_bytes, add_digests, add_numbers, add_path, add_triples, of_number, with_digests,
    with_number, with_path,
};
use path_text::Scratch;

/// Leaves a line in `out` that says that a drive was dropped, or what was lost of it or of its files in place; false
/// where the line is another one.
pub fn loss_line(line: &Line<'_>, out: &mut Scratch) -> bool
    requires { IsSayable line.now }
    ensures which { result ≡ is_loss line.now }
    ensures text { result ≡ true → out.new ≡ line_text line.now }
    ensures len { result ≡ true → length out.new ≤ 2048 }
{
    match line {
        Line::DroppedFault(d) => of_number(out, b"dropped", *d, b"fault"),
        Line::DroppedAbsent(d, path) => {
            of_number(out, b"dropped", *d, b"absent");
            add_path(out, path);
        }
        Line::DroppedLength(d, recorded, read, path) => {
            of_number(out, b"dropped", *d, b"length");
            add_numbers(out, *recorded, *read, path);
        }
        Line::DroppedAltered(d, recorded, read, path) => {
            of_number(out, b"dropped", *d, b"altered");
            add_triples(out, recorded, read, path);
        }
        Line::DroppedByte(d, at, written, read, list) => {
            of_number(out, b"dropped", *d, b"byte");
            add_bytes(out, *at, *written, *read, list);
        }
        Line::FailedListAbsent(list) => with_path(out, b"failed list absent", list),
        Line::FailedListLength(written, read, list) => {
            begin(out, b"failed list length");
            add_numbers(out, *written, *read, list);
        }
        Line::FailedListByte(at, written, read, list) => {
            begin(out, b"failed list byte");
            add_bytes(out, *at, *written, *read, list);
        }
        Line::FailedGone(path) => with_path(out, b"failed gone", path),
        Line::FailedLength(listed, read, path) => {
            begin(out, b"failed length");
            add_numbers(out, *listed, *read, path);
        }
        _ => return false,
    }
    true
}

// A line on the card of a job, with what is altered, the digests that were listed and read, and the path.
fn altered_job(out: &mut Scratch, job: u32, what: &[u8], listed: &[u8], read: &[u8], path: &str)
    requires what { length what.now ≤ 32 }
    requires listed { length listed.now ≤ 20 }
    requires read { length read.now ≤ 20 }
    requires path { length path.now ≤ 1024 }
    ensures text { out.new ≡ fields (codes "jobfailed") (decimal job ∷ what.now ∷ encode_lower listed.now ∷ encode_lower read.now ∷ path.now ∷ []) }
    ensures len { length out.new ≤ 2048 }
{
    of_number(out, b"jobfailed", job, what);
    add_digests(out, listed, read, path);
}

/// Leaves a line in `out` that says which attach or device failed, or how a card was not as it was listed; false where
/// the line is another one.
pub fn failure_line(line: &Line<'_>, out: &mut Scratch) -> bool
    requires { IsSayable line.now }
    ensures which { result ≡ is_failure line.now }
    ensures text { result ≡ true → out.new ≡ line_text line.now }
    ensures len { result ≡ true → length out.new ≤ 2048 }
{
    match line {
        Line::FailedAttachCard => begin(out, b"failed attach card"),
        Line::FailedAttachDrive(d) => with_number(out, b"failed attach drive", u64::from(*d)),
        Line::FailedCard => begin(out, b"failed card"),
        Line::FailedCardChanged(listed, read, path) => {
            begin(out, b"failed card changed");
            add_numbers(out, *listed, *read, path);
        }
        Line::FailedCardAlteredMd5(listed, read, path) => {
            with_digests(out, b"failed card altered md5", listed, read, path)
        }
        Line::FailedCardAlteredSha1(listed, read, path) => {
            with_digests(out, b"failed card altered sha1", listed, read, path)
        }
        Line::FailedCardAlteredXxhash64be(listed, read, path) => {
            with_digests(out, b"failed card altered xxhash64be", listed, read, path)
        }
        Line::FailedDrive => begin(out, b"failed drive"),
        Line::JobfailedCard(job) => of_number(out, b"jobfailed", *job, b"card"),
        Line::JobfailedChanged(job, listed, read, path) => {
            of_number(out, b"jobfailed", *job, b"changed");
            add_numbers(out, *listed, *read, path);
        }
        Line::JobfailedAlteredMd5(job, listed, read, path) => {
            altered_job(out, *job, b"altered md5", listed, read, path)
        }
        Line::JobfailedAlteredSha1(job, listed, read, path) => {
            altered_job(out, *job, b"altered sha1", listed, read, path)
        }
        Line::JobfailedAlteredXxhash64be(job, listed, read, path) => {
            altered_job(out, *job, b"altered xxhash64be", listed, read, path)
        }
        _ => return false,
    }
    true
}
