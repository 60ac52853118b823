// The lines of a printed list: those of its creator, and the columns of an entry.
ghost use Rattle.std.specs.Prelude.{◌≡◌, ◌+◌, ◌-◌, ◌*◌, ◌≤◌, ◌++◌, [], ◌∷◌, length, true, replicate, decimal, option_map, IfSome};
ghost use Rattle.hex.specs.Hex.{encode_lower};
ghost use Rattle.path_text.specs.Moment.{moment_text};
ghost use Rattle.report_text.specs.Groups.{is_table};
ghost use Rattle.report_text.specs.Line.{right, left, or_dash, line_text, note_text, date_text, IsSayable};

use crate::Line;
use crate::fields::{add, add_digest, begin};
use crate::forms::with_number;
use itoa::Buffer;
use path_text::{Moment, Scratch};

// The spaces of the widest column, which is that of the SHA-1 digits.
const SPACES: [u8; 40] = [b' '; 40];

// Adds so many spaces.
fn pad(out: &mut Scratch, count: usize)
    requires few { count ≤ 40 }
    requires room { length out.old ≤ 2008 }
    ensures text { out.new ≡ out.old ++ replicate count 32 }
    ensures len { length out.new ≡ length out.old + count }
{
    out.push(&SPACES[..count]);
}

// Begins a line with a field that stands right in so many places.
fn begin_right(out: &mut Scratch, field: &[u8], places: usize)
    requires fits { length field.now ≤ places }
    requires places { places ≤ 32 }
    ensures text { out.new ≡ right places field.now }
    ensures len { length out.new ≡ places }
{
    out.clear();
    pad(out, places - field.len());
    out.push(field);
}

// Adds a field that stands left in so many places.
fn add_left(out: &mut Scratch, field: &[u8], places: usize)
    requires fits { length field.now ≤ places }
    requires places { places ≤ 40 }
    requires room { length out.old ≤ 1900 }
    ensures text { out.new ≡ out.old ++ 32 ∷ left places field.now }
    ensures len { length out.new ≡ length out.old + places + 1 }
{
    add(out, field);
    pad(out, places - field.len());
}

// Begins a line with a size, right in 20 places.
fn begin_size(out: &mut Scratch, size: &Option<u64>)
    ensures text { out.new ≡ right 20 (or_dash (option_map decimal size.now)) }
    ensures len { length out.new ≡ 20 }
{
    match size {
        Some(size) => {
            let mut buffer = Buffer::new();
            begin_right(out, buffer.format(*size).as_bytes(), 20);
        }
        None => begin_right(out, b"-", 20),
    }
}

// Adds a date, left in 20 places.
fn add_date(out: &mut Scratch, moment: &Option<Moment>)
    requires { length out.old ≤ 1900 }
    ensures text { out.new ≡ out.old ++ 32 ∷ left 20 (or_dash (option_map moment_text moment.now)) }
    ensures len { length out.new ≡ length out.old + 21 }
{
    match moment {
        Some(moment) => add_left(out, &moment.text(), 20),
        None => add_left(out, b"-", 20),
    }
}

// Adds the lower case digits of a digest, which take all the places of their column.
fn add_digits<const N: usize>(out: &mut Scratch, digest: &[u8; N])
    requires size { N ≤ 20 }
    requires room { length out.old ≤ 1900 }
    ensures text { out.new ≡ out.old ++ 32 ∷ left (2 * N) (encode_lower digest.now) }
    ensures len { length out.new ≤ length out.old + 41 }
{
    add_digest(out, digest.as_slice());
}

// Adds a digest in lower case digits, left in as many places as it has digits.
fn add_digest_column<const N: usize>(out: &mut Scratch, digest: &Option<[u8; N]>)
    requires size { N ≤ 20 }
    requires some { 1 ≤ N }
    requires room { length out.old ≤ 1900 }
    ensures text { out.new ≡ out.old ++ 32 ∷ left (2 * N) (or_dash (option_map encode_lower digest.now)) }
    ensures len { length out.new ≤ length out.old + 41 }
{
    match digest {
        Some(digest) => add_digits(out, digest),
        None => add_left(out, b"-", 2 * N),
    }
}

// A line of a word and a text of the creator, or `-` where there is none.
fn note_line(out: &mut Scratch, word: &[u8], note: &Option<&str>)
    requires word { length word.now ≤ 32 }
    requires note { IfSome note.now (λ t. length t.now ≤ 1024) }
    ensures text { out.new ≡ note_text word.now (option_map (λ t. t.now) note.now) }
    ensures len { length out.new ≤ 2048 }
{
    begin(out, word);
    match note {
        Some(text) => add(out, text.as_bytes()),
        None => add(out, b"-"),
    }
}

// A line of a word and a date of the creator, or `-` where there is none.
fn date_line(out: &mut Scratch, word: &[u8], moment: &Option<Moment>)
    requires { length word.now ≤ 32 }
    ensures text { out.new ≡ date_text word.now moment.now }
    ensures len { length out.new ≤ 2048 }
{
    begin(out, word);
    match moment {
        Some(moment) => add(out, &moment.text()),
        None => add(out, b"-"),
    }
}

/// Leaves a line of a printed list in `out`; false where the line is another one.
pub fn table_line(line: &Line<'_>, out: &mut Scratch) -> bool
    requires { IsSayable line.now }
    ensures which { result ≡ is_table line.now }
    ensures text { result ≡ true → out.new ≡ line_text line.now }
    ensures len { result ≡ true → length out.new ≤ 2048 }
{
    match line {
        Line::Name(note) => note_line(out, b"name", note),
        Line::Username(note) => note_line(out, b"username", note),
        Line::Hostname(note) => note_line(out, b"hostname", note),
        Line::Tool(note) => note_line(out, b"tool", note),
        Line::Startdate(moment) => date_line(out, b"startdate", moment),
        Line::Finishdate(moment) => date_line(out, b"finishdate", moment),
        Line::Entry(size, modified, md5, sha1, xxh, path) => {
            begin_size(out, size);
            add_date(out, modified);
            add_digest_column(out, md5);
            add_digest_column(out, sha1);
            add_digest_column(out, xxh);
            add(out, path.as_bytes());
        }
        Line::Entries(count) => with_number(out, b"entries", *count),
        _ => return false,
    }
    true
}

#[cfg(test)]
mod tests {
    use crate::{Line, line_into};
    use path_text::{Moment, Scratch};
    use std::process::Abort;
    use std::test::Fail;

    // The digests of the empty file: RFC 1321, FIPS 180-4, the xxHash specification.
    const MD5: [u8; 16] = [
        0xd4, 0x1d, 0x8c, 0xd9, 0x8f, 0x00, 0xb2, 0x04, 0xe9, 0x80, 0x09, 0x98, 0xec, 0xf8, 0x42,
        0x7e,
    ];

    const SHA1: [u8; 20] = [
        0xda, 0x39, 0xa3, 0xee, 0x5e, 0x6b, 0x4b, 0x0d, 0x32, 0x55, 0xbf, 0xef, 0x95, 0x60, 0x18,
        0x90, 0xaf, 0xd8, 0x07, 0x09,
    ];

    const XXH: [u8; 8] = [0xef, 0x46, 0xdb, 0x37, 0x51, 0xd8, 0xe9, 0x99];

    fn says(rt: &impl Abort, out: &mut Scratch, line: &Line<'_>, text: &str)
        requires { IsSayable line.now }
    {
        line_into(line, out);
        assert_eq!(rt; out.bytes(), text.as_bytes(), "at {text:?}");
    }

    fn says_a_whole_list(rt: &impl Abort, out: &mut Scratch) {
        says(rt, out, &Line::Name(Some("A001")), "name A001");
        says(rt, out, &Line::Username(Some("ana")), "username ana");
        says(rt, out, &Line::Hostname(Some("cart1")), "hostname cart1");
        says(
            rt,
            out,
            &Line::Tool(Some("mhlstation 1")),
            "tool mhlstation 1",
        );
        says(
            rt,
            out,
            &Line::Startdate(Moment::new(1_414_152_000)),
            "startdate 2014-10-24T12:00:00Z",
        );
        says(
            rt,
            out,
            &Line::Finishdate(Moment::new(1_414_152_000)),
            "finishdate 2014-10-24T12:00:00Z",
        );
        says(
            rt,
            out,
            &Line::Entry(
                Some(0),
                Moment::new(1_414_108_800),
                Some(MD5),
                Some(SHA1),
                Some(XXH),
                "e.mov",
            ),
            "                   0 2014-10-24T00:00:00Z d41d8cd98f00b204e9800998ecf8427e da39a3ee5e6b4b0d3255bfef95601890afd80709 ef46db3751d8e999 e.mov",
        );
        says(rt, out, &Line::Entries(1), "entries 1");
    }

    fn says_what_is_absent(rt: &impl Abort, out: &mut Scratch) {
        says(rt, out, &Line::Name(None), "name -");
        says(rt, out, &Line::Username(None), "username -");
        says(rt, out, &Line::Hostname(None), "hostname -");
        says(rt, out, &Line::Tool(None), "tool -");
        says(rt, out, &Line::Startdate(None), "startdate -");
        says(rt, out, &Line::Finishdate(None), "finishdate -");
        says(
            rt,
            out,
            &Line::Entry(None, None, None, None, None, "b c.mov"),
            "                   - -                    -                                -                                        -                b c.mov",
        );
        says(rt, out, &Line::Entries(0), "entries 0");
    }

    fn says_the_longest(rt: &impl Abort, out: &mut Scratch, text: &str, entry: &str, host: &str)
        requires { length text.now ≤ 1024 }
    {
        let last = Moment::new(253_402_300_799);
        let line = Line::Entry(Some(u64::MAX), last, Some(MD5), None, Some(XXH), text);
        says(rt, out, &line, entry);
        says(rt, out, &Line::Hostname(Some(text)), host);
        says(
            rt,
            out,
            &Line::Entries(u64::MAX),
            "entries 18446744073709551615",
        );
    }

    #[test]
    fn says_lists(rt: HostRuntime) -> Result<(), Fail> {
        let mut out = Scratch::new(rt.alloc())?;
        says_a_whole_list(&rt, &mut out);
        says_what_is_absent(&rt, &mut out);
        let path = "p".repeat(rt.alloc(), 1024)?;
        let entry = format!(in rt.alloc();
            "18446744073709551615 9999-12-31T23:59:59Z d41d8cd98f00b204e9800998ecf8427e -                                        ef46db3751d8e999 {path}"
        )?;
        let host = format!(in rt.alloc(); "hostname {path}")?;
        says_the_longest(&rt, &mut out, path.as_str(), &entry, &host);
        Ok(())
    }
}
