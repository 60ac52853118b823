//! The lines of a list, one behind the other in a scratch. Each adds a bounded number of bytes.
ghost use Rattle.std.specs.Prelude.{◌≡◌, ◌+◌, ◌*◌, ◌≤◌, ◌++◌, length, decimal, IsTrue};
ghost use Rattle.hex.specs.Hex.{encode_lower};
ghost use Rattle.path_text.specs.Moment.{moment_text};
ghost use Rattle.mhl_writer.specs.Note.{is_note};
ghost use Rattle.mhl_writer.specs.ListText.{escape, escaped, line, part};

use itoa::Buffer;
use path_text::{Moment, Scratch};

// A byte of a text as it is written.
fn put_escape(out: &mut Scratch, byte: u8)
    requires { length out.old + 5 ≤ 8192 }
    ensures text { out.new ≡ out.old ++ escape byte }
    ensures len { length out.new ≤ length out.old + 5 }
{
    match byte {
        b'&' => out.push(b"&amp;"),
        b'<' => out.push(b"&lt;"),
        b'>' => out.push(b"&gt;"),
        other => out.push(&[other]),
    }
}

fn put_escaped(out: &mut Scratch, text: &[u8])
    requires { length out.old + 5 * length text.now ≤ 8192 }
    ensures text { out.new ≡ out.old ++ escaped text.now }
    ensures len { length out.new ≤ length out.old + 5 * length text.now }
{
    for byte in text {
        put_escape(out, *byte);
    }
}

/// A line of a text that is written as it is.
pub fn put_line(out: &mut Scratch, opening: &[u8], text: &[u8], closing: &[u8])
    requires tags { length opening.now + length closing.now ≤ 64 }
    requires room { length out.old + length text.now + 64 ≤ 8192 }
    ensures text { out.new ≡ out.old ++ line opening.now text.now closing.now }
    ensures len { length out.new ≤ length out.old + length text.now + 64 }
{
    out.push(opening);
    out.push(text);
    out.push(closing);
}

/// A line of a text in which `&`, `<` and `>` are escaped.
pub fn put_escaped_line(out: &mut Scratch, opening: &[u8], text: &[u8], closing: &[u8])
    requires tags { length opening.now + length closing.now ≤ 64 }
    requires room { length out.old + 5 * length text.now + 64 ≤ 8192 }
    ensures text { out.new ≡ out.old ++ line opening.now (escaped text.now) closing.now }
    ensures len { length out.new ≤ length out.old + 5 * length text.now + 64 }
{
    out.push(opening);
    put_escaped(out, text);
    out.push(closing);
}

/// A line of a note.
pub fn put_note(out: &mut Scratch, opening: &[u8], note: &str, closing: &[u8])
    requires note { IsTrue (is_note note.now) }
    requires tags { length opening.now + length closing.now ≤ 64 }
    requires room { length out.old + 1344 ≤ 8192 }
    ensures text { out.new ≡ out.old ++ line opening.now (escaped note.now) closing.now }
    ensures len { length out.new ≤ length out.old + 1344 }
{
    put_escaped_line(out, opening, note.as_bytes(), closing);
}

/// A line of a number in decimal.
pub fn put_number(out: &mut Scratch, opening: &[u8], number: u64, closing: &[u8])
    requires tags { length opening.now + length closing.now ≤ 64 }
    requires room { length out.old + 84 ≤ 8192 }
    ensures text { out.new ≡ out.old ++ line opening.now (decimal number) closing.now }
    ensures len { length out.new ≤ length out.old + 84 }
{
    let mut buffer = Buffer::new();
    put_line(out, opening, buffer.format(number).as_bytes(), closing);
}

/// A line of a moment.
pub fn put_moment(out: &mut Scratch, opening: &[u8], moment: Moment, closing: &[u8])
    requires tags { length opening.now + length closing.now ≤ 64 }
    requires room { length out.old + 84 ≤ 8192 }
    ensures text { out.new ≡ out.old ++ line opening.now (moment_text moment) closing.now }
    ensures len { length out.new ≤ length out.old + 84 }
{
    put_line(out, opening, &moment.text(), closing);
}

fn put_digest<const N: usize>(out: &mut Scratch, opening: &[u8], digest: &[u8; N], closing: &[u8])
    requires size { N ≤ 20 }
    requires tags { length opening.now + length closing.now ≤ 64 }
    requires room { length out.old + 104 ≤ 8192 }
    ensures text { out.new ≡ out.old ++ line opening.now (encode_lower digest.now) closing.now }
    ensures len { length out.new ≤ length out.old + 104 }
{
    let mut digits = [0u8; 40];
    let digits = &mut digits[..2 * N];
    match hex::encode_to_slice(digest.as_slice(), digits) {
        Ok(()) => put_line(out, opening, digits, closing),
        Err(_) => unreachable!(),
    }
}

/// A line of a digest in lower case digits, where there is one.
pub fn put_digest_part<const N: usize>(
    out: &mut Scratch,
    opening: &[u8],
    digest: &Option<[u8; N]>,
    closing: &[u8],
)
    requires size { N ≤ 20 }
    requires tags { length opening.now + length closing.now ≤ 64 }
    requires room { length out.old + 104 ≤ 8192 }
    ensures text { out.new ≡ out.old ++ part (λ d. line opening.now (encode_lower d) closing.now) digest.now }
    ensures len { length out.new ≤ length out.old + 104 }
{
    if let Some(digest) = digest {
        put_digest(out, opening, digest, closing);
    }
}
