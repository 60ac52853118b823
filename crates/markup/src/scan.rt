//! Looking along bytes: for the end of a run, for a fixed text, and for a name.
ghost use Rattle.std.specs.Prelude.{◌≡◌, not};
ghost use Rattle.markup.specs.Piece.{begins_name, goes_on_name, is_space, in_value, before_end};
ghost use Rattle.markup.specs.Taking.{strip, front, back, behind_first, name_at, in_text};
ghost use Rattle.markup.specs.Token.{Finds};

/// Whether a name may begin with this byte: a letter `a` to `z` or `A` to `Z`, `_`, or a byte of a character from U+0080 on.
fn is_name_start(b: u8) -> bool
    ensures { result ≡ begins_name b }
{
    matches!(b, b'a'..=b'z' | b'A'..=b'Z' | b'_' | 0x80..)
}

/// Whether this byte may stand in a name: also digits, `:`, `-` and `.`.
fn is_name_byte(b: u8) -> bool
    ensures { result ≡ goes_on_name b }
{
    is_name_start(b) || matches!(b, b'0'..=b':' | b'-' | b'.')
}

/// White space: space, tab, line feed, carriage return.
pub fn is_white_space(b: u8) -> bool
    ensures { result ≡ is_space b }
{
    matches!(b, b' ' | b'\t' | b'\n' | b'\r')
}

/// Whether a byte ends the text of an attribute in this quote.
fn ends_value(b: u8, quote: u8) -> bool
    ensures { result ≡ not (in_value quote b) }
{
    b == quote || b == b'<'
}

/// Whether a byte begins markup.
fn is_markup(b: u8) -> bool
    ensures { result ≡ not (in_text b) }
{
    b == b'<' || b == b'&'
}

/// The bytes behind a fixed text with which they begin.
pub fn after_word<'a>(bytes: &'a [u8], word: &[u8]) -> Option<&'a [u8]>
    ensures { Finds (λ x. x.now) result (strip word.now bytes.now) }
{
    match bytes.strip_prefix(word) {
        Some(rest) => Some(rest),
        None => None,
    }
}

/// The bytes of a name, and those behind it.
fn split_name(bytes: &[u8]) -> (&[u8], &[u8])
    ensures front { result.0.now ≡ front goes_on_name bytes.now }
    ensures back { result.1.now ≡ back goes_on_name bytes.now }
{
    for (at, b) in bytes.iter().enumerate() {
        if !is_name_byte(*b) {
            return bytes.split_at(at);
        }
    }
    bytes.split_at(bytes.len())
}

/// The bytes behind the white space with which they begin.
pub fn skip_space(bytes: &[u8]) -> &[u8]
    ensures { result.now ≡ back is_space bytes.now }
{
    for (at, b) in bytes.iter().enumerate() {
        if !is_white_space(*b) {
            return bytes.split_at(at).1;
        }
    }
    bytes.split_at(bytes.len()).1
}

/// The bytes before and from the first that ends the text of an attribute: its quote, or `<`.
pub fn split_value(bytes: &[u8], quote: u8) -> (&[u8], &[u8])
    ensures front { result.0.now ≡ front (in_value quote) bytes.now }
    ensures back { result.1.now ≡ back (in_value quote) bytes.now }
{
    for (at, b) in bytes.iter().enumerate() {
        if ends_value(*b, quote) {
            return bytes.split_at(at);
        }
    }
    bytes.split_at(bytes.len())
}

/// The bytes before and from the first `;`.
pub fn split_reference(bytes: &[u8]) -> (&[u8], &[u8])
    ensures front { result.0.now ≡ front before_end bytes.now }
    ensures back { result.1.now ≡ back before_end bytes.now }
{
    for (at, b) in bytes.iter().enumerate() {
        if *b == b';' {
            return bytes.split_at(at);
        }
    }
    bytes.split_at(bytes.len())
}

/// The bytes before and from the first `<` or `&`.
pub fn split_text(bytes: &[u8]) -> (&[u8], &[u8])
    ensures front { result.0.now ≡ front in_text bytes.now }
    ensures back { result.1.now ≡ back in_text bytes.now }
{
    for (at, b) in bytes.iter().enumerate() {
        if is_markup(*b) {
            return bytes.split_at(at);
        }
    }
    bytes.split_at(bytes.len())
}

/// What stands behind the first end mark.
pub fn behind<'a>(bytes: &'a [u8], mark: &[u8]) -> Option<&'a [u8]>
    ensures { Finds (λ x. x.now) result (behind_first mark.now bytes.now) }
{
    let mut rest = bytes;
    loop {
        if let Some(after) = after_word(rest, mark) {
            return Some(after);
        }
        let Some((_, others)) = rest.split_first() else {
            return None;
        };
        rest = others;
    }
}

/// The name that begins the bytes, and the bytes behind it.
pub fn next_name(bytes: &[u8]) -> Option<(&[u8], &[u8])>
    ensures { Finds (λ x. (x.0.now, x.1.now)) result (name_at bytes.now) }
{
    let (first, others) = bytes.split_first()?;
    if !is_name_start(*first) {
        return None;
    }
    let (more, _) = split_name(others);
    Some(bytes.split_at(1 + more.len()))
}
