// Places in a text, counted in bytes from its start.
ghost use Rattle.std.specs.Prelude.{◌≡◌, slice_index};
ghost use Rattle.path_text.specs.Places.{is_refused, is_clean, begins_part, ends_part};

// The byte at a place, 0 past the end.
pub fn byte_at(text: &[u8], at: usize) -> u8
    ensures { result ≡ slice_index text.now at }
{
    match text.get(at) {
        Some(byte) => *byte,
        None => 0,
    }
}

/// Whether a character that no path and no note may hold begins at this place.
pub fn is_refused_at(text: &[u8], at: usize) -> bool
    ensures { result ≡ is_refused text.now at }
{
    if at >= text.len() {
        return false;
    }
    let rest = &text[at..];
    match rest {
        [0..=31 | 127, ..] => true,
        [0xEF, 0xBF, 0xBE | 0xBF, ..] => true,
        _ => false,
    }
}

/// Whether a text has none of the characters that no path and no note may hold: U+0000 to U+001F, U+007F, U+FFFE
/// and U+FFFF (docs/FORMATS.md, "Paths").
pub fn is_clean(text: &[u8]) -> bool
    ensures { result ≡ is_clean text.now }
{
    for at in 0..text.len() {
        if is_refused_at(text, at) {
            return false;
        }
    }
    true
}

/// Whether a part between slashes begins at this place.
pub fn begins_part_at(text: &[u8], at: usize) -> bool
    ensures { result ≡ begins_part text.now at }
{
    at == 0 || byte_at(text, at - 1) == b'/'
}

/// Whether a part between slashes ends at this place.
pub fn ends_part_at(text: &[u8], at: usize) -> bool
    ensures { result ≡ ends_part text.now at }
{
    text.len() <= at || byte_at(text, at) == b'/'
}

#[cfg(test)]
mod tests {
    use super::*;

    #[test]
    fn tells_clean_texts(rt: HostRuntime) {
        for text in ["", " a~", "\u{80}\u{fffd}", "\u{ffe}"] {
            assert!(rt; is_clean(text.as_bytes()), "at {text:?}");
        }
        for text in ["\0", "a\u{1f}", "\u{7f}b", "a\u{fffe}b", "\u{ffff}"] {
            assert!(rt; !is_clean(text.as_bytes()), "at {text:?}");
        }
    }
}
