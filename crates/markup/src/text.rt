//! The two checks before the grammar.
ghost use Rattle.std.specs.Prelude.{◌≡◌, ◌<◌, length, None, Some, MatchResult};
ghost use Rattle.path_text.specs.Places.{first_below};
ghost use Rattle.markup.specs.Characters.{text_error, is_refused, refused_at};

use std::str;

/// Why bytes are no text of a document. A place is counted in bytes from the start.
#[derive(Clone, Copy, Debug, PartialEq, Eq)]
pub enum TextError {
    /// The first sequence of bytes that is no UTF-8 begins here.
    NotUtf8 { at: usize },
    /// The first character that XML 1.0 does not allow begins here.
    Refused { at: usize },
}

// Whether a character that is not allowed begins at a place. The first test, on one byte, is all that most bytes cost.
#[inline]
fn is_refused_at(text: &[u8], at: usize) -> bool
    requires { at < length text.now }
    ensures { result ≡ is_refused text.now at }
{
    if matches!(text[at], b' '..=b'~') {
        return false;
    }
    match &text[at..] {
        [b'\t' | b'\n' | b'\r', ..] => false,
        [0..=31, ..] => true,
        [0xEF, 0xBF, 0xBE | 0xBF, ..] => true,
        _ => false,
    }
}

// The place of the first character that is not allowed.
fn first_refused(text: &[u8]) -> Option<usize>
    ensures { result ≡ first_below (refused_at text.now) (length text.now) }
{
    for at in 0..text.len() {
        if is_refused_at(text, at) {
            return Some(at);
        }
    }
    None
}

/// Whether all bytes are UTF-8, and then whether XML 1.0 allows each of their characters.
pub fn check_text(bytes: &[u8]) -> Result<(), TextError>
    ensures { MatchResult result (λ _. text_error bytes.now ≡ None) (λ e. text_error bytes.now ≡ Some e) }
{
    match str::from_utf8(bytes) {
        Ok(_) => match first_refused(bytes) {
            Some(at) => Err(TextError::Refused { at }),
            None => Ok(()),
        },
        Err(error) => Err(TextError::NotUtf8 {
            at: error.valid_up_to(),
        }),
    }
}

#[cfg(test)]
mod tests {
    use super::*;

    #[test]
    fn takes_texts(rt: HostRuntime) {
        let table = [
            "",
            " a~\t\r\n\u{7f}",
            "\u{80}\u{d7ff}\u{e000}\u{fffd}",
            "\u{feff}<a/>",
            "\u{ffe}\u{10000}\u{1fffe}\u{10ffff}",
        ];
        for text in table {
            assert_eq!(rt; check_text(text.as_bytes()), Ok(()), "at {text:?}");
        }
    }

    #[test]
    fn refuses_control_characters(rt: HostRuntime) {
        for byte in 0..32u8 {
            let text = [b'a', byte, 1];
            let at = if matches!(byte, b'\t' | b'\n' | b'\r') {
                2
            } else {
                1
            };
            assert_eq!(rt;
                check_text(&text),
                Err(TextError::Refused { at }),
                "at {byte}"
            );
        }
    }

    #[test]
    fn refuses_the_first_character_that_is_not_allowed(rt: HostRuntime) {
        let table = [
            ("\u{fffe}", 0),
            ("\u{ffff}", 0),
            ("a\u{ffff}", 1),
            ("\u{fffd}\u{fffe}\0", 3),
            ("\u{feff}\u{b}", 3),
            ("a\u{1f}\u{fffe}", 1),
        ];
        for (text, at) in table {
            let read = check_text(text.as_bytes());
            assert_eq!(rt; read, Err(TextError::Refused { at }), "at {text:?}");
        }
    }

    #[test]
    fn refuses_bytes_that_are_no_utf8(rt: HostRuntime) {
        let table = [
            (b"\x80ab".as_slice(), 0),
            (b"ab\xffcd".as_slice(), 2),
            (b"ab\xc3".as_slice(), 2),
            (b"\xc3\xa9\xc3(".as_slice(), 2),
            (b"a\xe2\x82".as_slice(), 1),
            (b"a\xf0\x9f\x98".as_slice(), 1),
            (b"\xc0\x80".as_slice(), 0),
            (b"a\xe0\x80\x80".as_slice(), 1),
            (b"\xf0\x80\x80\x80".as_slice(), 0),
            (b"ab\xed\xa0\x80".as_slice(), 2),
            (b"a\xf4\x90\x80\x80".as_slice(), 1),
            (b"\x01\xff".as_slice(), 1),
            (b"\xff\x01".as_slice(), 0),
            (b"\xef\xbf\xbe\xed\xa0\x80".as_slice(), 3),
        ];
        for (bytes, at) in table {
            assert_eq!(rt;
                check_text(bytes),
                Err(TextError::NotUtf8 { at }),
                "at {bytes:?}"
            );
        }
    }
}
