//! What the text of a leaf says.
ghost use Rattle.std.specs.Prelude.{◌≡◌, IfOk, Some, None, reverse};
ghost use Rattle.std.specs.List.{list_all};
ghost use Rattle.markup.specs.Piece.{is_space, is_decimal_digit};
ghost use Rattle.markup.specs.Taking.{back};
ghost use Rattle.mhl_reader.specs.Leaves.{trimmed, size_of, digest_of, date_of, note_of, path_of};

use hex::FromHex;
use markup::{is_white_space, skip_space};
use mhl_writer::NoteText;
use path_text::{Moment, PathError, PathText};
use std::alloc::{AllocError, Global};

// The text without the white space at its end.
fn trim_end(text: &[u8]) -> &[u8]
    ensures { result.now ≡ reverse (back is_space (reverse text.now)) }
{
    let mut rest = text;
    while let Some((last, others)) = rest.split_last() {
        if !is_white_space(*last) {
            break;
        }
        rest = others;
    }
    rest
}

// The text without the white space at both ends.
#[tactic(auto, unfolding(crate::specs::Leaves::trimmed))]
fn trim(text: &[u8]) -> &[u8]
    ensures { result.now ≡ trimmed text.now }
{
    trim_end(skip_space(text))
}

// Whether all bytes are decimal digits.
fn is_decimal(text: &[u8]) -> bool
    ensures { result ≡ list_all is_decimal_digit text.now }
{
    text.iter().all(|b| b'0' <= *b && *b <= b'9')
}

/// The number of bytes that a `size` says.
pub fn size(text: &[u8]) -> Option<u64>
    ensures { result ≡ size_of text.now }
{
    let digits = trim(text);
    if !is_decimal(digits) {
        return None;
    }
    let Ok(digits) = str::from_utf8(digits) else {
        return None;
    };
    match digits.parse::<u64>() {
        Ok(size) => Some(size),
        Err(_) => None,
    }
}

/// The digest that hexadecimal digits of either case say.
pub fn digest<const N: usize>(text: &[u8]) -> Option<[u8; N]>
    ensures { result ≡ digest_of N text.now }
{
    match <[u8; N] as FromHex>::from_hex(trim(text)) {
        Ok(digest) => Some(digest),
        Err(_) => None,
    }
}

/// The moment that a date says, if it says one.
#[tactic(auto, unfolding(crate::specs::Leaves::date_of))]
pub fn date(text: &[u8]) -> Option<Moment>
    ensures { result ≡ date_of text.now }
{
    Moment::read(trim(text))
}

/// The note that a text of the creator is, if it is one.
pub fn note(alloc: Global, text: &[u8]) -> Result<Option<NoteText>, AllocError>
    ensures { IfOk result (λ note. note ≡ note_of text.now) }
{
    match str::from_utf8(trim(text)) {
        Ok(text) => NoteText::read(alloc, text),
        Err(_) => Ok(None),
    }
}

/// The path that a text is, if it is one.
pub fn path(alloc: Global, text: &[u8]) -> Result<Option<PathText>, AllocError>
    ensures { IfOk result (λ path. path ≡ path_of text.now) }
{
    let Ok(text) = str::from_utf8(text) else {
        return Ok(None);
    };
    match PathText::read(alloc, text) {
        Ok(path) => Ok(Some(path)),
        Err(error) => match error {
            PathError::Memory => Err(AllocError),
            _ => Ok(None),
        },
    }
}

#[cfg(test)]
mod tests {
    use super::*;
    use std::test::Fail;

    #[test]
    fn reads_sizes(rt: HostRuntime) {
        let table: [(&[u8], Option<u64>); 14] = [
            (b"0", Some(0)),
            (b" 12 ", Some(12)),
            (b"\t\r\n34\n", Some(34)),
            (b"007", Some(7)),
            (b"18446744073709551615", Some(u64::MAX)),
            (b"18446744073709551616", None),
            (b"", None),
            (b" ", None),
            (b"+5", None),
            (b"-1", None),
            (b"1 2", None),
            (b"0x1", None),
            (b"1.0", None),
            (b"\xD9\xA1", None),
        ];
        for (text, wanted) in table {
            assert_eq!(rt; size(text), wanted, "at {text:?}");
        }
    }

    #[test]
    fn reads_digests(rt: HostRuntime) {
        let written: [&[u8]; 4] = [b"0aff", b"0AFF", b"0aFf", b"\t 0aff\r\n"];
        for text in written {
            assert_eq!(rt; digest::<2>(text), Some([0x0a, 0xff]), "at {text:?}");
        }
        let refused: [&[u8]; 7] = [b"", b"0af", b"0aff0", b"0aff00", b"0afg", b"0a ff", b"0x0a"];
        for text in refused {
            assert_eq!(rt; digest::<2>(text), None, "at {text:?}");
        }
    }

    #[test]
    fn reads_dates(rt: HostRuntime) {
        let written: [&[u8]; 2] = [b"2014-10-24T12:00:00Z", b"\n\t2014-10-24T12:00:00Z "];
        for text in written {
            assert_eq!(rt; date(text), Moment::new(1_414_152_000), "at {text:?}");
        }
        let refused: [&[u8]; 5] = [
            b"",
            b"2014-10-24",
            b"2014-10-24 12:00:00Z",
            b"2014-10-24T12:00:00 Z",
            b"2014-02-29T00:00:00Z",
        ];
        for text in refused {
            assert_eq!(rt; date(text), None, "at {text:?}");
        }
    }

    #[test]
    fn reads_notes(rt: HostRuntime) -> Result<(), Fail> {
        let longest = "n".repeat(rt.alloc(), 256)?;
        let table = [
            ("n", "n"),
            ("\r\n\t Day 3, unit B ", "Day 3, unit B"),
            ("é", "é"),
            (longest.as_str(), longest.as_str()),
        ];
        for (text, wanted) in table {
            let note = note(rt.alloc(), text.as_bytes())?;
            let note = note.expect(&rt, "a note");
            assert_eq!(rt; note.as_str(), wanted);
        }
        Ok(())
    }

    #[test]
    fn refuses_other_notes(rt: HostRuntime) -> Result<(), Fail> {
        let long = "n".repeat(rt.alloc(), 257)?;
        let table: [&[u8]; 7] = [
            b"",
            b" \n",
            b"a\tb",
            b"a\0",
            b"\x7F",
            b"a\xFF",
            long.as_bytes(),
        ];
        for text in table {
            assert!(rt; note(rt.alloc(), text)?.is_none(), "at {text:?}");
        }
        Ok(())
    }

    #[test]
    fn reads_paths(rt: HostRuntime) -> Result<(), Fail> {
        for text in ["a", "Clips/A001.mov", " a ", "é", ".mhlstation/new"] {
            let path = path(rt.alloc(), text.as_bytes())?;
            let path = path.expect(&rt, "a path");
            assert_eq!(rt; path.as_str(), text);
        }
        let refused: [&[u8]; 9] = [
            b"",
            b"/a",
            b"a//b",
            b"a/",
            b"../a",
            b"a/./b",
            b"a\xEF\xBF\xBE",
            b"a\nb",
            b"a\xFF",
        ];
        for text in refused {
            assert!(rt; path(rt.alloc(), text)?.is_none(), "at {text:?}");
        }
        Ok(())
    }
}
