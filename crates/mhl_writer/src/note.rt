//! The short texts of a list's creator.

ghost use Rattle.std.specs.Prelude.{◌≡◌, IfOk, IsTrue, if◌then◌else◌, Some, None};
ghost use Rattle.mhl_writer.specs.Note.{is_note_rule, is_note};

use path_text::is_clean;
use std::alloc::{AllocError, Global};
use std::marker::Model;

// The most bytes that a note has.
const MAX_NOTE_BYTES: usize = 256;

// Whether a text meets the rule of a note.
fn meets_rule(text: &[u8]) -> bool
    ensures { result ≡ is_note_rule text.now }
{
    let len = text.len();
    if len == 0 || len > MAX_NOTE_BYTES {
        return false;
    }
    is_clean(text) && text[0] != b' ' && text[len - 1] != b' '
}

/// A short text of a list's creator, seen as its bytes.
///
/// It has 1 to 256 bytes of UTF-8, none of the characters that a path may not hold, and no space at either end
/// (docs/FORMATS.md, "Notes").
#[derive(Debug, Drop)]
pub struct NoteText {
    text: String,
}

impl Model for NoteText {
    ghost use Rattle.std.specs.Prelude.{List, ℕ, IsTrue, string_bytes};
    ghost use Rattle.mhl_writer.specs.Note.{is_note_rule};

    ghost Value = { List ℕ };

    ghost view = { λ a. string_bytes a.text };

    ghost invariant = { λ a. IsTrue (is_note_rule (string_bytes a.text)) };
}

impl NoteText {
    /// The note that a text is, or `None` exactly where it is none.
    pub fn read(alloc: Global, text: &str) -> Result<Option<NoteText>, AllocError>
        ensures { IfOk result (λ note. note ≡ (if is_note text.now then Some text.now else None)) }
    {
        if !meets_rule(text.as_bytes()) {
            return Ok(None);
        }
        Ok(Some(NoteText {
            text: text.to_owned(alloc)?,
        }))
    }

    /// The text of the note.
    pub fn as_str(&self) -> &str
        ensures same { result.now ≡ self.now }
        ensures note { IsTrue (is_note self.now) }
    {
        &self.text
    }
}

#[cfg(test)]
mod tests {
    use super::*;
    use std::test::Fail;

    #[test]
    fn reads_notes(rt: HostRuntime) -> Result<(), Fail> {
        let longest = "n".repeat(rt.alloc(), 256)?;
        for text in ["n", "Day 3, unit B", "../é", "\u{fffd}", longest.as_str()] {
            let note = NoteText::read(rt.alloc(), text)?;
            let note = note.expect(&rt, "a note");
            assert_eq!(rt; note.as_str(), text);
        }
        Ok(())
    }

    #[test]
    fn refuses_other_texts(rt: HostRuntime) -> Result<(), Fail> {
        let long = "n".repeat(rt.alloc(), 257)?;
        let table = [
            "",
            " ",
            " n",
            "n ",
            "a\tb",
            "a\n",
            "\0",
            "\u{7f}",
            "a\u{fffe}b",
            "\u{ffff}",
            long.as_str(),
        ];
        for text in table {
            assert!(rt; NoteText::read(rt.alloc(), text)?.is_none(), "at {text:?}");
        }
        Ok(())
    }
}
