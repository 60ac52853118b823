//! Labels: the names of cards, of those who offload them, and of their machines.

ghost use Rattle.std.specs.Prelude.{◌≡◌, ◌≤◌, ◌<◌, length, bytes_eq, IsTrue};
ghost use Rattle.std.specs.Cmp.{partial_equiv_from_equiv};
ghost use Rattle.std.specs.Cmp.Lexicographic.{nat_list_eq_equiv};
ghost use Rattle.path_text.specs.Places.{first_below};
ghost use Rattle.path_text.specs.Stored.{stored};
ghost use Rattle.path_text.specs.Label.{is_label_byte, breaks_label, label_fault_at, label_refusal_of, is_label, LabelRead};

use std::marker::Model;
use std::str;
use thiserror::Error;

/// The most bytes that a label has.
pub const MAX_LABEL_BYTES: usize = 64;

/// Why a text is no label.
#[derive(Clone, Copy, Debug, PartialEq, Eq, Error)]
pub enum NameError {
    #[error("the name has {len} bytes")]
    TooLong { len: u64 },
    #[error("a refused byte at {at}")]
    BadName { at: u64 },
}

// Whether a byte may stand in a label.
fn is_label_byte(byte: u8) -> bool
    ensures { result ≡ is_label_byte byte }
{
    byte.is_ascii_alphanumeric() || byte == b'.' || byte == b'_' || byte == b'-'
}

// Whether the byte at a place breaks the rule of a label.
fn breaks_label_at(text: &[u8], at: usize) -> bool
    requires { at < length text.now }
    ensures { result ≡ breaks_label text.now at }
{
    !is_label_byte(text[at]) || (at == 0 && text[at] == b'.')
}

// The first byte that breaks the rule of a label.
fn first_fault(text: &[u8]) -> Option<NameError>
    ensures { result ≡ first_below (label_fault_at text.now) (length text.now) }
{
    for at in 0..text.len() {
        if breaks_label_at(text, at) {
            return Some(NameError::BadName { at: at as u64 });
        }
    }
    None
}

// Why a text is no label.
#[tactic(auto, unfolding(crate::specs::Label::label_refusal_of))]
fn label_refusal(text: &[u8]) -> Option<NameError>
    ensures { result ≡ label_refusal_of text.now }
{
    if text.len() > MAX_LABEL_BYTES {
        return Some(NameError::TooLong {
            len: text.len() as u64,
        });
    }
    if text.is_empty() {
        return Some(NameError::BadName { at: 0 });
    }
    first_fault(text)
}

// The bytes of a label, and 0 behind them.
fn stored(text: &[u8]) -> [u8; MAX_LABEL_BYTES]
    requires { length text.now ≤ 64 }
    ensures { result ≡ stored text.now }
{
    let mut bytes = [0; MAX_LABEL_BYTES];
    bytes[..text.len()].copy_from_slice(text);
    bytes
}

/// A short name, of a card, of who offloads it or of the machine, seen as its bytes. That of the card begins the names of
/// its lists.
///
/// It has 1 to 64 bytes, each an ASCII letter, a digit, `.`, `_` or `-`, and the first is not `.` (docs/FORMATS.md,
/// "Labels"). Labels are equal where their bytes are.
#[derive(Clone, Copy, Debug)]
pub struct Label {
    // The bytes behind the first `len` are 0.
    bytes: [u8; MAX_LABEL_BYTES],
    len: usize,
}

impl Model for Label {
    ghost use Rattle.std.specs.Prelude.{List, ℕ, length, take};
    ghost use Rattle.path_text.specs.Stored.{Keeps, stored};

    ghost Value = { List ℕ };

    ghost view = { λ a. take a.len a.bytes };

    ghost invariant = { λ a. Keeps a.bytes a.len };

    ghost inverse = { λ label. record { bytes = stored label; len = length label } };

    ghost inverse_ok = { λ a h. λ i. record { bytes = h.rest i; len = h.long i } };
}

impl Label {
    /// The label that a text is. A text of more than 64 bytes is too long; of the bytes that break the rule the first
    /// is answered, 0 for the empty text.
    pub fn read(text: &str) -> Result<Label, NameError>
        ensures { LabelRead text.now result }
    {
        let text = text.as_bytes();
        if let Some(error) = label_refusal(text) {
            return Err(error);
        }
        Ok(Label {
            bytes: stored(text),
            len: text.len(),
        })
    }

    /// The text of the label.
    pub fn as_str(&self) -> &str
        ensures same { result.now ≡ self.now }
        ensures label { IsTrue (is_label self.now) }
        ensures some { 1 ≤ length result.now }
        ensures short { length result.now ≤ 64 }
    {
        match str::from_utf8(&self.bytes[..self.len]) {
            Ok(text) => text,
            Err(_) => unreachable!(),
        }
    }
}

impl PartialEq for Label {
    ghost eq = { bytes_eq };

    ghost laws = { partial_equiv_from_equiv nat_list_eq_equiv };

    fn eq(&self, other: &Label) -> bool {
        self.as_str() == other.as_str()
    }
}

impl Eq for Label {
    ghost laws = { nat_list_eq_equiv };
}

#[cfg(test)]
mod tests {
    use super::*;
    use std::test::Fail;

    #[test]
    fn reads_labels(rt: HostRuntime) -> Result<(), Fail> {
        let longest = "z".repeat(rt.alloc(), 64)?;
        let table = [
            "A001",
            "a",
            "-",
            "_",
            "a.",
            "a..b",
            "09.AZ_az-",
            longest.as_str(),
        ];
        for text in table {
            let label = Label::read(text)?;
            assert_eq!(rt; label.as_str(), text);
            assert!(rt; label == Label::read(text)?);
        }
        assert!(rt; Label::read("a")? != Label::read("b")?);
        assert!(rt; Label::read("a")? != Label::read("aa")?);
        Ok(())
    }

    #[test]
    fn refuses_with_the_cause(rt: HostRuntime) -> Result<(), Fail> {
        let table = [
            ("", NameError::BadName { at: 0 }),
            (".", NameError::BadName { at: 0 }),
            (".a", NameError::BadName { at: 0 }),
            ("é", NameError::BadName { at: 0 }),
            ("aé", NameError::BadName { at: 1 }),
            ("a b", NameError::BadName { at: 1 }),
            ("a/b", NameError::BadName { at: 1 }),
            ("ab:", NameError::BadName { at: 2 }),
            ("a@", NameError::BadName { at: 1 }),
            ("a[", NameError::BadName { at: 1 }),
            ("a`", NameError::BadName { at: 1 }),
            ("a{", NameError::BadName { at: 1 }),
            ("a\0", NameError::BadName { at: 1 }),
            ("a,/", NameError::BadName { at: 1 }),
        ];
        for (text, error) in table {
            assert_eq!(rt; Label::read(text).err(), Some(error), "at {text:?}");
        }
        let long = " ".repeat(rt.alloc(), 65)?;
        let read = Label::read(long.as_str());
        assert_eq!(rt; read.err(), Some(NameError::TooLong { len: 65 }));
        Ok(())
    }

    #[test]
    fn says_errors(rt: HostRuntime) -> Result<(), Fail> {
        let table = [
            (NameError::TooLong { len: 65 }, "the name has 65 bytes"),
            (NameError::BadName { at: 1 }, "a refused byte at 1"),
        ];
        for (error, said) in table {
            let text = format!(in rt.alloc(); "{error}")?;
            assert_eq!(rt; text.as_str(), said);
        }
        Ok(())
    }
}
