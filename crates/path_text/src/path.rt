ghost use Rattle.std.specs.Prelude.{◌≡◌, ◌+◌, ◌^◌, ◌<◌, ◌≤◌, ◌&&◌, length, bytes_eq, string_bytes, IfOk, IsTrue, Some, None};
ghost use Rattle.std.proofs.Common.{refl};
ghost use Rattle.std.specs.Ordering.{nat_cmp};
ghost use Rattle.std.specs.Cmp.{partial_equiv_from_equiv};
ghost use Rattle.std.specs.Cmp.Lexicographic.{slice_cmp, nat_list_eq_equiv, nat_list_cmp_total, texts_ties, texts_po};
ghost use Rattle.path_text.specs.Places.{first_below};
ghost use Rattle.path_text.specs.Path.{is_empty_part, is_dot_part, offence_at, refusal_of, is_path, is_control_path, PathRead};

use crate::places::{begins_part_at, byte_at, ends_part_at, is_refused_at};
use std::alloc::{AllocError, Global};
use std::cmp::Ordering;
use std::marker::Model;
use thiserror::Error;

/// The most bytes that a path has.
pub const MAX_PATH_BYTES: usize = 1024;

/// The control folder at the root of a drive.
pub const CONTROL_FOLDER: &str = ".mhlstation";

/// Why a text is no path. Places are bytes from the start of the text.
#[derive(Clone, Copy, Debug, PartialEq, Eq, Error)]
pub enum PathError {
    #[error("the path is empty")]
    Empty,
    #[error("the path has {len} bytes")]
    TooLong { len: usize },
    #[error("the path begins with a slash")]
    Absolute,
    #[error("a refused character at {at}")]
    BadChar { at: u64 },
    #[error("an empty part at {at}")]
    EmptyPart { at: u64 },
    #[error("a dot part at {at}")]
    DotPart { at: u64 },
    #[error("out of memory")]
    Memory,
}

// The offence at a place.
fn offence(text: &[u8], at: usize) -> Option<PathError>
    requires { at ≤ length text.now }
    ensures { result ≡ offence_at text.now at }
{
    if is_refused_at(text, at) {
        return Some(PathError::BadChar { at: at as u64 });
    }
    if begins_part_at(text, at) && ends_part_at(text, at) {
        return Some(PathError::EmptyPart { at: at as u64 });
    }
    if is_dot_part_at(text, at) {
        return Some(PathError::DotPart { at: at as u64 });
    }
    None
}

// Whether a part that is `.` or `..` begins at a place.
fn is_dot_part_at(text: &[u8], at: usize) -> bool
    requires { at ≤ length text.now }
    ensures { result ≡ is_dot_part text.now at }
{
    if !begins_part_at(text, at) || byte_at(text, at) != b'.' {
        return false;
    }
    ends_part_at(text, at + 1) || (byte_at(text, at + 1) == b'.' && ends_part_at(text, at + 2))
}

// The offence with the least place.
fn first_offence(text: &[u8]) -> Option<PathError>
    requires { length text.now < 2 ^ 63 }
    ensures { result ≡ first_below (offence_at text.now) (length text.now + 1) }
{
    for at in 0..text.len() + 1 {
        if let Some(error) = offence(text, at) {
            return Some(error);
        }
    }
    None
}

// Why a text is no path.
#[tactic(auto, unfolding(crate::specs::Path::refusal_of))]
fn refusal(text: &str) -> Option<PathError>
    ensures { result ≡ refusal_of text.now }
{
    let bytes = text.as_bytes();
    if bytes.is_empty() {
        return Some(PathError::Empty);
    }
    if bytes.len() > MAX_PATH_BYTES {
        return Some(PathError::TooLong { len: bytes.len() });
    }
    if byte_at(bytes, 0) == b'/' {
        return Some(PathError::Absolute);
    }
    first_offence(bytes)
}

/// A valid path below the folder of a card or a drive, seen as its bytes.
///
/// It has 1 to 1,024 bytes of UTF-8 and does not begin with `/`. No part between slashes is empty, `.` or `..`, and
/// none of its characters is one of U+0000 to U+001F, U+007F, U+FFFE and U+FFFF (docs/FORMATS.md, "Paths"). Paths are
/// equal where their bytes are, and stand in the order of their bytes.
#[derive(Debug, Drop)]
pub struct PathText {
    text: String,
}

impl Model for PathText {
    ghost use Rattle.std.specs.Prelude.{◌≡◌, List, ℕ, None, string_bytes};
    ghost use Rattle.path_text.specs.Path.{refusal_of};

    ghost Value = { List ℕ };

    ghost view = { λ a. string_bytes a.text };

    ghost invariant = { λ a. refusal_of (string_bytes a.text) ≡ None };
}

impl PathText {
    // The path of a text that is known to be one.
    pub(crate) fn of(text: String) -> PathText
        requires { refusal_of (string_bytes text) ≡ None }
        ensures { result ≡ string_bytes text }
    {
        PathText { text }
    }

    /// The path that a text is. Its refusals are tested in the order of [`PathError`]; of those with a place the
    /// least place is answered.
    pub fn read(alloc: Global, text: &str) -> Result<PathText, PathError>
        ensures { PathRead text.now result }
    {
        if let Some(error) = refusal(text) {
            return Err(error);
        }
        match text.to_owned(alloc) {
            Ok(text) => Ok(PathText { text }),
            Err(_) => Err(PathError::Memory),
        }
    }

    /// The text of the path.
    pub fn as_str(&self) -> &str
        ensures same { result.now ≡ self.now }
        ensures path { IsTrue (is_path self.now) }
        ensures short { length result.now ≤ 1024 }
    {
        &self.text
    }

    /// The same path again.
    pub fn copy(&self, alloc: Global) -> Result<PathText, AllocError>
        ensures { IfOk result (λ path. path ≡ self.now) }
    {
        Ok(PathText {
            text: self.text.clone()?,
        })
    }
}

impl PartialEq for PathText {
    ghost eq = { bytes_eq };

    ghost laws = { partial_equiv_from_equiv nat_list_eq_equiv };

    fn eq(&self, other: &PathText) -> bool {
        self.as_str() == other.as_str()
    }
}

impl Eq for PathText {
    ghost laws = { nat_list_eq_equiv };
}

impl PartialOrd for PathText {
    ghost partial_cmp = { λ a b. Some (slice_cmp nat_cmp a b) };

    ghost laws = { texts_po };

    fn partial_cmp(&self, other: &PathText) -> Option<Ordering> {
        Some(self.cmp(other))
    }
}

impl Ord for PathText {
    ghost cmp = { slice_cmp nat_cmp };

    ghost total = { nat_list_cmp_total };

    ghost matches_partial_cmp = { λ a b. refl };

    ghost matches_eq = { texts_ties };

    fn cmp(&self, other: &PathText) -> Ordering {
        self.as_str().cmp(other.as_str())
    }
}

// Whether the first part is the control folder.
#[tactic(auto, unfolding(crate::specs::Path::is_control_path))]
fn begins_with_control(text: &str) -> bool
    ensures { result ≡ is_control_path text.now }
{
    let bytes = text.as_bytes();
    bytes.starts_with(CONTROL_FOLDER.as_bytes()) && ends_part_at(bytes, CONTROL_FOLDER.len())
}

/// Whether a path lies in the control folder, or is it: its first part is `.mhlstation`.
pub fn is_control(path: &PathText) -> bool
    ensures { result ≡ is_control_path path.now }
{
    begins_with_control(path.as_str())
}

/// Whether a name that a device gives is a control path. A name that is no valid path is none.
pub fn is_control_name(name: &str) -> bool
    ensures { result ≡ (is_path name.now && is_control_path name.now) }
{
    begins_with_control(name) && refusal(name).is_none()
}

#[cfg(test)]
mod tests {
    use super::*;
    use std::test::Fail;

    #[test]
    fn reads_paths(rt: HostRuntime) -> Result<(), Fail> {
        let longest = "a".repeat(rt.alloc(), 1024)?;
        let table = [
            "a",
            "Clips/A001.mov",
            "..a",
            "a..",
            "...",
            "a b/.c",
            "\u{fffd}",
            "é",
            ".mhlstation/new",
            longest.as_str(),
        ];
        for text in table {
            let path = PathText::read(rt.alloc(), text)?;
            assert_eq!(rt; path.as_str(), text);
            let again = path.copy(rt.alloc())?;
            assert_eq!(rt; again.as_str(), text);
            assert!(rt; again == path);
        }
        Ok(())
    }

    #[test]
    fn refuses_with_the_cause(rt: HostRuntime) -> Result<(), Fail> {
        let table = [
            ("", PathError::Empty),
            ("/a", PathError::Absolute),
            ("/", PathError::Absolute),
            ("a//b", PathError::EmptyPart { at: 2 }),
            ("a/", PathError::EmptyPart { at: 2 }),
            (".", PathError::DotPart { at: 0 }),
            ("..", PathError::DotPart { at: 0 }),
            ("a/./b", PathError::DotPart { at: 2 }),
            ("a/../b", PathError::DotPart { at: 2 }),
            ("a/..", PathError::DotPart { at: 2 }),
            ("a\nb", PathError::BadChar { at: 1 }),
            ("é\u{7f}", PathError::BadChar { at: 2 }),
            ("a\u{fffe}", PathError::BadChar { at: 1 }),
            ("\u{ffff}/", PathError::BadChar { at: 0 }),
            ("a\u{1}//", PathError::BadChar { at: 1 }),
            ("a//\u{1}", PathError::EmptyPart { at: 2 }),
        ];
        for (text, error) in table {
            let read = PathText::read(rt.alloc(), text);
            assert_eq!(rt; read.err(), Some(error), "at {text:?}");
        }
        let long = "/".repeat(rt.alloc(), 1025)?;
        let read = PathText::read(rt.alloc(), long.as_str());
        assert_eq!(rt; read.err(), Some(PathError::TooLong { len: 1025 }));
        Ok(())
    }

    #[test]
    fn says_errors(rt: HostRuntime) -> Result<(), Fail> {
        let table = [
            (PathError::Empty, "the path is empty"),
            (PathError::TooLong { len: 1025 }, "the path has 1025 bytes"),
            (PathError::Absolute, "the path begins with a slash"),
            (PathError::BadChar { at: 1 }, "a refused character at 1"),
            (PathError::EmptyPart { at: 2 }, "an empty part at 2"),
            (PathError::DotPart { at: 0 }, "a dot part at 0"),
            (PathError::Memory, "out of memory"),
        ];
        for (error, said) in table {
            let text = format!(in rt.alloc(); "{error}")?;
            assert_eq!(rt; text.as_str(), said);
        }
        Ok(())
    }

    #[test]
    fn orders_paths_by_their_bytes(rt: HostRuntime) -> Result<(), Fail> {
        let table = [
            ("a", "a/b"),
            ("Z", "a"),
            ("a-b", "a/b"),
            ("a/b", "a0"),
            ("z", "é"),
        ];
        for (less, more) in table {
            let less = PathText::read(rt.alloc(), less)?;
            let more = PathText::read(rt.alloc(), more)?;
            assert!(rt; less < more, "at {less:?}");
            assert!(rt; less != more);
        }
        Ok(())
    }

    #[test]
    fn knows_control_paths(rt: HostRuntime) -> Result<(), Fail> {
        let table = [
            (".mhlstation", true),
            (".mhlstation/new", true),
            (".mhlstationx", false),
            (".mhlstation.", false),
            (".mhlstatio", false),
            ("a/.mhlstation", false),
        ];
        for (text, control) in table {
            let path = PathText::read(rt.alloc(), text)?;
            assert_eq!(rt; is_control(&path), control, "at {text:?}");
            assert_eq!(rt; is_control_name(text), control, "at {text:?}");
        }
        for name in [
            ".mhlstation/a\nb",
            ".mhlstation//x",
            ".mhlstation/",
            "/.mhlstation",
            "",
        ] {
            assert!(rt; !is_control_name(name), "at {name:?}");
        }
        Ok(())
    }
}
