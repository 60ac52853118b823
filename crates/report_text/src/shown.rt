ghost use Rattle.std.specs.Prelude.{◌≡◌, ◌≤◌, IfOk, length, take};
ghost use Rattle.report_text.specs.Shown.{whole_up_to, shown_character, shown};

use std::alloc::{AllocError, Global};
use std::marker::Model;

/// The bytes of a name that a line shows at most.
const SHOWN_BYTES: usize = 1024;

// A character as it is shown.
fn shown_char(c: char) -> char
    ensures { result ≡ shown_character c }
{
    match c {
        '\u{0}'..='\u{1f}' | '\u{7f}' | '\u{fffe}' | '\u{ffff}' => '?',
        other => other,
    }
}

// The bytes of a name that are shown, as far as it goes.
fn cut(name: &str) -> &str
    ensures front { result.now ≡ take (whole_up_to name.now 1024) name.now }
    ensures short { length result.now ≤ 1024 }
{
    &name[..name.floor_char_boundary(SHOWN_BYTES)]
}

/// A name that a device gave, as a line shows it: its first 1,024 bytes at most, ended at a whole character, with `?`
/// for each character that a path may not hold. That a valid path, which has no more bytes and no such character, is
/// shown as it is, is not said by a clause of its own.
#[derive(Debug, Drop)]
pub struct ShownName {
    text: String,
}

impl Model for ShownName {
    ghost use Rattle.std.specs.Prelude.{◌≤◌, List, ℕ, length, string_bytes};

    ghost Value = { List ℕ };

    ghost view = { λ a. string_bytes a.text };

    ghost invariant = { λ a. length (string_bytes a.text) ≤ 1024 };
}

impl ShownName {
    /// How a name is shown.
    pub fn of(alloc: Global, name: &str) -> Result<ShownName, AllocError>
        ensures { IfOk result (λ text. text ≡ shown name.now) }
    {
        let mut text = String::new(alloc);
        for c in cut(name).chars() {
            text.push(shown_char(c))?;
        }
        Ok(ShownName { text })
    }

    /// The text that a line shows.
    pub fn as_str(&self) -> &str
        ensures same { result.now ≡ self.now }
        ensures short { length result.now ≤ 1024 }
    {
        &self.text
    }
}

#[cfg(test)]
mod tests {
    use super::*;
    use std::test::Fail;

    #[test]
    fn shows_names(rt: HostRuntime) -> Result<(), Fail> {
        let table = [
            ("", ""),
            ("Clips/A001.mov", "Clips/A001.mov"),
            ("/é//\u{fffd}..", "/é//\u{fffd}.."),
            ("a\nb", "a?b"),
            ("\0\u{1f}\u{20}\u{7e}\u{7f}\u{80}", "??\u{20}\u{7e}?\u{80}"),
            ("a\u{fffe}b\u{ffff}", "a?b?"),
        ];
        for (name, text) in table {
            let shown = ShownName::of(rt.alloc(), name)?;
            assert_eq!(rt; shown.as_str(), text);
        }
        Ok(())
    }

    #[test]
    fn shows_the_first_bytes_up_to_a_whole_character(rt: HostRuntime) -> Result<(), Fail> {
        let table = [
            (1_023, "é", 1_023, ""),
            (1_022, "é", 1_022, "é"),
            (1_021, "\u{fffe}a\n", 1_021, "?"),
            (1_022, "\u{fffe}a", 1_022, ""),
            (1_025, "", 1_024, ""),
            (1_024, "\n", 1_024, ""),
            (1_023, "\n\n", 1_023, "?"),
        ];
        for (before, after, kept, end) in table {
            let mut name = "a".repeat(rt.alloc(), before)?;
            name.push_str(after)?;
            let mut text = "a".repeat(rt.alloc(), kept)?;
            text.push_str(end)?;
            let shown = ShownName::of(rt.alloc(), name.as_str())?;
            assert_eq!(rt; shown.as_str(), text.as_str());
        }
        Ok(())
    }
}
