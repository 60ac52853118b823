//! Paths by their parts between slashes.

ghost use Rattle.std.specs.Prelude.{◌≡◌};
ghost use Rattle.path_text.specs.Path.{is_ancestor, is_one_part};

use crate::path::PathText;
use crate::places::byte_at;

/// Whether `b` lies below `a`: its text begins with that of `a` followed by a slash.
pub fn ancestor_of(a: &PathText, b: &PathText) -> bool
    ensures { result ≡ is_ancestor a.now b.now }
{
    let above = a.as_str().as_bytes();
    let below = b.as_str().as_bytes();
    below.starts_with(above) && byte_at(below, above.len()) == b'/'
}

/// Whether a path has one part, so that it names a file at the top of its folder.
pub fn has_one_part(path: &PathText) -> bool
    ensures { result ≡ is_one_part path.now }
{
    !path.as_str().as_bytes().contains(&b'/')
}

#[cfg(test)]
mod tests {
    use super::*;
    use std::test::Fail;

    #[test]
    fn tells_ancestors(rt: HostRuntime) -> Result<(), Fail> {
        let table = [
            ("a", "a/b", true),
            ("a", "a/b/c", true),
            ("a/b", "a/b/c", true),
            ("a", "a", false),
            ("a", "ab", false),
            ("a", "a-/b", false),
            ("a/b", "a", false),
            ("b", "a/b", false),
            ("A", "a/b", false),
        ];
        for (above, below, is) in table {
            let a = PathText::read(rt.alloc(), above)?;
            let b = PathText::read(rt.alloc(), below)?;
            assert_eq!(rt; ancestor_of(&a, &b), is, "at {above:?} and {below:?}");
        }
        Ok(())
    }

    #[test]
    fn tells_paths_of_one_part(rt: HostRuntime) -> Result<(), Fail> {
        let table = [
            ("a", true),
            ("A001_2014-10-24_120000.mhl", true),
            ("a/b", false),
            (".mhlstation/new", false),
        ];
        for (text, is) in table {
            let path = PathText::read(rt.alloc(), text)?;
            assert_eq!(rt; has_one_part(&path), is, "at {text:?}");
        }
        Ok(())
    }
}
