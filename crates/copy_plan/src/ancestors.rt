//! Ancestors of a path among the files of an inventory.

ghost use Rattle.std.specs.Prelude.{◌≡◌, ◌≢◌, false, IfSome, IfNone};
ghost use Rattle.std.specs.List.{AllByRecursion};
ghost use Rattle.std.specs.Ordering.{nat_cmp};
ghost use Rattle.std.specs.Cmp.Lexicographic.{slice_cmp};
ghost use Rattle.path_text.specs.Path.{is_ancestor};
ghost use Rattle.copy_plan.specs.Inventory.{Precedes, EachPair};
ghost use Rattle.copy_plan.specs.Ancestors.{FirstAncestor, HasPath};

use crate::file::PlannedFile;
use path_text::PathText;
use std::cmp::Ordering;

// How the path of a file stands to these bytes.
fn path_cmp(file: &PlannedFile, path: &[u8]) -> Ordering
    ensures { result ≡ slice_cmp nat_cmp file.now.path path.now }
{
    file.path.as_str().as_bytes().cmp(path)
}

// The place of the file with these bytes as its path.
fn place_of(files: &[PlannedFile], path: &[u8]) -> Option<usize>
    requires { EachPair Precedes files.now }
    ensures found { IfSome result (λ at. HasPath path.now files.now at) }
    ensures none { IfNone result (AllByRecursion (λ f. f.path ≢ path.now) files.now) }
{
    let found = files.binary_search_by(|file| path_cmp(file, path));
    match found {
        Ok(at) => Some(at),
        Err(_) => None,
    }
}

/// The place of the first of the files whose path is an ancestor of `path`. They stand in strictly increasing byte
/// order, and none is an ancestor of another (docs/FORMATS.md, "Inventories"). Takes no memory, and looks at a few
/// files for each slash in `path`.
pub fn first_ancestor(files: &[PlannedFile], path: &PathText) -> Option<usize>
    requires { EachPair Precedes files.now }
    ensures found { IfSome result (λ at. FirstAncestor path.now files.now at) }
    ensures none { IfNone result (AllByRecursion (λ f. is_ancestor f.path path.now ≡ false) files.now) }
{
    let text = path.as_str().as_bytes();
    for at in 0..text.len() {
        if text[at] != b'/' {
            continue;
        }
        if let Some(place) = place_of(files, &text[..at]) {
            return Some(place);
        }
    }
    None
}
