//! Inventories: the files of a card in order.

ghost use Rattle.std.specs.Prelude.{◌≡◌, ℕ, ◌+◌, ◌<◌, ◌≤◌, false, List, length, slice_index_or, vec_len, MatchBool, MatchOption, IfSome, IfNone, if◌then◌else◌};
ghost use Rattle.std.specs.List.{AllByRecursion};
ghost use Rattle.std.specs.List.Sorted.{IsSortedBy};
ghost use Rattle.std.specs.Ordering.{nat_cmp, is_lt};
ghost use Rattle.std.specs.Cmp.Lexicographic.{slice_cmp};
ghost use Rattle.copy_plan.specs.declared.file.PlannedFile.{PlannedFile};
ghost use Rattle.path_text.specs.Path.{is_control_path};
ghost use Rattle.copy_plan.specs.Inventory.{IsPlannable, Precedes, EachPair, IsInventory, path_bytes, most_files};
ghost use Rattle.copy_plan.specs.Build.{IsArranged, IsInBounds, IsFit, IsFirstNot, IsFirstClashing, IsClashAt, BuildGives};

use crate::ancestors::first_ancestor;
use crate::file::PlannedFile;
use path_text::{PathText, is_control};
use std::marker::Model;
use thiserror::Error;

/// The most files of an inventory.
pub const MOST_FILES: u32 = 262_144;

/// The most bytes of all its paths.
pub const MOST_PATH_BYTES: u64 = 33_554_432;

/// The size that no file of it has, 2^48 bytes.
pub const SIZE_LIMIT: u64 = 281_474_976_710_656;

/// Why files are no inventory.
#[derive(Debug, Drop, Error)]
pub enum BuildError {
    #[error("no files")]
    Empty,
    #[error("{count} files")]
    TooManyFiles { count: u64 },
    #[error("paths of {sum} bytes")]
    TooManyBytes { sum: u64 },
    #[error("a control path")]
    Control { path: PathText },
    #[error("a file of 2^48 bytes or more")]
    TooBig { path: PathText },
    #[error("two paths that clash")]
    Clash { first: PathText, second: PathText },
}

/// The files of a card, 1 to 262,144, seen as their list in strictly increasing byte order of their paths.
///
/// The paths have at most 33,554,432 bytes in all, each file has less than 2^48 bytes, none has a control path, and
/// no path is an ancestor of another (docs/FORMATS.md, "Inventories").
#[derive(Debug, Drop)]
pub struct Inventory {
    files: Vec<PlannedFile>,
}

impl Model for Inventory {
    ghost use Rattle.std.specs.Prelude.{List};
    ghost use Rattle.copy_plan.specs.declared.file.PlannedFile.{PlannedFile};
    ghost use Rattle.copy_plan.specs.Inventory.{IsInventory};

    ghost Value = { List PlannedFile };

    ghost view = { λ a. a.files.items };

    ghost invariant = { λ a. IsInventory a.files.items };
}

impl Inventory {
    /// The inventory of these files, which may stand in any order. The refusals are tested in the order of
    /// [`BuildError`]; of the control paths and the files that are too big the first in byte order is answered, and
    /// of the clashes, of equal paths or of an ancestor with a path below it, the one with the least `second` and then
    /// the least `first`. Takes no memory.
    pub fn build(files: Vec<PlannedFile>) -> Result<Inventory, BuildError>
        ensures { (arranged : List PlannedFile) × IsArranged files.items arranged × BuildGives arranged result }
    {
        let mut files = files;
        arrange(&mut files);
        if let Some(error) = out_of_bounds(&files) {
            return Err(error);
        }
        if let Some(at) = first_unfit(&files) {
            return Err(unfit(take_path(&mut files, at)));
        }
        if let Some((above, below)) = first_clash(&files) {
            let second = take_path(&mut files, below);
            let first = take_path(&mut files, above);
            return Err(BuildError::Clash { first, second });
        }
        Ok(Inventory { files })
    }

    /// The files.
    pub fn files(&self) -> &[PlannedFile]
        ensures same { result.now ≡ self.now }
        ensures inventory { IsInventory self.now }
    {
        &self.files
    }

    // The files, given back.
    pub(crate) fn into_files(self) -> Vec<PlannedFile>
        ensures same { result.items ≡ self }
        ensures inventory { IsInventory self }
    {
        self.files
    }
}

// Puts files in byte order of their paths.
fn arrange(files: &mut Vec<PlannedFile>)
    ensures { IsArranged files.old.items files.new.items }
{
    files.sort_unstable_by(|a, b| a.path.cmp(&b.path));
}

// Whether a file may stand in an inventory.
fn is_plannable(file: &PlannedFile) -> bool
    ensures { MatchBool result (IsPlannable file.now) (¬ IsFit file.now) }
{
    // What is known of every path and every moment.
    let _path = file.path.as_str();
    let _date = file.modified.seconds();
    !is_control(&file.path) && file.size < SIZE_LIMIT
}

// The first file that may not stand in an inventory.
fn first_unfit(files: &[PlannedFile]) -> Option<usize>
    ensures found { IfSome result (λ at. IsFirstNot IsFit files.now at) }
    ensures none { IfNone result (AllByRecursion IsPlannable files.now) }
{
    for at in 0..files.len() {
        if !is_plannable(&files[at]) {
            return Some(at);
        }
    }
    None
}

// Which fault the path of a file that may not stand in an inventory tells of.
fn unfit(path: PathText) -> BuildError
    ensures { result ≡ (if is_control_path path then BuildError.Control path else BuildError.TooBig path) }
{
    if is_control(&path) {
        BuildError::Control { path }
    } else {
        BuildError::TooBig { path }
    }
}

// The bytes of the paths of files.
fn count_bytes(files: &[PlannedFile]) -> u64
    requires { length files.now ≤ most_files }
    ensures { result ≡ path_bytes files.now }
{
    let mut sum = 0;
    for file in files {
        sum += file.path.as_str().len() as u64;
    }
    sum
}

// Why files are none, too many, or with too many bytes of paths.
fn out_of_bounds(files: &[PlannedFile]) -> Option<BuildError>
    ensures { MatchOption result (IsInBounds files.now) (λ error. BuildGives files.now (Err error)) }
{
    if files.is_empty() {
        return Some(BuildError::Empty);
    }
    if files.len() > MOST_FILES as usize {
        return Some(BuildError::TooManyFiles {
            count: files.len() as u64,
        });
    }
    let sum = count_bytes(files);
    if sum > MOST_PATH_BYTES {
        return Some(BuildError::TooManyBytes { sum });
    }
    None
}

// The first of the files that clashes with one that stands behind them.
fn first_clashing(before: &[PlannedFile], file: &PlannedFile) -> Option<usize>
    requires pairs { EachPair Precedes before.now }
    requires order { AllByRecursion (λ f. is_lt (slice_cmp nat_cmp file.now.path f.path) ≡ false) before.now }
    ensures found { IfSome result (λ at. IsFirstClashing before.now file.now at) }
    ensures none { IfNone result (AllByRecursion (λ f. Precedes f file.now) before.now) }
{
    let Some((last, front)) = before.split_last() else {
        return None;
    };
    if last.path == file.path {
        return Some(front.len());
    }
    first_ancestor(before, &file.path)
}

// The first file with which an earlier one clashes, behind the first of those that clash with it.
fn first_clash(files: &[PlannedFile]) -> Option<(usize, usize)>
    requires { IsSortedBy (λ f g. is_lt (slice_cmp nat_cmp f.path g.path)) files.now }
    ensures found { IfSome result (λ x. IsClashAt files.now x.0 x.1) }
    ensures none { IfNone result (EachPair Precedes files.now) }
{
    for at in 0..files.len() {
        if let Some(above) = first_clashing(&files[..at], &files[at]) {
            return Some((above, at));
        }
    }
    None
}

// Takes the path of a file out of the files. The last file takes its place.
pub(crate) fn take_path(files: &mut Vec<PlannedFile>, at: usize) -> PathText
    requires { at < vec_len files.old }
    ensures path { (f : PlannedFile) → result ≡ (slice_index_or files.old.items at f).path }
    ensures len { vec_len files.new + 1 ≡ vec_len files.old }
    ensures others { (k : ℕ) (f : PlannedFile) → k < at → slice_index_or files.new.items k f ≡ slice_index_or files.old.items k f }
{
    let PlannedFile {
        path,
        size: _,
        modified: _,
    } = files.swap_remove(at);
    path
}

#[cfg(test)]
mod tests {
    use super::*;
    use path_text::Moment;
    use std::alloc::Global;
    use std::test::Fail;

    // 2^48 bytes.
    const BIG: u64 = 281_474_976_710_656;

    fn file_of(alloc: Global, path: &str, size: u64) -> Result<PlannedFile, Fail> {
        Ok(PlannedFile {
            path: PathText::read(alloc, path)?,
            size,
            modified: Moment::new(0).ok_or("a moment")?,
        })
    }

    // What building gives, in words.
    fn told(alloc: Global, built: Result<Inventory, BuildError>) -> Result<String, Fail> {
        let inventory = match built {
            Ok(inventory) => inventory,
            Err(error) => return said(alloc, error),
        };
        let mut text = String::from_str(alloc, "files")?;
        for file in inventory.files() {
            text.push(' ')?;
            text.push_str(file.path.as_str())?;
        }
        Ok(text)
    }

    fn said(alloc: Global, error: BuildError) -> Result<String, Fail> {
        let text = match error {
            BuildError::Empty => String::from_str(alloc, "empty")?,
            BuildError::TooManyFiles { count } => format!(in alloc; "count {count}")?,
            BuildError::TooManyBytes { sum } => format!(in alloc; "bytes {sum}")?,
            BuildError::Control { path } => format!(in alloc; "control {}", path.as_str())?,
            BuildError::TooBig { path } => format!(in alloc; "big {}", path.as_str())?,
            BuildError::Clash { first, second } => {
                format!(in alloc; "clash {} {}", first.as_str(), second.as_str())?
            }
        };
        Ok(text)
    }

    #[test]
    fn builds_or_says_why_not(rt: HostRuntime) -> Result<(), Fail> {
        let table: [(&[(&str, u64)], &str); 17] = [
            (&[], "empty"),
            (
                &[("b", 0), ("a/b", 1), ("a-b", 2), ("a/a", 3)],
                "files a-b a/a a/b b",
            ),
            (&[("a", BIG - 1)], "files a"),
            (&[("a", BIG)], "big a"),
            (&[("a", 0), (".mhlstation", 0)], "control .mhlstation"),
            (&[(".mhlstation/x", BIG)], "control .mhlstation/x"),
            (&[(".mhlstation", 0), ("-a", BIG)], "big -a"),
            (
                &[("b", BIG), (".mhlstation", 0), ("a", BIG)],
                "control .mhlstation",
            ),
            (&[("a", 0), ("a/b", 0), ("z", BIG)], "big z"),
            (&[("a", 0), ("a/b", 0)], "clash a a/b"),
            (&[("a/b/c", 0), ("a", 0)], "clash a a/b/c"),
            (&[("b", 0), ("a", 0), ("b", 1)], "clash b b"),
            (&[("a/c", 0), ("a-b", 0), ("a", 0)], "clash a a/c"),
            (
                &[("a", 0), ("a-b", 0), ("a.b/c", 0), ("a/c", 0)],
                "clash a a/c",
            ),
            (&[("b/x", 0), ("b", 0), ("a/y", 0), ("a", 0)], "clash a a/y"),
            (&[("a/b/c", 0), ("a/b", 0), ("a", 0)], "clash a a/b"),
            (&[("a", 0), ("a/b", 0), ("a/b", 0)], "clash a a/b"),
        ];
        for (rows, wanted) in table {
            let mut files = Vec::new(rt.alloc());
            for (path, size) in rows {
                files.push(file_of(rt.alloc(), path, *size)?)?;
            }
            let text = told(rt.alloc(), Inventory::build(files))?;
            assert_eq!(rt; text.as_str(), wanted);
        }
        Ok(())
    }

    // So many files, with paths of `stem` and six digits.
    fn many(alloc: Global, count: u32, stem: &str) -> Result<Vec<PlannedFile>, Fail> {
        let mut files = Vec::new(alloc);
        for n in 0..count {
            let path = format!(in alloc; "{stem}{}", u64::from(n) + 100_000)?;
            files.push(file_of(alloc, path.as_str(), 0)?)?;
        }
        Ok(files)
    }

    #[test]
    fn takes_so_many_files_and_bytes(rt: HostRuntime) -> Result<(), Fail> {
        let long = "a".repeat(rt.alloc(), 1018)?;
        let most = Inventory::build(many(rt.alloc(), 262_144, "")?)?;
        assert_eq!(rt; most.files().len(), 262_144);
        let longest = Inventory::build(many(rt.alloc(), 32_768, long.as_str())?)?;
        assert_eq!(rt; longest.files().len(), 32_768);
        let table = [
            (262_145, "", "count 262145"),
            (262_145, "0", "count 262145"),
            (32_769, long.as_str(), "bytes 33555456"),
        ];
        for (count, stem, wanted) in table {
            let files = many(rt.alloc(), count, stem)?;
            let text = told(rt.alloc(), Inventory::build(files))?;
            assert_eq!(rt; text.as_str(), wanted);
        }
        Ok(())
    }
}
