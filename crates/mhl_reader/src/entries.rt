//! The entries that were read, and their paths in an ordered set.
ghost use Rattle.std.specs.Prelude.{◌≡◌, ◌++◌, [], ◌∷◌, length, IfOk};
ghost use Rattle.mhl_reader.specs.Leaves.{is_taken};

use mhl_writer::HashEntry;
use std::alloc::{AllocError, Global};
use std::collections::BTreeSet;
use std::marker::Model;

/// Entries in the order of the document, seen as their list. Whether one of them has a path takes the logarithm of
/// their number.
#[derive(Debug, Drop)]
pub struct Entries {
    list: Vec<HashEntry>,
    paths: BTreeSet<String>,
}

impl Model for Entries {
    ghost use Rattle.std.specs.Prelude.{◌≡◌, List, ℕ};
    ghost use Rattle.std.specs.BTreeSet.{contains_text};
    ghost use Rattle.mhl_writer.specs.declared.values.HashEntry.{HashEntry};
    ghost use Rattle.mhl_reader.specs.Leaves.{is_taken};

    ghost Value = { List HashEntry };

    ghost view = { λ a. a.list.items };

    ghost invariant = { λ a. (path : List ℕ) → contains_text a.paths path ≡ is_taken a.list.items path };
}

impl Entries {
    /// No entries.
    pub fn new(alloc: Global) -> Entries
        ensures { result ≡ [] }
    {
        Entries {
            list: Vec::new(alloc),
            paths: BTreeSet::new(alloc),
        }
    }

    /// How many they are.
    pub fn len(&self) -> usize
        ensures { result ≡ length self.now }
    {
        self.list.len()
    }

    /// Whether one of them has this path.
    pub fn has(&self, path: &str) -> bool
        ensures { result ≡ is_taken self.now path.now }
    {
        self.paths.contains(path)
    }

    /// With an entry more at the end.
    pub fn with(self, alloc: Global, entry: HashEntry) -> Result<Entries, AllocError>
        ensures { IfOk result (λ entries. entries ≡ self ++ entry ∷ []) }
    {
        let path = entry.path.as_str().to_owned(alloc)?;
        let Entries {
            mut list,
            mut paths,
        } = self;
        paths.insert(path)?;
        list.push(entry)?;
        Ok(Entries { list, paths })
    }

    /// The entries.
    pub fn into_list(self) -> Vec<HashEntry>
        ensures { result.items ≡ self }
    {
        self.list
    }
}

#[cfg(test)]
mod tests {
    use super::*;
    use path_text::PathText;
    use std::test::Fail;

    #[test]
    fn keeps_entries_in_order(rt: HostRuntime) -> Result<(), Fail> {
        let mut entries = Entries::new(rt.alloc());
        assert_eq!(rt; entries.len(), 0);
        for path in ["b", "a/c", "a"] {
            assert!(rt; !entries.has(path), "at {path}");
            let entry = HashEntry {
                path: PathText::read(rt.alloc(), path)?,
                size: None,
                modified: None,
                hashed: None,
                md5: None,
                sha1: None,
                xxh: None,
            };
            entries = entries.with(rt.alloc(), entry)?;
            assert!(rt; entries.has(path), "at {path}");
        }
        assert_eq!(rt; entries.len(), 3);
        assert!(rt; !entries.has("A"));
        let list = entries.into_list();
        assert_eq!(rt; list.len(), 3);
        for (entry, path) in list.iter().zip(["b", "a/c", "a"]) {
            assert_eq!(rt; entry.path.as_str(), path);
        }
        Ok(())
    }
}
