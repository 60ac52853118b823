//! What was read of the elements of a list.
ghost use Rattle.std.specs.Prelude.{◌≡◌, IfOk, IfErr};
ghost use Rattle.mhl_reader.specs.Leaves.{hash_leaf_name, creator_leaf_name, hash_leaf, creator_leaf, no_leaves, has_leaf, with_leaf, entry_of, no_creator_leaves, has_creator_leaf, new_creator_leaf, with_creator_leaf, creator_of};
ghost use Rattle.mhl_reader.specs.declared.found.HashLeaf.TheVariants.{File};
ghost use Rattle.mhl_reader.specs.Faults.{leaf_fault};
ghost use Rattle.mhl_reader.specs.Code.{Gives, leaf_read};

use crate::entries::Entries;
use crate::error::ReadError;
use crate::values::{date, digest, note, path, size};
use mhl_writer::{Creator, HashEntry, NoteText};
use path_text::{Moment, PathText};
use std::alloc::Global;

/// A leaf of a `hash`.
#[derive(Clone, Copy, Debug)]
pub enum HashLeaf {
    File,
    Size,
    Modified,
    Hashed,
    Md5,
    Sha1,
    Xxh,
}

impl HashLeaf {
    /// The leaf of this name.
    #[tactic(auto, unfolding(crate::specs::Leaves::hash_leaf))]
    pub fn of(name: &[u8]) -> Option<HashLeaf>
        ensures { result ≡ hash_leaf name.now }
    {
        if name == b"file".as_slice() {
            Some(HashLeaf::File)
        } else if name == b"size".as_slice() {
            Some(HashLeaf::Size)
        } else if name == b"lastmodificationdate".as_slice() {
            Some(HashLeaf::Modified)
        } else if name == b"hashdate".as_slice() {
            Some(HashLeaf::Hashed)
        } else if name == b"md5".as_slice() {
            Some(HashLeaf::Md5)
        } else if name == b"sha1".as_slice() {
            Some(HashLeaf::Sha1)
        } else if name == b"xxhash64be".as_slice() {
            Some(HashLeaf::Xxh)
        } else {
            None
        }
    }

    /// Its name.
    pub fn name(self) -> &'static [u8]
        ensures { result.now ≡ hash_leaf_name self }
    {
        match self {
            HashLeaf::File => b"file",
            HashLeaf::Size => b"size",
            HashLeaf::Modified => b"lastmodificationdate",
            HashLeaf::Hashed => b"hashdate",
            HashLeaf::Md5 => b"md5",
            HashLeaf::Sha1 => b"sha1",
            HashLeaf::Xxh => b"xxhash64be",
        }
    }
}

/// The leaves of a `hash` that were read. Of a date that is met but is no moment nothing is kept.
#[derive(Debug, Drop)]
pub struct HashLeaves {
    pub file: Option<PathText>,
    pub size: Option<u64>,
    pub modified: Option<Option<Moment>>,
    pub hashed: Option<Option<Moment>>,
    pub md5: Option<[u8; 16]>,
    pub sha1: Option<[u8; 20]>,
    pub xxh: Option<[u8; 8]>,
}

impl HashLeaves {
    /// None was read.
    pub fn none() -> HashLeaves
        ensures { result ≡ no_leaves }
    {
        HashLeaves {
            file: None,
            size: None,
            modified: None,
            hashed: None,
            md5: None,
            sha1: None,
            xxh: None,
        }
    }

    /// Whether such a leaf was met.
    pub fn has(&self, leaf: HashLeaf) -> bool
        ensures { result ≡ has_leaf leaf self.now }
    {
        match leaf {
            HashLeaf::File => self.file.is_some(),
            HashLeaf::Size => self.size.is_some(),
            HashLeaf::Modified => self.modified.is_some(),
            HashLeaf::Hashed => self.hashed.is_some(),
            HashLeaf::Md5 => self.md5.is_some(),
            HashLeaf::Sha1 => self.sha1.is_some(),
            HashLeaf::Xxh => self.xxh.is_some(),
        }
    }

    // With a file more.
    fn with_file(
        mut self,
        alloc: Global,
        entries: &Entries,
        at: u64,
        text: &[u8],
    ) -> Result<HashLeaves, ReadError>
        ensures { Gives (λ x. x) result (leaf_read (with_leaf entries.now File text.now self) (leaf_fault File at text.now)) }
    {
        let Some(path) = path(alloc, text)? else {
            return Err(ReadError::BadPath { at });
        };
        if entries.has(path.as_str()) {
            return Err(ReadError::Twice { at });
        }
        self.file = Some(path);
        Ok(self)
    }

    /// With a leaf of this text more, whose start tag stands at a place.
    pub fn with(
        mut self,
        alloc: Global,
        entries: &Entries,
        leaf: HashLeaf,
        at: u64,
        text: &[u8],
    ) -> Result<HashLeaves, ReadError>
        ensures { Gives (λ x. x) result (leaf_read (with_leaf entries.now leaf text.now self) (leaf_fault leaf at text.now)) }
    {
        match leaf {
            HashLeaf::File => return self.with_file(alloc, entries, at, text),
            HashLeaf::Size => match size(text) {
                Some(size) => self.size = Some(size),
                None => return Err(ReadError::BadSize { at }),
            },
            HashLeaf::Modified => self.modified = Some(date(text)),
            HashLeaf::Hashed => self.hashed = Some(date(text)),
            HashLeaf::Md5 => match digest(text) {
                Some(md5) => self.md5 = Some(md5),
                None => return Err(ReadError::BadDigest { at }),
            },
            HashLeaf::Sha1 => match digest(text) {
                Some(sha1) => self.sha1 = Some(sha1),
                None => return Err(ReadError::BadDigest { at }),
            },
            HashLeaf::Xxh => match digest(text) {
                Some(xxh) => self.xxh = Some(xxh),
                None => return Err(ReadError::BadDigest { at }),
            },
        }
        Ok(self)
    }

    /// The entry, where there is a file.
    pub fn entry(self) -> Option<HashEntry>
        ensures { result ≡ entry_of self }
    {
        let HashLeaves {
            file,
            size,
            modified,
            hashed,
            md5,
            sha1,
            xxh,
        } = self;
        match file {
            Some(path) => Some(HashEntry {
                path,
                size,
                modified: modified.flatten(),
                hashed: hashed.flatten(),
                md5,
                sha1,
                xxh,
            }),
            None => None,
        }
    }
}

/// A leaf of a `creatorinfo`.
#[derive(Clone, Copy, Debug)]
pub enum CreatorLeaf {
    Name,
    Username,
    Hostname,
    Tool,
    Started,
    Finished,
}

impl CreatorLeaf {
    /// The leaf of this name.
    #[tactic(auto, unfolding(crate::specs::Leaves::creator_leaf))]
    pub fn of(name: &[u8]) -> Option<CreatorLeaf>
        ensures { result ≡ creator_leaf name.now }
    {
        if name == b"name".as_slice() {
            Some(CreatorLeaf::Name)
        } else if name == b"username".as_slice() {
            Some(CreatorLeaf::Username)
        } else if name == b"hostname".as_slice() {
            Some(CreatorLeaf::Hostname)
        } else if name == b"tool".as_slice() {
            Some(CreatorLeaf::Tool)
        } else if name == b"startdate".as_slice() {
            Some(CreatorLeaf::Started)
        } else if name == b"finishdate".as_slice() {
            Some(CreatorLeaf::Finished)
        } else {
            None
        }
    }

    /// Its name.
    pub fn name(self) -> &'static [u8]
        ensures { result.now ≡ creator_leaf_name self }
    {
        match self {
            CreatorLeaf::Name => b"name",
            CreatorLeaf::Username => b"username",
            CreatorLeaf::Hostname => b"hostname",
            CreatorLeaf::Tool => b"tool",
            CreatorLeaf::Started => b"startdate",
            CreatorLeaf::Finished => b"finishdate",
        }
    }
}

/// The leaves of a `creatorinfo` that were read. Of a text that is met but is no note, or a date that is no moment,
/// nothing is kept.
#[derive(Debug, Drop)]
pub struct CreatorLeaves {
    pub name: Option<Option<NoteText>>,
    pub username: Option<Option<NoteText>>,
    pub hostname: Option<Option<NoteText>>,
    pub tool: Option<Option<NoteText>>,
    pub started: Option<Option<Moment>>,
    pub finished: Option<Option<Moment>>,
}

impl CreatorLeaves {
    /// None was read.
    pub fn none() -> CreatorLeaves
        ensures { result ≡ no_creator_leaves }
    {
        CreatorLeaves {
            name: None,
            username: None,
            hostname: None,
            tool: None,
            started: None,
            finished: None,
        }
    }

    /// Whether such a leaf was met.
    pub fn has(&self, leaf: CreatorLeaf) -> bool
        ensures { result ≡ has_creator_leaf leaf self.now }
    {
        match leaf {
            CreatorLeaf::Name => self.name.is_some(),
            CreatorLeaf::Username => self.username.is_some(),
            CreatorLeaf::Hostname => self.hostname.is_some(),
            CreatorLeaf::Tool => self.tool.is_some(),
            CreatorLeaf::Started => self.started.is_some(),
            CreatorLeaf::Finished => self.finished.is_some(),
        }
    }

    /// The leaf of this name, where none was met.
    #[tactic(auto, unfolding(crate::specs::Leaves::new_creator_leaf))]
    pub fn new_leaf(&self, name: &[u8]) -> Option<CreatorLeaf>
        ensures { result ≡ new_creator_leaf self.now name.now }
    {
        match CreatorLeaf::of(name) {
            Some(leaf) if !self.has(leaf) => Some(leaf),
            _ => None,
        }
    }

    /// With a leaf of this text more.
    pub fn with(
        mut self,
        alloc: Global,
        leaf: CreatorLeaf,
        text: &[u8],
    ) -> Result<CreatorLeaves, ReadError>
        ensures read { IfOk result (λ c. c ≡ with_creator_leaf leaf text.now self) }
        ensures memory { IfErr result (λ e. e ≡ ReadError.Memory) }
    {
        match leaf {
            CreatorLeaf::Name => self.name = Some(note(alloc, text)?),
            CreatorLeaf::Username => self.username = Some(note(alloc, text)?),
            CreatorLeaf::Hostname => self.hostname = Some(note(alloc, text)?),
            CreatorLeaf::Tool => self.tool = Some(note(alloc, text)?),
            CreatorLeaf::Started => self.started = Some(date(text)),
            CreatorLeaf::Finished => self.finished = Some(date(text)),
        }
        Ok(self)
    }
}

/// The creator of a list, in which none may be met.
pub fn creator(leaves: Option<CreatorLeaves>) -> Creator
    ensures { result ≡ creator_of leaves }
{
    let CreatorLeaves {
        name,
        username,
        hostname,
        tool,
        started,
        finished,
    } = match leaves {
        Some(leaves) => leaves,
        None => CreatorLeaves::none(),
    };
    Creator {
        name: name.flatten(),
        username: username.flatten(),
        hostname: hostname.flatten(),
        tool: tool.flatten(),
        started: started.flatten(),
        finished: finished.flatten(),
    }
}

#[cfg(test)]
mod tests {
    use super::*;
    use std::test::Fail;

    #[test]
    fn knows_leaves_by_name(rt: HostRuntime) {
        let of_hash: [&[u8]; 7] = [
            b"file",
            b"size",
            b"lastmodificationdate",
            b"hashdate",
            b"md5",
            b"sha1",
            b"xxhash64be",
        ];
        for name in of_hash {
            let leaf = HashLeaf::of(name).expect(&rt, "a leaf of a hash");
            assert_eq!(rt; leaf.name(), name);
        }
        let of_creator: [&[u8]; 6] = [
            b"name",
            b"username",
            b"hostname",
            b"tool",
            b"startdate",
            b"finishdate",
        ];
        for name in of_creator {
            let leaf = CreatorLeaf::of(name).expect(&rt, "a leaf of a creator");
            assert_eq!(rt; leaf.name(), name);
        }
        let others: [&[u8]; 5] = [b"", b"File", b"md", b"md55", b"xxhash64"];
        for name in others {
            assert!(rt; HashLeaf::of(name).is_none(), "at {name:?}");
            assert!(rt; CreatorLeaf::of(name).is_none(), "at {name:?}");
        }
    }

    #[test]
    fn makes_an_entry_of_leaves(rt: HostRuntime) -> Result<(), Fail> {
        let entries = Entries::new(rt.alloc());
        let table: [(HashLeaf, &[u8]); 7] = [
            (HashLeaf::File, b"Clips/A001.mov"),
            (HashLeaf::Size, b"0"),
            (HashLeaf::Modified, b"2014-10-24T12:00:00Z"),
            (HashLeaf::Hashed, b"yesterday"),
            (HashLeaf::Md5, b"d41d8cd98f00b204e9800998ecf8427e"),
            (HashLeaf::Sha1, b"DA39A3EE5E6B4B0D3255BFEF95601890AFD80709"),
            (HashLeaf::Xxh, b"ef46db3751d8e999"),
        ];
        let mut leaves = HashLeaves::none();
        for (leaf, text) in table {
            assert!(rt; !leaves.has(leaf), "at {leaf:?}");
            leaves = leaves.with(rt.alloc(), &entries, leaf, 0, text)?;
            assert!(rt; leaves.has(leaf), "at {leaf:?}");
        }
        let entry = leaves.entry().expect(&rt, "an entry");
        assert_eq!(rt; entry.path.as_str(), "Clips/A001.mov");
        assert_eq!(rt; entry.size, Some(0));
        assert_eq!(rt; entry.modified, Moment::new(1_414_152_000));
        assert_eq!(rt; entry.hashed, None);
        assert!(rt; entry.md5.is_some() && entry.sha1.is_some() && entry.xxh.is_some());
        Ok(())
    }

    #[test]
    fn makes_a_creator_of_leaves(rt: HostRuntime) -> Result<(), Fail> {
        let table: [(CreatorLeaf, &[u8]); 6] = [
            (CreatorLeaf::Name, b" Ana Lima "),
            (CreatorLeaf::Username, b""),
            (CreatorLeaf::Hostname, b"cart1"),
            (CreatorLeaf::Tool, b"a tool"),
            (CreatorLeaf::Started, b"2014-10-24T12:00:00Z"),
            (CreatorLeaf::Finished, b"later"),
        ];
        let mut leaves = CreatorLeaves::none();
        for (leaf, text) in table {
            assert!(rt; leaves.new_leaf(leaf.name()).is_some(), "at {leaf:?}");
            leaves = leaves.with(rt.alloc(), leaf, text)?;
            assert!(rt; leaves.new_leaf(leaf.name()).is_none(), "at {leaf:?}");
        }
        let creator = creator(Some(leaves));
        let name = creator.name.expect(&rt, "a name");
        assert_eq!(rt; name.as_str(), "Ana Lima");
        assert!(rt;
            creator.username.is_none() && creator.hostname.is_some() && creator.tool.is_some()
        );
        assert_eq!(rt; creator.started, Moment::new(1_414_152_000));
        assert_eq!(rt; creator.finished, None);
        Ok(())
    }
}
