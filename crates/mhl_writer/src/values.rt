//! The values of a hash list.

use crate::note::NoteText;
use path_text::{Moment, PathText};

/// A file of a list: its path below the folder of the list, its size in bytes, when it was last changed, when its
/// digests were made, and those of its digests that the list records. The eight bytes of `xxh` (XXH64 with seed 0)
/// stand most significant first.
#[derive(Debug, Drop)]
pub struct HashEntry {
    pub path: PathText,
    pub size: Option<u64>,
    pub modified: Option<Moment>,
    pub hashed: Option<Moment>,
    pub md5: Option<[u8; 16]>,
    pub sha1: Option<[u8; 20]>,
    pub xxh: Option<[u8; 8]>,
}

/// Who made a list, where, with which tool, and from when to when.
#[derive(Debug, Drop)]
pub struct Creator {
    pub name: Option<NoteText>,
    pub username: Option<NoteText>,
    pub hostname: Option<NoteText>,
    pub tool: Option<NoteText>,
    pub started: Option<Moment>,
    pub finished: Option<Moment>,
}

/// A list: its creator, and its entries in the order of its text.
#[derive(Debug, Drop)]
pub struct HashList {
    pub creator: Creator,
    pub entries: Vec<HashEntry>,
}
