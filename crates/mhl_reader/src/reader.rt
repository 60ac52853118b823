//! What is open while a document is read, and what was read of it.
ghost use Rattle.std.specs.Prelude.{◌≡◌, ◌<◌, ◌+◌, ◌^◌, length, [], false};
ghost use Rattle.markup.specs.Mark.{start, stop, aside, text};
ghost use Rattle.markup.specs.Taking.{attributes_of};
ghost use Rattle.markup.specs.Token.{letters_at, seen_at};
ghost use Rattle.mhl_reader.specs.Leaves.{is_named};
ghost use Rattle.mhl_reader.specs.Grammar.{has_version};
ghost use Rattle.mhl_reader.specs.Faults.{depth, entered, ends, closed, step_skipping, steps, ended, nothing_open};
ghost use Rattle.mhl_reader.specs.Code.{Gives, reader_seen, is_leaf, is_after, RunFits};

use crate::entries::Entries;
use crate::error::ReadError;
use crate::found::{CreatorLeaf, CreatorLeaves, HashLeaf, HashLeaves};
use markup::{Token, skip_space, value_of};
use std::alloc::Global;

/// The most entries of a list.
const MAX_ENTRIES: usize = 262_144;

/// The most elements that are open in one another.
const MAX_DEPTH: usize = 32;

/// The element that is open, but for skipped ones, and what was read of it. A `hash` and its leaf have their places.
#[derive(Debug, Drop)]
pub enum Open {
    Before,
    List,
    Hash(u64, HashLeaves),
    HashLeaf(u64, HashLeaves, HashLeaf, u64),
    Creator(CreatorLeaves),
    CreatorLeaf(CreatorLeaves, CreatorLeaf),
    After,
}

/// A reader within a document: what is open, the text of the leaf that is open, what was read of the list, and the
/// names of the skipped elements that are open, the outermost first.
#[derive(Debug, Drop)]
pub struct Reader<'a> {
    pub base: Open,
    pub text: Vec<u8>,
    pub creator: Option<CreatorLeaves>,
    pub entries: Entries,
    pub skipped: Vec<&'a [u8]>,
}

fn malformed(at: u64) -> ReadError
    ensures { result ≡ ReadError.Malformed at }
{
    ReadError::Malformed { at }
}

fn is_named(name: &[u8], word: &[u8]) -> bool
    ensures { result ≡ is_named word.now name.now }
{
    name == word
}

// Whether the first version begins with 1.
fn has_version(attributes: &[u8]) -> bool
    ensures { result ≡ has_version (attributes_of attributes.now) }
{
    match value_of(attributes, b"version") {
        Some(version) => version.starts_with(b"1."),
        None => false,
    }
}

impl<'a> Reader<'a> {
    /// Nothing was read.
    pub fn new(alloc: Global) -> Reader<'a>
        ensures { reader_seen result ≡ nothing_open }
    {
        Reader {
            base: Open::Before,
            text: Vec::new(alloc),
            creator: None,
            entries: Entries::new(alloc),
            skipped: Vec::new(alloc),
        }
    }

    // A start tag where nothing is skipped.
    fn enter_base(
        self,
        place: u64,
        name: &'a [u8],
        attributes: &[u8],
    ) -> Result<Reader<'a>, ReadError>
        requires { self.skipped.items ≡ [] }
        ensures { Gives reader_seen result (entered (reader_seen self.entry).base (reader_seen self.entry) place name.entry.now (attributes_of attributes.now)) }
    {
        let Reader {
            base,
            mut text,
            creator,
            entries,
            mut skipped,
        } = self;
        text.clear();
        let base = match base {
            Open::Before => {
                if !is_named(name, b"hashlist") {
                    return Err(malformed(place));
                }
                if !has_version(attributes) {
                    return Err(ReadError::Version);
                }
                Open::List
            }
            Open::List => {
                if is_named(name, b"hash") {
                    if entries.len() >= MAX_ENTRIES {
                        return Err(ReadError::TooMany { at: place });
                    }
                    Open::Hash(place, HashLeaves::none())
                } else if is_named(name, b"creatorinfo") && creator.is_none() {
                    Open::Creator(CreatorLeaves::none())
                } else {
                    skipped.push(name)?;
                    Open::List
                }
            }
            Open::Hash(hash, leaves) => match HashLeaf::of(name) {
                Some(leaf) => {
                    if leaves.has(leaf) {
                        return Err(malformed(place));
                    }
                    Open::HashLeaf(hash, leaves, leaf, place)
                }
                None => {
                    skipped.push(name)?;
                    Open::Hash(hash, leaves)
                }
            },
            Open::Creator(leaves) => match leaves.new_leaf(name) {
                Some(leaf) => Open::CreatorLeaf(leaves, leaf),
                None => {
                    skipped.push(name)?;
                    Open::Creator(leaves)
                }
            },
            Open::HashLeaf(_, _, _, _) | Open::CreatorLeaf(_, _) | Open::After => {
                return Err(malformed(place));
            }
        };
        Ok(Reader {
            base,
            text,
            creator,
            entries,
            skipped,
        })
    }

    // Whether an end tag of this name ends what is open.
    fn ends(&self, name: &[u8]) -> bool
        ensures { result ≡ ends (reader_seen self.now).base name.now }
    {
        match &self.base {
            Open::Before | Open::After => false,
            Open::List => is_named(name, b"hashlist"),
            Open::Hash(_, _) => is_named(name, b"hash"),
            Open::HashLeaf(_, _, leaf, _) => is_named(name, leaf.name()),
            Open::Creator(_) => is_named(name, b"creatorinfo"),
            Open::CreatorLeaf(_, leaf) => is_named(name, leaf.name()),
        }
    }

    // What is open ends, where nothing is skipped.
    fn close(self, alloc: Global) -> Result<Reader<'a>, ReadError>
        requires { self.skipped.items ≡ [] }
        ensures { Gives reader_seen result (closed (reader_seen self.entry).base (reader_seen self.entry)) }
    {
        let Reader {
            base,
            text,
            creator,
            entries,
            skipped,
        } = self;
        match base {
            Open::List => Ok(Reader {
                base: Open::After,
                text,
                creator,
                entries,
                skipped,
            }),
            Open::Hash(hash, leaves) => {
                let Some(entry) = leaves.entry() else {
                    return Err(ReadError::NoFile { at: hash });
                };
                let entries = entries.with(alloc, entry)?;
                Ok(Reader {
                    base: Open::List,
                    text,
                    creator,
                    entries,
                    skipped,
                })
            }
            Open::HashLeaf(hash, leaves, leaf, at) => {
                match leaves.with(alloc, &entries, leaf, at, &text) {
                    Ok(leaves) => Ok(Reader {
                        base: Open::Hash(hash, leaves),
                        text,
                        creator,
                        entries,
                        skipped,
                    }),
                    Err(e) => Err(e),
                }
            }
            Open::Creator(leaves) => Ok(Reader {
                base: Open::List,
                text,
                creator: Some(leaves),
                entries,
                skipped,
            }),
            Open::CreatorLeaf(leaves, leaf) => {
                let leaves = leaves.with(alloc, leaf, &text)?;
                Ok(Reader {
                    base: Open::Creator(leaves),
                    text,
                    creator,
                    entries,
                    skipped,
                })
            }
            Open::Before => Ok(Reader {
                base: Open::Before,
                text,
                creator,
                entries,
                skipped,
            }),
            Open::After => Ok(Reader {
                base: Open::After,
                text,
                creator,
                entries,
                skipped,
            }),
        }
    }

    // A comment or an instruction.
    fn pass(self, place: u64) -> Result<Reader<'a>, ReadError>
        ensures { Gives reader_seen result (step_skipping (reader_seen self.entry).skipped (reader_seen self.entry) place aside) }
    {
        if self.skipped.is_empty() && self.is_in_leaf() {
            return Err(malformed(place));
        }
        Ok(self)
    }

    // Whether a leaf is open.
    fn is_in_leaf(&self) -> bool
        ensures { result ≡ is_leaf (reader_seen self.now).base }
    {
        matches!(
            &self.base,
            Open::HashLeaf(_, _, _, _) | Open::CreatorLeaf(_, _)
        )
    }

    // Whether the list has ended.
    fn is_after(&self) -> bool
        ensures { result ≡ is_after (reader_seen self.now).base }
    {
        matches!(&self.base, Open::After)
    }

    // How deep the open element is that is not skipped.
    fn depth(&self) -> usize
        ensures { result ≡ depth (reader_seen self.now).base }
    {
        match &self.base {
            Open::Before | Open::After => 0,
            Open::List => 1,
            Open::Hash(_, _) | Open::Creator(_) => 2,
            Open::HashLeaf(_, _, _, _) | Open::CreatorLeaf(_, _) => 3,
        }
    }

    // A start tag.
    fn enter(
        mut self,
        place: u64,
        name: &'a [u8],
        attributes: &[u8],
    ) -> Result<Reader<'a>, ReadError>
        ensures { Gives reader_seen result (step_skipping (reader_seen self.entry).skipped (reader_seen self.entry) place (start name.entry.now (attributes_of attributes.now))) }
    {
        if self.skipped.is_empty() {
            return self.enter_base(place, name, attributes);
        }
        if self.skipped.len() >= MAX_DEPTH - self.depth() {
            return Err(malformed(place));
        }
        self.skipped.push(name)?;
        Ok(self)
    }

    // An end tag.
    fn leave(mut self, alloc: Global, place: u64, name: &[u8]) -> Result<Reader<'a>, ReadError>
        ensures { Gives reader_seen result (step_skipping (reader_seen self.entry).skipped (reader_seen self.entry) place (stop name.now)) }
    {
        if self.skipped.is_empty() {
            if !self.ends(name) {
                return Err(malformed(place));
            }
            return self.close(alloc);
        }
        match self.skipped.pop() {
            Some(opened) if is_named(name, opened) => Ok(self),
            _ => Err(malformed(place)),
        }
    }

    // A reference where it may stand: in a leaf and in a skipped element.
    fn refer(mut self, place: u64, bytes: &[u8]) -> Result<Reader<'a>, ReadError>
        ensures { Gives reader_seen result (step_skipping (reader_seen self.entry).skipped (reader_seen self.entry) place (text false bytes.now)) }
    {
        if !self.skipped.is_empty() {
            return Ok(self);
        }
        if !self.is_in_leaf() {
            return Err(malformed(place));
        }
        self.text.extend_from_slice(bytes)?;
        Ok(self)
    }

    // A run of text.
    fn read_run(mut self, place: u64, run: &[u8]) -> Result<Reader<'a>, ReadError>
        requires { place + length run.now < 2 ^ 64 }
        ensures { Gives reader_seen result (steps (reader_seen self.entry) (letters_at place run.now)) }
    {
        if !self.skipped.is_empty() {
            return Ok(self);
        }
        if self.is_in_leaf() {
            self.text.extend_from_slice(run)?;
            return Ok(self);
        }
        let rest = skip_space(run);
        if rest.is_empty() {
            return Ok(self);
        }
        Err(malformed(place + (run.len() - rest.len()) as u64))
    }

    /// With a token more, which begins at a place.
    pub fn step(self, alloc: Global, place: u64, token: Token<'a>) -> Result<Reader<'a>, ReadError>
        requires { RunFits place token }
        ensures { Gives reader_seen result (steps (reader_seen self.entry) (seen_at place token.entry)) }
    {
        match token {
            Token::Start(name, attributes) => self.enter(place, name, attributes),
            Token::Empty(name, attributes) => match self.enter(place, name, attributes) {
                Ok(inner) => inner.leave(alloc, place, name),
                Err(e) => Err(e),
            },
            Token::End(name) => self.leave(alloc, place, name),
            Token::Aside => self.pass(place),
            Token::Reference(c) => {
                let mut buffer = [0; 4];
                self.refer(place, c.encode_utf8(&mut buffer).as_bytes())
            }
            Token::Text(run) => self.read_run(place, run),
        }
    }

    /// The list that was read, where the end of the input may stand.
    pub fn finish(self, len: u64) -> Result<(Option<CreatorLeaves>, Entries), ReadError>
        ensures { Gives (λ x. record { creator = x.0; entries = x.1 }) result (ended (reader_seen self.entry) len) }
    {
        if !self.skipped.is_empty() {
            return Err(malformed(len));
        }
        if !self.is_after() {
            return Err(malformed(len));
        }
        Ok((self.creator, self.entries))
    }
}
