// The words of the program, and the line that it says at its end.
ghost use Rattle.std.specs.Prelude.{◌≡◌, None};

use crate::program::{NotBegun, copy_to_places};
use bay_core::Bay;
use digest_set::{Triple, hex_into};
use fan_copier::Turn;
use path_text::{PathError, PathText, Scratch};
use std::alloc::{AllocError, Global};
use std::env::{Env, FillError};

// The bytes of the longest word that is taken.
const LONGEST_WORD: usize = 4096;

// A word, empty where it is not UTF-8.
fn word(alloc: Global, bytes: &[u8]) -> Result<String, AllocError> {
    str::from_utf8(bytes).unwrap_or("").to_owned(alloc)
}

/// The words of the program. One that is not UTF-8, or is too long, becomes the empty word, which fits nothing.
pub fn program_words(env: &impl Env, alloc: Global) -> Result<Vec<String>, AllocError> {
    let mut words = Vec::new(alloc);
    let mut buffer = vec![in alloc; 0u8; LONGEST_WORD]?;
    for i in 1..usize::MAX {
        match env.arg(i, &mut buffer) {
            Ok(len) => words.push(word(alloc, &buffer[..len])?)?,
            Err(FillError::TooLong) => words.push(word(alloc, b"")?)?,
            Err(FillError::NotPresent) => break,
        }
    }
    Ok(words)
}

// Copies a file by the words CARD PATH SIZE DRIVE..
fn copy_by_words<B: Bay>(alloc: Global, bay: &mut B, words: &[String]) -> Result<Turn, NotBegun>
    requires untold { (B.world bay.old).events ≡ None }
    requires none { ((B.world bay.old).attached.sources ≡ 0) × ((B.world bay.old).attached.drives ≡ 0) }
{
    if words.len() < 4 {
        return Err(NotBegun::Words);
    }
    let path = match PathText::read(alloc, &words[1]) {
        Ok(path) => path,
        Err(PathError::Memory) => return Err(NotBegun::Memory),
        Err(_) => return Err(NotBegun::Words),
    };
    match words[2].parse::<u64>() {
        Ok(size) => copy_to_places(alloc, bay, &words[0], &path, size, &words[3..]),
        Err(_) => Err(NotBegun::Words),
    }
}

// The line of a copy that ended well.
fn copied_line(triple: &Triple, line: &mut Scratch) {
    let mut md5 = [0; 32];
    hex_into(&triple.md5, &mut md5);
    let mut sha1 = [0; 40];
    hex_into(&triple.sha1, &mut sha1);
    let mut xxh = [0; 16];
    hex_into(&triple.xxh, &mut xxh);
    line.clear();
    line.push(b"copied ");
    line.push(&md5);
    line.push(b" ");
    line.push(&sha1);
    line.push(b" ");
    line.push(&xxh);
}

/// Copies a file by the words, and says in one line what that came to. The answer is the status: 0 for a copy that ended
/// well, 1 for another, 2 for other words, 4 where a folder is missing, 9 for want of memory.
pub fn copy_and_say<B: Bay>(alloc: Global, bay: &mut B, words: &[String]) -> u8
    requires untold { (B.world bay.old).events ≡ None }
    requires none { ((B.world bay.old).attached.sources ≡ 0) × ((B.world bay.old).attached.drives ≡ 0) }
{
    let mut line = match Scratch::new(alloc) {
        Ok(line) => line,
        Err(_) => return 9,
    };
    let status = match copy_by_words(alloc, bay, words) {
        Ok(Turn::Copied { triple }) => {
            copied_line(&triple, &mut line);
            0
        }
        Ok(Turn::Changed { .. }) => {
            line.push(b"changed");
            1
        }
        Ok(_) => {
            line.push(b"failed");
            1
        }
        Err(NotBegun::Words) => {
            line.push(b"refused words");
            2
        }
        Err(NotBegun::Attach) => {
            line.push(b"failed attach");
            4
        }
        Err(NotBegun::Memory) => {
            line.push(b"memory");
            9
        }
    };
    match bay.say(line.bytes()) {
        Ok(()) => status,
        Err(_) => 5,
    }
}
