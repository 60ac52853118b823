// What cards and drives are told to lie about.
ghost use Rattle.std.specs.Prelude.{◌≡◌, length};
ghost use Rattle.bay_mem.specs.State.{is_flipped as flipped, is_false_size as false_size, lists_falsely as falsely};

use crate::MemMap;
use bay_core::{Bytes, FileInfo, NameText};

/// A byte of a file that reads of drive `d` show with its lowest bit changed.
#[derive(Drop)]
pub struct Flip {
    pub d: u32,
    pub path: Bytes,
    pub at: u64,
}

/// The size with which card `s` lists a file.
#[derive(Drop)]
pub struct ListedAs {
    pub s: u32,
    pub path: NameText,
    pub size: u64,
}

pub fn is_flipped(flips: &[Flip], d: u32) -> bool
    ensures { result ≡ flipped flips.now d }
{
    for flip in flips {
        if flip.d == d {
            return true;
        }
    }
    false
}

// Whether this lists a file of card `s`, which has these files, with another size.
fn is_false_size(one: &ListedAs, s: u32, files: &MemMap) -> bool
    ensures { result ≡ false_size s files.now one.now }
{
    if one.s != s {
        return false;
    }
    match files.get(one.path.as_str()) {
        Some(bytes) => bytes.len() as u64 != one.size,
        None => false,
    }
}

/// Whether card `s`, which has these files, lists one of them with another size.
pub fn lists_falsely(listed: &[ListedAs], s: u32, files: &MemMap) -> bool
    ensures { result ≡ falsely listed.now s files.now }
{
    listed.iter().any(|one| is_false_size(one, s, files))
}

// Changes the bytes that were read of a file from `at` on, where they are to be shown changed.
pub fn flip_bytes(flips: &[Flip], d: u32, path: &[u8], at: u64, read: &mut [u8])
    ensures { length read.new ≡ length read.old }
{
    for flip in flips {
        if flip.d == d && flip.path.as_slice() == path && flip.at >= at {
            let k = flip.at - at;
            if k < read.len() as u64 {
                read[k as usize] ^= 1;
            }
        }
    }
}

// Changes the sizes of a listing that are to be listed otherwise.
pub fn change_sizes(listed: &[ListedAs], s: u32, files: &mut Vec<FileInfo>) {
    for one in listed {
        if one.s == s {
            for file in files.iter_mut() {
                if file.path.as_str() == one.path.as_str() {
                    file.size = one.size;
                }
            }
        }
    }
}
