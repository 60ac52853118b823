//! Reading a list.
ghost use Rattle.std.specs.Prelude.{◌≡◌, ◌⊎◌, ◌≤◌, length, None, IfOk, IfErr, bytes_eq};
ghost use Rattle.std.specs.List.{IsDistinct};
ghost use Rattle.markup.specs.Characters.{text_error};
ghost use Rattle.mhl_writer.specs.ListText.{values_of, paths_of};
ghost use Rattle.mhl_reader.specs.declared.error.ReadError.TheVariants.{Memory};
ghost use Rattle.mhl_reader.specs.Reading.{start_of, Reading, markup_fault, FirstOfText, FirstFault};

use crate::error::ReadError;
use crate::found::creator;
use crate::reader::Reader;
use markup::{MarkupError, TextError, check_text, next_token};
use mhl_writer::HashList;
use std::alloc::Global;

// How many bytes the byte order mark takes with which a document may begin.
fn start(bytes: &[u8]) -> usize
    ensures start { result ≡ start_of bytes.now }
    ensures within { result ≤ length bytes.now }
{
    if bytes.starts_with(&[0xEF, 0xBB, 0xBF]) {
        3
    } else {
        0
    }
}

fn refused_markup(at: u64, error: MarkupError) -> ReadError
    ensures { result ≡ markup_fault at error }
{
    match error {
        MarkupError::Malformed => ReadError::Malformed { at },
        MarkupError::Doctype => ReadError::Doctype { at },
        MarkupError::Cdata => ReadError::Cdata { at },
    }
}

// The list that a text means.
fn read_text(alloc: Global, bytes: &[u8]) -> Result<HashList, ReadError>
    requires { text_error bytes.now ≡ None }
    ensures found { IfOk result (λ list. Reading bytes.now (values_of list)) }
    ensures fault { IfErr result (λ e. (e ≡ Memory) ⊎ FirstOfText bytes.now e) }
{
    let mut reader = Reader::new(alloc);
    let mut rest = &bytes[start(bytes)..];
    while !rest.is_empty() {
        let place = (bytes.len() - rest.len()) as u64;
        let (token, others) = match next_token(rest) {
            Ok(taken) => taken,
            Err(error) => return Err(refused_markup(place, error)),
        };
        reader = match reader.step(alloc, place, token) {
            Ok(next) => next,
            Err(e) => return Err(e),
        };
        rest = others;
    }
    match reader.finish(bytes.len() as u64) {
        Ok((leaves, entries)) => Ok(HashList {
            creator: creator(leaves),
            entries: entries.into_list(),
        }),
        Err(e) => Err(e),
    }
}

/// The list that the bytes mean (docs/FORMATS.md, "Reading a list").
pub fn read_list(alloc: Global, bytes: &[u8]) -> Result<HashList, ReadError>
    // What is read is what the bytes mean.
    ensures found { IfOk result (λ list. Reading bytes.now (values_of list)) }

    // No two entries have the same path.
    ensures distinct { IfOk result (λ list. IsDistinct bytes_eq (paths_of list.entries.items)) }

    // What is refused has this first fault, unless memory was wanting.
    ensures fault { IfErr result (λ e. (e ≡ Memory) ⊎ FirstFault bytes.now e) }
{
    match check_text(bytes) {
        Ok(()) => read_text(alloc, bytes),
        Err(TextError::NotUtf8 { at }) => Err(ReadError::NotUtf8 { at: at as u64 }),
        Err(TextError::Refused { at }) => Err(ReadError::Malformed { at: at as u64 }),
    }
}
