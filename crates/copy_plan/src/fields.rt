//! The fields of a plan's code, taken from the front of its bytes (docs/FORMATS.md, "Plans").

ghost use Rattle.std.specs.Prelude.{◌≡◌, option_map, None};
ghost use Rattle.std.specs.Int.{w16, w32, w64, to_be_bytes};
ghost use Rattle.copy_plan.specs.Fields.{Takes, TakesOr, unread, is_plain, IsNumber, IsText, IsMark, IsMoment, IsLabel, IsPath, IsChosen, IsChoice, IsCount, IsFile, itself, mark_code, moment_code, label_code, path_code, kinds_code, count_code, source_code, file_code};
ghost use Rattle.copy_plan.specs.Plan.{IsSourceList};

use crate::file::PlannedFile;
use crate::inventory::MOST_FILES;
use path_text::{Kinds, Label, Moment, PathError, PathText, has_one_part, is_control};
use std::alloc::Global;

/// Why a field could not be taken.
#[derive(Clone, Copy, Debug)]
pub enum FieldError {
    /// The bytes begin with no such field.
    Broken,
    /// Memory was wanting.
    Memory,
}

fn two_bytes(bytes: &[u8]) -> Option<(u16, &[u8])>
    ensures { Takes (IsNumber 16) (to_be_bytes w16) bytes.now (option_map (λ x. (x.0, x.1.now)) result) }
{
    let (front, rest) = bytes.split_first_chunk::<2>()?;
    Some((u16::from_be_bytes(*front), rest))
}

/// A number in 4 bytes, most significant first, and the bytes behind it.
pub fn four_bytes(bytes: &[u8]) -> Option<(u32, &[u8])>
    ensures { Takes (IsNumber 32) (to_be_bytes w32) bytes.now (option_map (λ x. (x.0, x.1.now)) result) }
{
    let (front, rest) = bytes.split_first_chunk::<4>()?;
    Some((u32::from_be_bytes(*front), rest))
}

/// A number in 8 bytes, most significant first, and the bytes behind it.
pub fn eight_bytes(bytes: &[u8]) -> Option<(u64, &[u8])>
    ensures { Takes (IsNumber 64) (to_be_bytes w64) bytes.now (option_map (λ x. (x.0, x.1.now)) result) }
{
    let (front, rest) = bytes.split_first_chunk::<8>()?;
    Some((u64::from_be_bytes(*front), rest))
}

// A text of so many bytes.
fn text(bytes: &[u8], long: usize) -> Option<(&str, &[u8])>
    ensures { Takes (IsText long) itself bytes.now (option_map (λ x. (x.0.now, x.1.now)) result) }
{
    if bytes.len() < long {
        return None;
    }
    let (front, rest) = bytes.split_at(long);
    match str::from_utf8(front) {
        Ok(text) => Some((text, rest)),
        Err(_) => None,
    }
}

/// The mark that a plan begins with: whether it is that of a plan of all three kinds without a source list.
pub fn mark(bytes: &[u8]) -> Option<(bool, &[u8])>
    ensures { Takes IsMark mark_code bytes.now (option_map (λ x. (x.0, x.1.now)) result) }
{
    let (front, rest) = bytes.split_first_chunk::<8>()?;
    match front {
        b"MHLPLAN1" => Some((true, rest)),
        b"MHLPLAN2" => Some((false, rest)),
        _ => None,
    }
}

/// A moment in 8 bytes, and the bytes behind it.
pub fn moment(bytes: &[u8]) -> Option<(Moment, &[u8])>
    ensures { Takes IsMoment moment_code bytes.now (option_map (λ x. (x.0, x.1.now)) result) }
{
    let (seconds, rest) = eight_bytes(bytes)?;
    let moment = Moment::new(seconds)?;
    Some((moment, rest))
}

/// A label behind its length in 1 byte.
pub fn label(bytes: &[u8]) -> Option<(Label, &[u8])>
    ensures { Takes IsLabel label_code bytes.now (option_map (λ x. (x.0, x.1.now)) result) }
{
    let (long, rest) = bytes.split_first()?;
    let (text, rest) = text(rest, usize::from(*long))?;
    match Label::read(text) {
        Ok(label) => Some((label, rest)),
        Err(_) => None,
    }
}

/// The kinds of digest, in 1 byte.
pub fn kinds(bytes: &[u8]) -> Option<(Kinds, &[u8])>
    ensures { Takes IsChosen kinds_code bytes.now (option_map (λ x. (x.0, x.1.now)) result) }
{
    let (byte, rest) = bytes.split_first()?;
    let byte = *byte;
    if byte == 0 {
        return None;
    }
    if byte > 7 {
        return None;
    }
    let kinds = Kinds {
        md5: byte % 2 == 1,
        sha1: byte / 2 % 2 == 1,
        xxh: byte / 4 == 1,
    };
    Some((kinds, rest))
}

/// The number of files, in 4 bytes.
pub fn count(bytes: &[u8]) -> Option<(u32, &[u8])>
    ensures { Takes IsCount count_code bytes.now (option_map (λ x. (x.0, x.1.now)) result) }
{
    let (count, rest) = four_bytes(bytes)?;
    if count == 0 {
        return None;
    }
    if count > MOST_FILES {
        return None;
    }
    Some((count, rest))
}

/// A path behind its length in 2 bytes.
pub fn path(alloc: Global, bytes: &[u8]) -> Result<(PathText, &[u8]), FieldError>
    ensures { TakesOr IsPath path_code bytes.now (λ x. (x.0, x.1.now)) result }
{
    let Some((long, rest)) = two_bytes(bytes) else {
        return Err(FieldError::Broken);
    };
    let Some((text, rest)) = text(rest, usize::from(long)) else {
        return Err(FieldError::Broken);
    };
    match PathText::read(alloc, text) {
        Ok(path) => Ok((path, rest)),
        Err(error) => Err(unread(error)),
    }
}

// Why a text could not be taken as a path.
fn unread(error: PathError) -> FieldError
    ensures { result ≡ unread error }
{
    match error {
        PathError::Memory => FieldError::Memory,
        _ => FieldError::Broken,
    }
}

// A path of one part that is no control path.
fn source_path(alloc: Global, bytes: &[u8]) -> Result<(PathText, &[u8]), FieldError>
    ensures { TakesOr IsSourceList path_code bytes.now (λ x. (x.0, x.1.now)) result }
{
    match path(alloc, bytes) {
        Ok((path, rest)) => {
            if !has_one_part(&path) {
                return Err(FieldError::Broken);
            }
            if is_control(&path) {
                return Err(FieldError::Broken);
            }
            Ok((path, rest))
        }
        Err(error) => Err(error),
    }
}

/// Whether a plan without a source list that shows these kinds has the short code.
pub fn shows_all(kinds: Kinds) -> bool
    ensures { result ≡ is_plain kinds None }
{
    kinds.md5 && kinds.sha1 && kinds.xxh
}

/// The source list of a plan that shows these kinds: a path behind its length, or the length 0 for none. A plan that
/// shows all kinds and has none has no such field.
pub fn source(
    alloc: Global,
    kinds: Kinds,
    bytes: &[u8],
) -> Result<(Option<PathText>, &[u8]), FieldError>
    ensures { TakesOr (IsChoice kinds) source_code bytes.now (λ x. (x.0, x.1.now)) result }
{
    let Some((long, rest)) = two_bytes(bytes) else {
        return Err(FieldError::Broken);
    };
    if long == 0 {
        if shows_all(kinds) {
            return Err(FieldError::Broken);
        }
        return Ok((None, rest));
    }
    match source_path(alloc, bytes) {
        Ok((path, rest)) => Ok((Some(path), rest)),
        Err(error) => Err(error),
    }
}

/// A file: its path, its size in 8 bytes, its date in 8 bytes. Nothing is asked of the three together.
pub fn file(alloc: Global, bytes: &[u8]) -> Result<(PlannedFile, &[u8]), FieldError>
    ensures { TakesOr IsFile file_code bytes.now (λ x. (x.0, x.1.now)) result }
{
    let (path, rest) = match path(alloc, bytes) {
        Ok(taken) => taken,
        Err(error) => return Err(error),
    };
    let Some((size, rest)) = eight_bytes(rest) else {
        return Err(FieldError::Broken);
    };
    let (modified, rest) = match moment(rest) {
        Some(taken) => taken,
        None => return Err(FieldError::Broken),
    };
    let file = PlannedFile {
        path,
        size,
        modified,
    };
    Ok((file, rest))
}
