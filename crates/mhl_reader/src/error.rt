//! Why a list could not be read.
ghost use Rattle.std.specs.Prelude.{◌≡◌};
ghost use Rattle.mhl_reader.specs.declared.error.ReadError.TheVariants.{Memory};

use std::alloc::{AllocError, AllocFailed};
use thiserror::Error;

/// Why bytes are no list. A place is counted in bytes from the start, a byte order mark included; which fault is the
/// first, and what its place is, is the table of docs/FORMATS.md, "Reading a list".
#[derive(Clone, Copy, Debug, PartialEq, Eq, Error)]
pub enum ReadError {
    /// Bytes that are no UTF-8.
    #[error("no UTF-8 at {at}")]
    NotUtf8 { at: u64 },
    /// A character that XML does not allow, markup that is not of its rule, or markup or text where it may not stand.
    #[error("malformed at {at}")]
    Malformed { at: u64 },
    /// `<!DOCTYPE`.
    #[error("a DOCTYPE at {at}")]
    Doctype { at: u64 },
    /// `<![CDATA[`.
    #[error("a CDATA section at {at}")]
    Cdata { at: u64 },
    /// The `hashlist` has no `version` that begins with `1.`.
    #[error("not of version 1")]
    Version,
    /// A `hash` without `file`.
    #[error("a hash without a file at {at}")]
    NoFile { at: u64 },
    /// A `file` whose path an earlier entry has.
    #[error("a path for the second time at {at}")]
    Twice { at: u64 },
    /// A `file` that is no valid path.
    #[error("no path at {at}")]
    BadPath { at: u64 },
    /// A `size` that is no number of bytes.
    #[error("no size at {at}")]
    BadSize { at: u64 },
    /// A digest that is not of its digits.
    #[error("no digest at {at}")]
    BadDigest { at: u64 },
    /// More than 262,144 entries.
    #[error("too many entries at {at}")]
    TooMany { at: u64 },
    #[error("out of memory")]
    Memory,
}

impl From<AllocError> for ReadError {
    ghost from_gives = { λ _ e. e ≡ Memory };

    fn from(_e: AllocError) -> ReadError {
        ReadError::Memory
    }
}

impl<T: Drop> From<AllocFailed<T>> for ReadError {
    ghost from_gives = { λ _ e. e ≡ Memory };

    fn from(_e: AllocFailed<T>) -> ReadError {
        ReadError::Memory
    }
}
