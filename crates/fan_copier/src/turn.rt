use digest_set::Triple;

/// What one turn of a copy came to.
#[derive(Clone, Copy, Debug, PartialEq, Eq)]
pub enum Turn {
    /// The copy goes on.
    Going,
    /// A call on this drive failed, and it was dropped. The copy goes on without it.
    Dropped { d: u32 },
    /// The whole file was read, and each live drive has all of it in its part.
    Copied { triple: Triple },
    /// A read of the card failed.
    SourceFailed,
    /// The card's file has another length than was listed: its reads ended after `read` bytes, or one byte came at the
    /// listed size, and then `read` is that size and one.
    Changed { listed: u64, read: u64 },
    /// Every drive was dropped before this turn, which made no call.
    NoDrive,
}
