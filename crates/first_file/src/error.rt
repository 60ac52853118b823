use read_back::ReadBackError;
use thiserror::Error;

/// Why the first file is not recorded.
#[derive(Clone, Copy, Debug, PartialEq, Eq, Error)]
pub enum FirstFileError {
    /// The drive was not attached.
    #[error("the drive was not attached")]
    Attach,
    /// A call on the drive failed.
    #[error("a call on the drive failed")]
    Drive,
    /// A read of the card failed.
    #[error("a read of the card failed")]
    Card,
    /// The card's file has another length than was planned: its reads ended after `read` bytes, or one byte came at the
    /// planned size, and then `read` is that size and one.
    #[error("the card's file has another length than was planned")]
    Changed { listed: u64, read: u64 },
    /// What was read back of the drive is not what was copied.
    #[error("what was read back is not what was copied")]
    ReadBack { found: ReadBackError },
    /// A line was not said.
    #[error("a line was not said")]
    Output,
}
