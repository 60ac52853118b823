use thiserror::Error;

/// Why a drive was not sealed. But for a call that failed, all come before the list has its name.
#[derive(Clone, Copy, Debug, PartialEq, Eq, Error)]
pub enum SealError {
    /// A call failed, and the drive's count rose.
    #[error("a call failed")]
    DriveFailed,
    /// A read answered that the list is not there.
    #[error("the list is not there")]
    Absent,
    /// The first byte that is not what was written: its place in the list from 0, and the two bytes.
    #[error("at {at} the byte {written} was written, and {read} was read")]
    Byte { at: u64, written: u8, read: u8 },
    /// The length of the list in bytes, and how many bytes the reads gave: fewer, where they came to an end before, or
    /// one more, where a byte came behind the list's end. Nothing past that byte is read.
    #[error("{written} bytes were written, and {read} were read")]
    Length { written: u64, read: u64 },
}
