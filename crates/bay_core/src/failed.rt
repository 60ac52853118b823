use thiserror::Error;

/// A call on a device failed, and the device's count rose.
#[derive(Clone, Copy, Debug, PartialEq, Eq, Error)]
#[error("a call on a device failed")]
pub struct Failed;

/// A step on a drive ended at a call that failed.
#[derive(Clone, Copy, Debug, PartialEq, Eq, Error)]
#[error("a call on the drive failed")]
pub struct DriveFailed;

impl From<Failed> for DriveFailed {
    fn from(_: Failed) -> Self {
        DriveFailed
    }
}

/// Why a drive was not listed.
#[derive(Clone, Copy, Debug, PartialEq, Eq, Error)]
pub enum ListError {
    /// The drive failed, and its count rose.
    #[error("a call on the drive failed")]
    Failed,
    /// There was no memory for the listing. Nothing changed.
    #[error("out of memory")]
    Memory,
}
