use digest_set::Triple;
use drive_journal::Listed;

/// Whether a run goes on after a turn.
#[derive(Clone, Copy, Debug, PartialEq, Eq)]
pub enum RunTurn {
    /// There is a turn more.
    Going,
    /// The run has ended.
    Ended,
}

/// How a run ended, or that it goes on.
#[derive(Clone, Copy, Debug)]
pub enum Outcome {
    /// It goes on.
    Going,
    /// Each drive that was not dropped is sealed, and there is one.
    Finished,
    /// No drive is left.
    NoDrive,
    /// A call on the card failed.
    SourceFailed,
    /// File `index` has another length than the plan says: its reads ended after `read` bytes, or one byte came at the planned
    /// size, and then `read` is that size and one.
    Changed {
        index: u32,
        listed: u64,
        read: u64,
    },
    /// File `index` has other digests than the source list records of it.
    Altered {
        index: u32,
        listed: Listed,
        read: Triple,
    },
    /// A line was not said.
    OutFailed,
}
