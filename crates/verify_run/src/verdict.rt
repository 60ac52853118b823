ghost use Rattle.std.specs.Prelude.{◌≡◌};
ghost use Rattle.verify_run.specs.Report.{outcome_of, outcome_word};

use thiserror::Error;

/// How an entry of a list counts.
#[derive(Clone, Copy, Debug)]
pub enum Standing {
    /// The folder has no such file.
    Absent,
    /// A recorded value differs from that of the file.
    Altered,
    /// Nothing differs, and the entry has no digest that is checked.
    Uncheckable,
    /// Nothing differs, and a digest was checked.
    Good,
}

/// The numbers of a report: how many entries the list has, how many of them are missing, altered or unchecked, and
/// how many names of the folder no entry has.
#[derive(Clone, Copy, Debug, PartialEq, Eq)]
pub struct Verdict {
    pub entries: u64,
    pub missing: u64,
    pub altered: u64,
    pub unchecked: u64,
    pub unlisted: u64,
}

/// What a report comes to. Unlisted files do not change it.
#[derive(Clone, Copy, Debug, PartialEq, Eq)]
pub enum Outcome {
    /// No entry is missing, altered or unchecked.
    AllGood,
    /// An entry is missing or altered.
    SomeBad,
    /// None is missing or altered, and one is unchecked.
    SomeUnchecked,
}

impl Verdict {
    pub fn outcome(&self) -> Outcome
        ensures { result ≡ outcome_of self.now }
    {
        if self.missing > 0 || self.altered > 0 {
            Outcome::SomeBad
        } else if self.unchecked > 0 {
            Outcome::SomeUnchecked
        } else {
            Outcome::AllGood
        }
    }
}

impl Outcome {
    /// The word of the verdict line.
    pub fn word(self) -> &'static str
        ensures { result.now ≡ outcome_word self }
    {
        match self {
            Outcome::AllGood => "good",
            Outcome::SomeBad => "bad",
            Outcome::SomeUnchecked => "unchecked",
        }
    }
}

/// Why a verification gave no verdict.
#[derive(Clone, Copy, Debug, PartialEq, Eq, Error)]
pub enum VerifyError {
    /// A call on the drive failed.
    #[error("a call on the drive failed")]
    DriveFailed,
    /// A line could not be said.
    #[error("a line could not be said")]
    OutFailed,
    #[error("out of memory")]
    Memory,
}
