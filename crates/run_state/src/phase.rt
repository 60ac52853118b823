use digest_set::Triple;
use drive_journal::Rec;
use fan_copier::FileCopy;

/// What the next turn of a run does. Files are numbered from 0 in the order of the plan, drives in that of the words.
#[derive(Drop)]
pub enum Phase {
    /// Drive `d` is begun, or goes on.
    Begins { d: u32 },
    /// The drives of file `index` are chosen: those that have a record of each file before it, and none of it.
    File { index: u32 },
    /// File `index` is copied, one turn of its copy.
    Copies { index: u32, copy: FileCopy },
    /// File `index` was copied, and has these digests: the moment of that is asked.
    Dates { index: u32, triple: Triple },
    /// The file is recorded on drive `d`, if that was copied to.
    Records { rec: Rec, d: u32 },
    /// Drive `d` is sealed.
    Seals { d: u32 },
    /// The card is called clear, if enough drives are sealed.
    Clears,
    /// Nothing.
    Ended,
}
