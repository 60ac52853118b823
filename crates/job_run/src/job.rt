// A run of `offload`.
ghost use Rattle.std.specs.Prelude.{◌≡◌, length, drop};
ghost use Rattle.command_words.specs.Jobs.{IsJob};
ghost use Rattle.job_story.specs.Story.{RanJob};
ghost use Rattle.job_run.specs.Asked.{job_by, HasNone};

use crate::attaching::attach_all;
use crate::ending::end_unattached;
use crate::refusing::end_unopened;
use crate::turning::run_order;
use bay_core::Bay;
use command_words::WordList;
use fresh_opening::open_fresh;
use path_text::{Kinds, Label, Scratch};
use std::alloc::Global;

/// What the words of an `offload` ask for, but for its folders: the labels of the card, the user and the host, how many sealed
/// drives call the card clear, which kinds of digest the lists show, and how many drives there are.
#[derive(Debug, Drop)]
pub struct OffloadJob {
    pub name: Label,
    pub user: Label,
    pub host: Label,
    pub copies: u32,
    pub kinds: Kinds,
    pub drives: u32,
}

/// Does what the words of an `offload` ask for, and answers the status (docs/OPERATING.md): the card and the drives are attached
/// in the order of the words, the card is listed and the drives are looked at, all memory is taken, and the run is turned to its
/// end. No device was attached before, so a drive's number is its place in the words.
pub fn run_offload<B: Bay>(
    alloc: Global,
    bay: &mut B,
    scratch: &mut Scratch,
    words: &WordList,
    asked: &OffloadJob,
) -> u8
    requires none { HasNone (B.world bay.old).attached }
    requires job { IsJob words.now (job_by asked.now words.now) }
    requires count { length (drop 5 words.now) ≡ asked.now.drives }
    ensures ran { RanJob (job_by asked.now words.now) result (B.world bay.old) (B.world bay.new) }
{
    let source = match attach_all(bay, words, asked.drives) {
        Ok(source) => source,
        Err(unattached) => return end_unattached(bay, scratch, unattached),
    };
    match open_fresh(
        alloc,
        bay,
        source,
        asked.drives,
        asked.copies,
        asked.name,
        asked.user,
        asked.host,
        asked.kinds,
    ) {
        Ok(order) => run_order(alloc, bay, scratch, order, asked.drives),
        Err(error) => end_unopened(bay, scratch, error),
    }
}
