// The attaches of a job.
ghost use Rattle.std.specs.Prelude.{◌≡◌, ◌+◌, ◌≤◌, length};
ghost use Rattle.command_words.specs.Jobs.{Job};
ghost use Rattle.job_run.specs.Asked.{HasNone};
ghost use Rattle.job_run.specs.Attached.{HasPlaces, AttachesGive};

use bay_core::Bay;
use command_words::WordList;

// The places of the folders in the words of `offload`.
const CARD_WORD: usize = 4;

const FIRST_DRIVE_WORD: usize = 5;

// What could not be attached: the card, or the drive with this number.
#[derive(Clone, Copy, Debug)]
pub(crate) enum Unattached {
    Card,
    Drive { d: u32 },
}

// Attaches the card of the words, and then so many drives, in order, up to the first that fails. The answer is the number of the
// card.
pub(crate) fn attach_all<B: Bay>(
    bay: &mut B,
    words: &WordList,
    drives: u32,
) -> Result<u32, Unattached>
    requires none { HasNone (B.world bay.old).attached }
    requires few { drives ≤ 8 }
    requires words { length words.now ≡ 5 + drives }
    ensures { (job : Job) → HasPlaces words.now job → AttachesGive job result (B.world bay.old) (B.world bay.new) }
{
    let source = match bay.attach_source(words.word(CARD_WORD)) {
        Ok(source) => source,
        Err(_) => return Err(Unattached::Card),
    };
    for d in 0..drives {
        let place = words.word(FIRST_DRIVE_WORD + d as usize);
        if bay.attach_drive(place).is_err() {
            return Err(Unattached::Drive { d });
        }
    }
    Ok(source)
}
