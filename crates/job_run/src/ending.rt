// How a run ends that attached not all, or whose turns are over.
ghost use Rattle.offload_run.specs.Offload.{ordered_of, stands_at};
ghost use Rattle.last_lines.specs.Ends.{Ended};
ghost use Rattle.job_story.specs.Ends.{JobEnd, last_of};
ghost use Rattle.job_story.specs.Story.{EndsAs};
ghost use Rattle.job_run.specs.Ending.{unattached_end, HasEnd};

use crate::attaching::Unattached;
use bay_core::Bay;
use last_lines::end;
use offload_run::Offload;
use path_text::Scratch;
use report_text::Line;
use run_state::Outcome;

// Ends a run of which the card, or a drive, was not attached.
pub(crate) fn end_unattached<B: Bay>(
    bay: &mut B,
    scratch: &mut Scratch,
    unattached: Unattached,
) -> u8
    ensures { Ended (last_of (unattached_end unattached)) result (B.world bay.old) (B.world bay.new) }
{
    match unattached {
        Unattached::Card => end(bay, scratch, &Line::FailedAttachCard, 4),
        Unattached::Drive { d } => end(bay, scratch, &Line::FailedAttachDrive(d), 4),
    }
}

// Ends a run to so many drives whose turns came to this outcome.
pub(crate) fn end_run<B: Bay>(
    bay: &mut B,
    scratch: &mut Scratch,
    run: &Offload,
    outcome: Outcome,
    drives: u32,
) -> u8
    requires { HasEnd drives (ordered_of run.now).plan (stands_at run.now) outcome }
    ensures { (end : JobEnd) → EndsAs drives (ordered_of run.now).plan (stands_at run.now) outcome end → Ended (last_of end) result (B.world bay.old) (B.world bay.new) }
{
    match outcome {
        Outcome::Finished => if run.sealed().count() == drives { 0 } else { 1 },
        Outcome::NoDrive => 1,
        Outcome::SourceFailed => end(bay, scratch, &Line::FailedCard, 4),
        Outcome::Changed {
            index,
            listed,
            read,
        } => {
            let path = run.plan().files()[index as usize].path.as_str();
            end(
                bay,
                scratch,
                &Line::FailedCardChanged(listed, read, path),
                4,
            )
        }
        Outcome::OutFailed => 5,
        Outcome::Going | Outcome::Altered { .. } => unreachable!(),
    }
}
