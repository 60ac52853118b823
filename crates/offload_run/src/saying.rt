// The lines of a run.
ghost use Rattle.report_text.specs.Line.{line_text, IsSayable};
ghost use Rattle.run_state.specs.Acts.{Says, begin_line, record_line, seal_line};

use bay_core::Bay;
use copy_plan::Plan;
use drive_journal::{Gate, Rec};
use path_text::{PathText, Scratch};
use read_back::ReadBackError;
use report_text::{Line, line_into};
use seal_step::SealError;

// Says a line. The answer is whether it was said.
pub(crate) fn say<B: Bay>(bay: &mut B, line: &Line<'_>, scratch: &mut Scratch) -> bool
    requires { IsSayable line.now }
    ensures { Says (line_text line.now) result (B.world bay.old) (B.world bay.new) }
{
    line_into(line, scratch);
    bay.say(scratch.bytes()).is_ok()
}

// Says the line of a drive that was begun with so many records of so many files, or that was lost.
pub(crate) fn say_begun<B: Bay>(
    bay: &mut B,
    d: u32,
    records: usize,
    files: usize,
    begun: bool,
    scratch: &mut Scratch,
) -> bool
    ensures { Says (begin_line d records files begun) result (B.world bay.old) (B.world bay.new) }
{
    if begun {
        say(bay, &Line::Begun(d, records as u64, files as u64), scratch)
    } else {
        say(bay, &Line::DroppedFault(d), scratch)
    }
}

// Says the line of a file that was recorded on a drive, or of the drive that was lost by it.
pub(crate) fn say_recorded<B: Bay>(
    bay: &mut B,
    d: u32,
    files: usize,
    path: &PathText,
    rec: &Rec,
    came: &Result<Gate, ReadBackError>,
    scratch: &mut Scratch,
) -> bool
    ensures { Says (record_line d files path.now rec.now came.now) result (B.world bay.old) (B.world bay.new) }
{
    let text = path.as_str();
    match came {
        Ok(_) => {
            let number = u64::from(rec.index) + 1;
            say(bay, &Line::Done(d, number, files as u64, text), scratch)
        }
        Err(ReadBackError::DriveFailed) => say(bay, &Line::DroppedFault(d), scratch),
        Err(ReadBackError::Absent) => say(bay, &Line::DroppedAbsent(d, text), scratch),
        Err(ReadBackError::Length { recorded, read }) => {
            say(
                bay,
                &Line::DroppedLength(d, *recorded, *read, text),
                scratch,
            )
        }
        Err(ReadBackError::Differs { recorded, read }) => {
            say(bay, &Line::DroppedAltered(d, recorded, read, text), scratch)
        }
    }
}

// Says the line of a drive that was sealed, or that was lost by it.
pub(crate) fn say_sealed<B: Bay>(
    bay: &mut B,
    d: u32,
    plan: &Plan,
    came: &Result<(), SealError>,
    scratch: &mut Scratch,
) -> bool
    ensures { Says (seal_line d plan.now came.now) result (B.world bay.old) (B.world bay.new) }
{
    let list = plan.list().as_str();
    match came {
        Ok(()) => {
            let files = plan.files().len() as u64;
            say(bay, &Line::Sealed(d, files, list), scratch)
        }
        Err(SealError::DriveFailed) => say(bay, &Line::DroppedFault(d), scratch),
        Err(SealError::Absent) => say(bay, &Line::DroppedAbsent(d, list), scratch),
        Err(SealError::Byte { at, written, read }) => {
            let line = Line::DroppedByte(d, *at, u64::from(*written), u64::from(*read), list);
            say(bay, &line, scratch)
        }
        Err(SealError::Length { written, read }) => {
            say(bay, &Line::DroppedLength(d, *written, *read, list), scratch)
        }
    }
}
