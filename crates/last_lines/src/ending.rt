// The end of a run, by its last lines.
ghost use Rattle.std.specs.Prelude.{[], ◌∷◌};
ghost use Rattle.report_text.specs.Line.{line_text, IsSayable};
ghost use Rattle.last_lines.specs.Ends.{with_line, with_lines, Ended, memory_end};

use crate::saying::say;
use bay_core::Bay;
use path_text::Scratch;
use report_text::{Line, line_into, memory_line};

/// Says the last line of a run, and answers its status, or 5 where the line could not be said.
pub fn end<B: Bay>(bay: &mut B, scratch: &mut Scratch, line: &Line<'_>, status: u8) -> u8
    requires { IsSayable line.now }
    ensures { Ended (with_line (line_text line.now) status) result (B.world bay.old) (B.world bay.new) }
{
    line_into(line, scratch);
    match bay.say(scratch.bytes()) {
        Ok(()) => status,
        Err(_) => 5,
    }
}

/// Says the two last lines of a run, and answers its status, or 5 where one of them could not be said; no call follows that.
pub fn end_two<B: Bay>(
    bay: &mut B,
    scratch: &mut Scratch,
    first: &Line<'_>,
    second: &Line<'_>,
    status: u8,
) -> u8
    requires first_sayable { IsSayable first.now }
    requires second_sayable { IsSayable second.now }
    ensures { Ended (with_lines (line_text first.now ∷ line_text second.now ∷ []) status) result (B.world bay.old) (B.world bay.new) }
{
    match say(bay, scratch, first) {
        Ok(()) => {}
        Err(_) => return 5,
    }
    match say(bay, scratch, second) {
        Ok(()) => status,
        Err(_) => 5,
    }
}

/// Says that memory was wanting, and answers status 9, or 5 where the line could not be said. Needs no scratch.
pub fn say_memory<B: Bay>(bay: &mut B) -> u8
    ensures { Ended memory_end result (B.world bay.old) (B.world bay.new) }
{
    match bay.say(memory_line()) {
        Ok(()) => 9,
        Err(_) => 5,
    }
}
