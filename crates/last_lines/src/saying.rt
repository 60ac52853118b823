// Lines, said one after another.
ghost use Rattle.std.specs.Prelude.{◌≡◌, [], ◌∷◌, map, MatchResult};
ghost use Rattle.std.specs.List.{AllByRecursion};
ghost use Rattle.report_text.specs.Line.{line_text, IsSayable};
ghost use Rattle.last_lines.specs.Said.{Told, Untold};

use bay_core::{Bay, Failed};
use path_text::Scratch;
use report_text::{Line, line_into};

/// Says a line, made in the scratch. Takes no memory.
pub fn say<B: Bay>(bay: &mut B, scratch: &mut Scratch, line: &Line<'_>) -> Result<(), Failed>
    requires { IsSayable line.now }
    ensures { MatchResult result (λ _. Told (line_text line.now ∷ []) (B.world bay.old) (B.world bay.new)) (λ _. Untold (line_text line.now ∷ []) (B.world bay.old) (B.world bay.new)) }
{
    line_into(line, scratch);
    match bay.say(scratch.bytes()) {
        Ok(()) => Ok(()),
        Err(unsaid) => Err(unsaid),
    }
}

/// Says some lines, as far as they can be said. Takes no memory.
pub fn say_lines<B: Bay>(
    bay: &mut B,
    scratch: &mut Scratch,
    lines: &[Line<'_>],
) -> Result<(), Failed>
    requires { AllByRecursion IsSayable lines.now }
    ensures { MatchResult result (λ _. Told (map line_text lines.now) (B.world bay.old) (B.world bay.new)) (λ _. Untold (map line_text lines.now) (B.world bay.old) (B.world bay.new)) }
{
    for line in lines {
        match say(bay, scratch, line) {
            Ok(()) => {}
            Err(failed) => return Err(failed),
        }
    }
    Ok(())
}
