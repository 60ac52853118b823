// The table of a list.
ghost use Rattle.std.specs.Prelude.{◌≡◌, ◌≤◌, [], ◌∷◌, map, length, option_map, IfSome, MatchResult};
ghost use Rattle.std.specs.List.{AllByRecursion};
ghost use Rattle.mhl_writer.specs.ListText.{values_of};
ghost use Rattle.report_text.specs.Line.{line_text, IsSayable};
ghost use Rattle.last_lines.specs.Said.{Told, Untold};
ghost use Rattle.station_run.specs.Table.{creator_rows, row_of, print_lines};

use bay_core::{Bay, Failed};
use last_lines::{say, say_lines};
use mhl_writer::{Creator, HashEntry, HashList, NoteText};
use path_text::Scratch;
use report_text::Line;

// The text of a note, if there is one.
fn note(note: &Option<NoteText>) -> Option<&str>
    ensures text { option_map (λ t. t.now) result ≡ note.now }
    ensures short { IfSome result (λ t. length t.now ≤ 1024) }
{
    match note {
        Some(note) => Some(note.as_str()),
        None => None,
    }
}

fn creator_rows(creator: &Creator) -> [Line<'_>; 6]
    ensures text { map line_text result ≡ creator_rows creator.now }
    ensures short { AllByRecursion IsSayable result }
{
    [
        Line::Name(note(&creator.name)),
        Line::Username(note(&creator.username)),
        Line::Hostname(note(&creator.hostname)),
        Line::Tool(note(&creator.tool)),
        Line::Startdate(creator.started),
        Line::Finishdate(creator.finished),
    ]
}

fn row(entry: &HashEntry) -> Line<'_>
    ensures text { line_text result ≡ row_of entry.now }
    ensures short { IsSayable result }
{
    Line::Entry(
        entry.size,
        entry.modified,
        entry.md5,
        entry.sha1,
        entry.xxh,
        entry.path.as_str(),
    )
}

// Says the line of each entry.
fn say_entries<B: Bay>(
    bay: &mut B,
    scratch: &mut Scratch,
    entries: &[HashEntry],
) -> Result<(), Failed>
    ensures { MatchResult result (λ _. Told (map row_of entries.now) (B.world bay.old) (B.world bay.new)) (λ _. Untold (map row_of entries.now) (B.world bay.old) (B.world bay.new)) }
{
    for entry in entries {
        match say(bay, scratch, &row(entry)) {
            Ok(()) => {}
            Err(failed) => return Err(failed),
        }
    }
    Ok(())
}

/// Says the table of a list (docs/FORMATS.md, "The table of a list"), as far as its lines can be said. Takes no memory.
pub fn print_list<B: Bay>(bay: &mut B, scratch: &mut Scratch, list: &HashList) -> Result<(), Failed>
    ensures { MatchResult result (λ _. Told (print_lines (values_of list.now)) (B.world bay.old) (B.world bay.new)) (λ _. Untold (print_lines (values_of list.now)) (B.world bay.old) (B.world bay.new)) }
{
    match say_lines(bay, scratch, &creator_rows(&list.creator)) {
        Ok(()) => {}
        Err(failed) => return Err(failed),
    }
    match say_entries(bay, scratch, &list.entries) {
        Ok(()) => {}
        Err(failed) => return Err(failed),
    }
    match say(bay, scratch, &Line::Entries(list.entries.len() as u64)) {
        Ok(()) => Ok(()),
        Err(failed) => Err(failed),
    }
}
