// The lines that refuse.
ghost use Rattle.std.specs.Prelude.{◌≡◌, ◌≤◌, [], ◌∷◌, length, true, decimal};
ghost use Rattle.report_text.specs.Fields.{fields, cause_fields, IsCause};
ghost use Rattle.report_text.specs.Groups.{is_refusal, is_standing};
ghost use Rattle.report_text.specs.Refusals.{refused_badpath_text};
ghost use Rattle.report_text.specs.Line.{line_text, IsSayable};

use crate::Line;
use crate::fields::{add, add_number, begin};
use crate::forms::{
    add_numbers, add_path, add_triples, of_number, with_number, with_path, with_three, with_two,
};
use path_text::{PathError, Scratch};

// Adds why a text is no path, with a number.
fn add_place(out: &mut Scratch, why: &[u8], number: u64)
    requires room { length out.old ≤ 900 }
    requires why { length why.now ≤ 32 }
    ensures text { out.new ≡ fields out.old (why.now ∷ decimal number ∷ []) }
    ensures len { length out.new ≤ 1024 }
{
    add(out, why);
    add_number(out, number);
}

// Leaves the line in `out` that says why the name of a listed file is no path.
fn bad_path(out: &mut Scratch, index: u64, cause: &PathError)
    requires { IsCause cause.now }
    ensures text { out.new ≡ refused_badpath_text index cause.now }
    ensures len { length out.new ≤ 2048 }
{
    with_number(out, b"refused badpath", index);
    match cause {
        PathError::Empty => add(out, b"empty"),
        PathError::TooLong { len } => add_place(out, b"toolong", *len as u64),
        PathError::Absolute => add(out, b"absolute"),
        PathError::BadChar { at } => add_place(out, b"badchar", *at),
        PathError::EmptyPart { at } => add_place(out, b"emptypart", *at),
        PathError::DotPart { at } => add_place(out, b"dotpart", *at),
        PathError::Memory => unreachable!(),
    }
}

/// Leaves a line in `out` that refuses the words, a card, or a source and its list; false where the line is another one.
pub fn refusal_line(line: &Line<'_>, out: &mut Scratch) -> bool
    requires { IsSayable line.now }
    ensures which { result ≡ is_refusal line.now }
    ensures text { result ≡ true → out.new ≡ line_text line.now }
    ensures len { result ≡ true → length out.new ≤ 2048 }
{
    match line {
        Line::RefusedWords => begin(out, b"refused words"),
        Line::RefusedEmptycard => begin(out, b"refused emptycard"),
        Line::RefusedToomanyfiles(count) => with_number(out, b"refused toomanyfiles", *count),
        Line::RefusedToomanybytes(sum) => with_number(out, b"refused toomanybytes", *sum),
        Line::RefusedBadpath(index, cause) => bad_path(out, *index, cause),
        Line::RefusedBaddate(path) => with_path(out, b"refused baddate", path),
        Line::RefusedControl(path) => with_path(out, b"refused control", path),
        Line::RefusedToobig(path) => with_path(out, b"refused toobig", path),
        Line::RefusedClash(path) => with_path(out, b"refused clash", path),
        Line::With(path) => with_path(out, b"with", path),
        Line::RefusedUnsealed(path) => with_path(out, b"refused unsealed", path),
        Line::RefusedSourcemissing(path) => with_path(out, b"refused sourcemissing", path),
        Line::RefusedSourcesize(listed, found, path) => {
            begin(out, b"refused sourcesize");
            add_numbers(out, *listed, *found, path);
        }
        Line::RefusedOtherlist(list) => with_path(out, b"refused otherlist", list),
        Line::RefusedNoroom(path) => with_path(out, b"refused noroom", path),
        _ => return false,
    }
    true
}

/// Leaves a line in `out` that refuses what stands on the drives; false where the line is another one.
pub fn standing_line(line: &Line<'_>, out: &mut Scratch) -> bool
    requires { IsSayable line.now }
    ensures which { result ≡ is_standing line.now }
    ensures text { result ≡ true → out.new ≡ line_text line.now }
    ensures len { result ≡ true → length out.new ≤ 2048 }
{
    match line {
        Line::RefusedBegun(d) => with_number(out, b"refused begun", u64::from(*d)),
        Line::RefusedNotajournal(d, at) => {
            with_two(out, b"refused notajournal", u64::from(*d), *at)
        }
        Line::RefusedOccupied(d, path) => {
            with_number(out, b"refused occupied", u64::from(*d));
            add_path(out, path);
        }
        Line::RefusedNothingbegun => begin(out, b"refused nothingbegun"),
        Line::RefusedPlandiffers(first, second, at) => with_three(
            out,
            b"refused plandiffers",
            u64::from(*first),
            u64::from(*second),
            *at,
        ),
        Line::RefusedCarddiffers(at) => with_number(out, b"refused carddiffers", *at),
        Line::RefusedJournalfalseAbsent(d, path) => {
            of_number(out, b"refused journalfalse", *d, b"absent");
            add_path(out, path);
        }
        Line::RefusedJournalfalseLength(d, recorded, read, path) => {
            of_number(out, b"refused journalfalse", *d, b"length");
            add_numbers(out, *recorded, *read, path);
        }
        Line::RefusedJournalfalseAltered(d, recorded, read, path) => {
            of_number(out, b"refused journalfalse", *d, b"altered");
            add_triples(out, recorded, read, path);
        }
        Line::RefusedSpandiffers(d) => with_number(out, b"refused spandiffers", u64::from(*d)),
        _ => return false,
    }
    true
}
