// The lines of a run, of a repair, of a shift and of a rehearsal.
ghost use Rattle.std.specs.Prelude.{◌≡◌, ◌≤◌, length, true};
ghost use Rattle.report_text.specs.Groups.{is_run};
ghost use Rattle.report_text.specs.Line.{line_text, IsSayable};

use crate::Line;
use crate::fields::{add, begin};
use crate::forms::{
    add_count, add_numbers, add_path, of_number, with_number, with_path, with_three, with_two,
};
use path_text::Scratch;

/// Leaves a line of these in `out`; false where the line is another one.
pub fn run_line(line: &Line<'_>, out: &mut Scratch) -> bool
    requires { IsSayable line.now }
    ensures which { result ≡ is_run line.now }
    ensures text { result ≡ true → out.new ≡ line_text line.now }
    ensures len { result ≡ true → length out.new ≤ 2048 }
{
    match line {
        Line::Begun(d, records, files) => {
            with_three(out, b"begun", u64::from(*d), *records, *files)
        }
        Line::Done(d, records, files, path) => {
            with_number(out, b"done", u64::from(*d));
            add_numbers(out, *records, *files, path);
        }
        Line::Sealed(d, files, list) => {
            with_two(out, b"sealed", u64::from(*d), *files);
            add_path(out, list);
        }
        Line::Clear(drives, required) => with_two(out, b"clear", *drives, *required),
        Line::Unused(d) => with_number(out, b"unused", u64::from(*d)),
        Line::Repaired(path) => with_path(out, b"repaired", path),
        Line::Unrepaired(path) => with_path(out, b"unrepaired", path),
        Line::RepairRepairedUnrepaired(repaired, unrepaired) => {
            begin(out, b"repair");
            add_count(out, *repaired, b"repaired");
            add_count(out, *unrepaired, b"unrepaired");
        }
        Line::InJob(job) => with_number(out, b"in job", u64::from(*job)),
        Line::Jobclear(job, drives, required) => {
            with_three(out, b"jobclear", u64::from(*job), *drives, *required)
        }
        Line::Rehearse(number, files) => with_two(out, b"rehearse", *number, *files),
        Line::Bytes(sum) => with_number(out, b"bytes", *sum),
        Line::DriveSealedGood(d, list) => {
            of_number(out, b"drive", *d, b"sealed");
            add_path(out, list);
            add(out, b"good");
        }
        _ => return false,
    }
    true
}
