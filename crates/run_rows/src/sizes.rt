// Files of many sizes, onto one, two, three and eight drives, in any order of the picks and with any number of blocks at once.
ghost use Rattle.std.specs.Prelude.{IfOk};
ghost use Rattle.run_rows.specs.Ready.{IsReady};

use crate::cards::{
    File, JOURNAL, LIST, MIDNIGHT, NEW, NOTES, PART, TO_DO, bay, expect_whole, file_in, left_on,
};
use crate::orders::{EIGHT_FRESH, FRESH, Start, THREE_FRESH, TWO_FRESH, offload, order};
use crate::telling::{count, expect_number, expect_text, told};
use bay_mem::{MemBay, MemMap};
use offload_run::Offload;
use std::alloc::{AllocError, Global};
use std::process::Abort;
use std::test::Fail;

// The last is twenty blocks and a byte.
const FILES: [File; 7] = [
    ("a.mov", 0),
    ("b.mov", 1),
    ("c.mov", 31),
    ("d.mov", 65_535),
    ("e.mov", 65_536),
    ("f.mov", 65_537),
    ("g.mov", 1_310_721),
];

// The drives, and their numbers; how many bytes a read gives at most; the picks, and how many blocks there are at once; and how
// often the card is read.
type Row = (
    &'static [Start],
    &'static str,
    usize,
    &'static [u32],
    u32,
    usize,
);

// With whole blocks the card is read once for each block and once at each size: 1, 2, 2, 2, 2, 3 and 22. By a thousand bytes
// a block of 65,535 or 65,536 takes 66 reads: 1, 2, 2, 67, 67, 68 and 1,322.
const ROWS: [Row; 9] = [
    (&FRESH, "0", 65_536, &[0], 16, 34),
    (&FRESH, "0", 1000, &[0], 16, 1529),
    (&TWO_FRESH, "01", 1000, &[0], 16, 1529),
    (&THREE_FRESH, "012", 1000, &[0], 16, 1529),
    (&EIGHT_FRESH, "01234567", 1000, &[0], 16, 1529),
    (&THREE_FRESH, "012", 65_536, &[0], 16, 34),
    (&THREE_FRESH, "012", 65_536, &[2, 0, 1, 1], 16, 34),
    (&THREE_FRESH, "012", 65_536, &[2, 0, 1, 1], 1, 34),
    (&THREE_FRESH, "012", 65_536, &[1, 0, 2], 5, 34),
];

// A drive with notes, and with the scratch files of another run.
fn noted(alloc: Global) -> Result<MemMap, AllocError> {
    let mut map = MemMap::new(alloc);
    map.add(NOTES, TO_DO, MIDNIGHT)?;
    map.add(PART, b"left here", MIDNIGHT)?;
    map.add(NEW, b"left here", MIDNIGHT)?;
    Ok(map)
}

// A bay with so many such drives, whose reads give so many bytes at most, and whose picker answers these.
fn noted_bay(alloc: Global, drives: usize, cut: usize, picks: &[u32]) -> Result<MemBay, Fail>
    ensures { IfOk result IsReady }
{
    let mut maps = Vec::new(alloc);
    for _ in 0..drives {
        maps.push(noted(alloc)?)?;
    }
    let mut bay = bay(alloc, &FILES, maps)?;
    bay.cut_reads(cut.max(1));
    bay.picks(picks.to_vec(alloc)?);
    Ok(bay)
}

// Adds a line for each of so many drives: a word, the number of the drive, and the rest.
fn add_lines(
    alloc: Global,
    lines: &mut String,
    drives: usize,
    word: &str,
    rest: &str,
) -> Result<(), Fail> {
    for d in 0..drives {
        lines.push_str(&format!(in alloc; "{word} {d} {rest}\n")?)?;
    }
    Ok(())
}

const DONE: [&str; 7] = [
    "1 7 a.mov",
    "2 7 b.mov",
    "3 7 c.mov",
    "4 7 d.mov",
    "5 7 e.mov",
    "6 7 f.mov",
    "7 7 g.mov",
];

// What a run tells to the drives with these numbers: each is begun; each file is done on each; each is sealed; the card is
// called clear.
fn all_told(alloc: Global, numbers: &str) -> Result<String, Fail> {
    let drives = numbers.len();
    let mut told = String::new(alloc);
    add_lines(alloc, &mut told, drives, "begun", "0 7")?;
    for rest in DONE {
        add_lines(alloc, &mut told, drives, "done", rest)?;
    }
    add_lines(
        alloc,
        &mut told,
        drives,
        "sealed",
        "7 A001_2014-10-24_120000.mhl",
    )?;
    let last = format!(in alloc; "clear {drives} {drives}\nFinished | {numbers} | -")?;
    told.push_str(&last)?;
    Ok(told)
}

// Fails unless a run went well on the drives with these numbers, with so many reads of the card.
fn expect_finished(
    rt: &impl Abort,
    alloc: Global,
    run: &Offload,
    bay: &MemBay,
    numbers: &str,
    reads: usize,
) -> Result<(), Fail> {
    let wanted = all_told(alloc, numbers)?;
    let told = told(alloc, run, bay)?;
    expect_text(rt, &told, &wanted);
    expect_number(rt, count(alloc, bay, "card ")?, reads);
    Ok(())
}

// The bay of the run of a row, which went well.
fn run_row(rt: &impl Abort, alloc: Global, row: Row) -> Result<MemBay, Fail>
    ensures { IfOk result IsReady }
{
    let (starts, numbers, cut, picks, slots, reads) = row;
    let copies = starts.len().min(8) as u32;
    let mut bay = noted_bay(alloc, starts.len(), cut, picks)?;
    let order = order(alloc, &FILES, starts, copies, slots, None)?;
    let run = offload(rt, alloc, &mut bay, order)?;
    expect_finished(rt, alloc, &run, &bay, numbers, reads)?;
    Ok(bay)
}

// Fails unless a drive has its notes, each file as the card has it, and the journal and the list that another has, of their
// lengths.
fn expect_sizes(rt: &impl Abort, alloc: Global, left: &MemMap, other: &MemMap) -> Result<(), Fail> {
    assert!(rt; left.get(NOTES) == Some(TO_DO.as_slice()));
    // The code of the plan has 35 bytes and 23 for each file, and a gate behind it; a record and its gate have 65.
    expect_number(rt, file_in(left, JOURNAL).len(), 652);
    // The head has 307 bytes and the tail 12. An entry has 328 and its size, which is written with 1, 1, 2, 5, 5, 5 and 7
    // digits.
    expect_number(rt, file_in(left, LIST).len(), 2641);
    expect_number(rt, left.len(), 10);
    expect_whole(rt, alloc, &FILES, left, other)
}

// Fails unless each of so many drives has so what another has.
fn expect_all(
    rt: &impl Abort,
    alloc: Global,
    bay: &MemBay,
    drives: usize,
    other: &MemMap,
) -> Result<(), Fail>
    requires { IsReady bay.now }
{
    for d in 0..drives.min(8) {
        expect_sizes(rt, alloc, &left_on(bay, d as u32)?, other)?;
    }
    Ok(())
}

// Fails unless the run of a row goes well, and leaves on each drive what another has.
fn expect_row(rt: &impl Abort, alloc: Global, row: Row, other: &MemMap) -> Result<(), Fail> {
    let bay = run_row(rt, alloc, row)?;
    expect_all(rt, alloc, &bay, row.0.len(), other)
}

#[test]
fn files_of_all_sizes_reach_each_drive(rt: HostRuntime) -> Result<(), Fail> {
    let bay = run_row(&rt, rt.alloc(), ROWS[0])?;
    let first = left_on(&bay, 0)?;
    for row in ROWS {
        expect_row(&rt, rt.alloc(), row, &first)?;
    }
    Ok(())
}
