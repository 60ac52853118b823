// Each call of an offload of two files onto two drives fails once, and so does each line.
use crate::cards::TWO;
use crate::orders::{TWO_FRESH, offload_from};
use crate::telling::{calls, count_calls, end, expect_number, expect_text};
use bay_core::Event;
use bay_mem::MemBay;
use offload_run::Offload;
use std::alloc::Global;
use std::process::Abort;
use std::test::Fail;

// The calls of this offload where none fails, in their order. Those that can fail are counted from 1: all but the attaches,
// the picks and the moments.
const CALLS: [&str; 12] = [
    // The card and eight drives are attached.
    "attach
attach
attach
attach
attach
attach
attach
attach
attach
",
    // 1 to 7: drive 0 is begun: two removals, the journal published, its line.
    "0 remove new
0 remove part
0 write new 0 82
0 sync
0 rename new journal
0 sync
say begun 0 0 2
",
    // 8 to 14: drive 1 is begun.
    "1 remove new
1 remove part
1 write new 0 82
1 sync
1 rename new journal
1 sync
say begun 1 0 2
",
    // 15 to 20: an empty piece of the first file on each drive, its block read and written to each drive, and a byte asked for
    // at its size.
    "0 write part 0 0
1 write part 0 0
pick
card a.mov 0 3
pick
0 write part 0 3
pick
1 write part 0 3
pick
card a.mov 3 1
",
    // 21 to 29: the moment of the file. It is recorded on drive 0: a barrier, two reads, the path, the record, a barrier, the
    // gate, a barrier, the line.
    "moment
0 sync
0 read part 0 3
0 read part 3 1
0 rename part a.mov
0 write journal 82 65
0 sync
0 write journal 81 1
0 sync
say done 0 1 2 a.mov
",
    // 30 to 38: it is recorded on drive 1.
    "1 sync
1 read part 0 3
1 read part 3 1
1 rename part a.mov
1 write journal 82 65
1 sync
1 write journal 81 1
1 sync
say done 1 1 2 a.mov
",
    // 39 to 41: the empty file has no block.
    "0 write part 0 0
1 write part 0 0
pick
card b.mov 0 1
",
    // 42 to 49: the moment of the file. It is recorded on drive 0, with one read of the part.
    "moment
0 sync
0 read part 0 1
0 rename part b.mov
0 write journal 147 65
0 sync
0 write journal 146 1
0 sync
say done 0 2 2 b.mov
",
    // 50 to 57: it is recorded on drive 1.
    "1 sync
1 read part 0 1
1 rename part b.mov
1 write journal 147 65
1 sync
1 write journal 146 1
1 sync
say done 1 2 2 b.mov
",
    // 58 to 67: drive 0 is sealed: its moment, a list of four parts, a barrier, two reads, the name, a barrier, the line.
    "moment
0 write new 0 307
0 write new 307 329
0 write new 636 329
0 write new 965 12
0 sync
0 read new 0 977
0 read new 977 1
0 rename new A001_2014-10-24_120000.mhl
0 sync
say sealed 0 2 A001_2014-10-24_120000.mhl
",
    // 68 to 77: drive 1 is sealed.
    "moment
1 write new 0 307
1 write new 307 329
1 write new 636 329
1 write new 965 12
1 sync
1 read new 0 977
1 read new 977 1
1 rename new A001_2014-10-24_120000.mhl
1 sync
say sealed 1 2 A001_2014-10-24_120000.mhl
",
    // 78: the card is called clear.
    "say clear 2 2
",
];

#[test]
fn the_calls_stand_in_their_order(rt: HostRuntime) -> Result<(), Fail> {
    let alloc = rt.alloc();
    let mut wanted = String::new(alloc);
    for piece in CALLS {
        wanted.push_str(piece)?;
    }
    let (_run, bay) = offload_from(&rt, alloc, &TWO, &TWO_FRESH, Vec::new(alloc), 2, &[])?;
    expect_text(&rt, &calls(alloc, &bay, "")?, &wanted);
    Ok(())
}

// The lines of this offload by short names: a letter and the number of the drive. b stands for `begun`, a for the `done` of
// the first file and e for that of the empty one, s for `sealed`, x for `dropped`, c for `clear`.
const LINES: [(&str, &str); 11] = [
    ("b0", "begun 0 0 2"),
    ("b1", "begun 1 0 2"),
    ("a0", "done 0 1 2 a.mov"),
    ("a1", "done 1 1 2 a.mov"),
    ("e0", "done 0 2 2 b.mov"),
    ("e1", "done 1 2 2 b.mov"),
    ("s0", "sealed 0 2 A001_2014-10-24_120000.mhl"),
    ("s1", "sealed 1 2 A001_2014-10-24_120000.mhl"),
    ("x0", "dropped 0 fault"),
    ("x1", "dropped 1 fault"),
    ("c", "clear 2 2"),
];

fn short_name(line: &[u8]) -> &'static str {
    for (name, text) in LINES {
        if line == text.as_bytes() {
            return name;
        }
    }
    "?"
}

// What came of the offload: the lines by their names, each with a space behind it, and with a mark where it was not said; the
// outcome, the drives that were said to be sealed and to be dropped, and how many calls were made that can fail.
fn came_of(alloc: Global, run: &Offload, bay: &MemBay) -> Result<String, Fail> {
    let mut came = String::new(alloc);
    for event in bay.events() {
        if let Event::Say { line, ok } = event {
            came.push_str(short_name(line.as_slice()))?;
            came.push_str(if *ok { " " } else { "! " })?;
        }
    }
    let end = end(alloc, run)?;
    let calls = count_calls(bay);
    came.push_str(&format!(in alloc; "| {end} | {calls}")?)?;
    Ok(came)
}

// Fails unless this comes of the offload where these calls fail.
fn expect_came(rt: &impl Abort, alloc: Global, failing: &[u64], wanted: &str) -> Result<(), Fail> {
    let (run, bay) = offload_from(rt, alloc, &TWO, &TWO_FRESH, Vec::new(alloc), 2, failing)?;
    expect_text(rt, &came_of(alloc, &run, &bay)?, wanted);
    Ok(())
}

// The numbers of calls that fail; the word `none` is for no call.
fn numbers_of(alloc: Global, words: &str) -> Result<Vec<u64>, Fail> {
    let mut numbers = Vec::new(alloc);
    for word in words.split_whitespace() {
        if word != "none" {
            numbers.push(word.parse::<u64>()?)?;
        }
    }
    Ok(numbers)
}

// Fails unless the offload comes to what a row says.
fn expect_row(rt: &impl Abort, alloc: Global, row: &str) -> Result<(), Fail> {
    let Some((failing, wanted)) = row.split_once(": ") else {
        return Err("a row has a colon".into());
    };
    expect_came(rt, alloc, &numbers_of(alloc, failing)?, wanted)
}

// Fails unless the offload comes to what each row says, and answers how many rows there are.
fn expect_rows(rt: &impl Abort, alloc: Global, rows: &str) -> Result<usize, Fail> {
    let mut count = 0usize;
    for row in rows.lines() {
        expect_row(rt, alloc, row)?;
        count = count.saturating_add(1);
    }
    Ok(count)
}

// The numbers of the calls that fail, of those that can, and behind a colon what comes of the offload.
//
// Where a call on a drive fails, its line is one call more, and the other drive goes on with what it still needs: 7 calls to be
// begun, 4 for the copy of the first file and 2 for that of the empty one, or what is left of them, 9 and 8 for their
// recording, and 10 to be sealed. The card is not called clear then, since two drives are required.
const ROWS: [&str; 12] = [
    // 1 to 14: the drives are begun.
    "1: x0 b1 a1 e1 s1 | Finished | 1 | 0 | 42
2: x0 b1 a1 e1 s1 | Finished | 1 | 0 | 43
3: x0 b1 a1 e1 s1 | Finished | 1 | 0 | 44
4: x0 b1 a1 e1 s1 | Finished | 1 | 0 | 45
5: x0 b1 a1 e1 s1 | Finished | 1 | 0 | 46
6: x0 b1 a1 e1 s1 | Finished | 1 | 0 | 47
7: b0! | OutFailed | - | - | 7
8: b0 x1 a0 e0 s0 | Finished | 0 | 1 | 42
9: b0 x1 a0 e0 s0 | Finished | 0 | 1 | 43
10: b0 x1 a0 e0 s0 | Finished | 0 | 1 | 44
11: b0 x1 a0 e0 s0 | Finished | 0 | 1 | 45
12: b0 x1 a0 e0 s0 | Finished | 0 | 1 | 46
13: b0 x1 a0 e0 s0 | Finished | 0 | 1 | 47
14: b0 b1! | OutFailed | - | - | 14
",
    // 15 to 20: the copy of the first file.
    "15: b0 b1 x0 a1 e1 s1 | Finished | 1 | 0 | 49
16: b0 b1 x1 a0 e0 s0 | Finished | 0 | 1 | 49
17: b0 b1 | SourceFailed | - | - | 17
18: b0 b1 x0 a1 e1 s1 | Finished | 1 | 0 | 50
19: b0 b1 x1 a0 e0 s0 | Finished | 0 | 1 | 50
20: b0 b1 | SourceFailed | - | - | 20
",
    // 21 to 29: its recording on drive 0.
    "21: b0 b1 x0 a1 e1 s1 | Finished | 1 | 0 | 51
22: b0 b1 x0 a1 e1 s1 | Finished | 1 | 0 | 52
23: b0 b1 x0 a1 e1 s1 | Finished | 1 | 0 | 53
24: b0 b1 x0 a1 e1 s1 | Finished | 1 | 0 | 54
25: b0 b1 x0 a1 e1 s1 | Finished | 1 | 0 | 55
26: b0 b1 x0 a1 e1 s1 | Finished | 1 | 0 | 56
27: b0 b1 x0 a1 e1 s1 | Finished | 1 | 0 | 57
28: b0 b1 x0 a1 e1 s1 | Finished | 1 | 0 | 58
29: b0 b1 a0! | OutFailed | - | - | 29
",
    // 30 to 38: its recording on drive 1.
    "30: b0 b1 a0 x1 e0 s0 | Finished | 0 | 1 | 51
31: b0 b1 a0 x1 e0 s0 | Finished | 0 | 1 | 52
32: b0 b1 a0 x1 e0 s0 | Finished | 0 | 1 | 53
33: b0 b1 a0 x1 e0 s0 | Finished | 0 | 1 | 54
34: b0 b1 a0 x1 e0 s0 | Finished | 0 | 1 | 55
35: b0 b1 a0 x1 e0 s0 | Finished | 0 | 1 | 56
36: b0 b1 a0 x1 e0 s0 | Finished | 0 | 1 | 57
37: b0 b1 a0 x1 e0 s0 | Finished | 0 | 1 | 58
38: b0 b1 a0 a1! | OutFailed | - | - | 38
",
    // 39 to 41: the copy of the empty file.
    "39: b0 b1 a0 a1 x0 e1 s1 | Finished | 1 | 0 | 60
40: b0 b1 a0 a1 x1 e0 s0 | Finished | 0 | 1 | 60
41: b0 b1 a0 a1 | SourceFailed | - | - | 41
",
    // 42 to 49: its recording on drive 0.
    "42: b0 b1 a0 a1 x0 e1 s1 | Finished | 1 | 0 | 61
43: b0 b1 a0 a1 x0 e1 s1 | Finished | 1 | 0 | 62
44: b0 b1 a0 a1 x0 e1 s1 | Finished | 1 | 0 | 63
45: b0 b1 a0 a1 x0 e1 s1 | Finished | 1 | 0 | 64
46: b0 b1 a0 a1 x0 e1 s1 | Finished | 1 | 0 | 65
47: b0 b1 a0 a1 x0 e1 s1 | Finished | 1 | 0 | 66
48: b0 b1 a0 a1 x0 e1 s1 | Finished | 1 | 0 | 67
49: b0 b1 a0 a1 e0! | OutFailed | - | - | 49
",
    // 50 to 57: its recording on drive 1.
    "50: b0 b1 a0 a1 e0 x1 s0 | Finished | 0 | 1 | 61
51: b0 b1 a0 a1 e0 x1 s0 | Finished | 0 | 1 | 62
52: b0 b1 a0 a1 e0 x1 s0 | Finished | 0 | 1 | 63
53: b0 b1 a0 a1 e0 x1 s0 | Finished | 0 | 1 | 64
54: b0 b1 a0 a1 e0 x1 s0 | Finished | 0 | 1 | 65
55: b0 b1 a0 a1 e0 x1 s0 | Finished | 0 | 1 | 66
56: b0 b1 a0 a1 e0 x1 s0 | Finished | 0 | 1 | 67
57: b0 b1 a0 a1 e0 e1! | OutFailed | - | - | 57
",
    // 58 to 67: drive 0 is sealed.
    "58: b0 b1 a0 a1 e0 e1 x0 s1 | Finished | 1 | 0 | 69
59: b0 b1 a0 a1 e0 e1 x0 s1 | Finished | 1 | 0 | 70
60: b0 b1 a0 a1 e0 e1 x0 s1 | Finished | 1 | 0 | 71
61: b0 b1 a0 a1 e0 e1 x0 s1 | Finished | 1 | 0 | 72
62: b0 b1 a0 a1 e0 e1 x0 s1 | Finished | 1 | 0 | 73
63: b0 b1 a0 a1 e0 e1 x0 s1 | Finished | 1 | 0 | 74
64: b0 b1 a0 a1 e0 e1 x0 s1 | Finished | 1 | 0 | 75
65: b0 b1 a0 a1 e0 e1 x0 s1 | Finished | 1 | 0 | 76
66: b0 b1 a0 a1 e0 e1 x0 s1 | Finished | 1 | 0 | 77
67: b0 b1 a0 a1 e0 e1 s0! | OutFailed | 0 | - | 67
",
    // 68 to 77: drive 1 is sealed.
    "68: b0 b1 a0 a1 e0 e1 s0 x1 | Finished | 0 | 1 | 69
69: b0 b1 a0 a1 e0 e1 s0 x1 | Finished | 0 | 1 | 70
70: b0 b1 a0 a1 e0 e1 s0 x1 | Finished | 0 | 1 | 71
71: b0 b1 a0 a1 e0 e1 s0 x1 | Finished | 0 | 1 | 72
72: b0 b1 a0 a1 e0 e1 s0 x1 | Finished | 0 | 1 | 73
73: b0 b1 a0 a1 e0 e1 s0 x1 | Finished | 0 | 1 | 74
74: b0 b1 a0 a1 e0 e1 s0 x1 | Finished | 0 | 1 | 75
75: b0 b1 a0 a1 e0 e1 s0 x1 | Finished | 0 | 1 | 76
76: b0 b1 a0 a1 e0 e1 s0 x1 | Finished | 0 | 1 | 77
77: b0 b1 a0 a1 e0 e1 s0 s1! | OutFailed | 01 | - | 77
",
    // 78: the card is called clear. Then no call fails.
    "78: b0 b1 a0 a1 e0 e1 s0 s1 c! | OutFailed | 01 | - | 78
none: b0 b1 a0 a1 e0 e1 s0 s1 c | Finished | 01 | - | 78
",
    // A drive is lost by a call, and the next call, which says its line, fails too: nothing comes after it. A line that was
    // not said counts for the sets of the run.
    "1 2: x0! | OutFailed | - | 0 | 2
6 7: x0! | OutFailed | - | 0 | 7
8 9: b0 x1! | OutFailed | - | 1 | 9
13 14: b0 x1! | OutFailed | - | 1 | 14
15 16: b0 b1 x0! | OutFailed | - | 0 | 16
16 17: b0 b1 x1! | OutFailed | - | 1 | 17
18 19: b0 b1 x0! | OutFailed | - | 0 | 19
19 20: b0 b1 x1! | OutFailed | - | 1 | 20
21 22: b0 b1 x0! | OutFailed | - | 0 | 22
28 29: b0 b1 x0! | OutFailed | - | 0 | 29
30 31: b0 b1 a0 x1! | OutFailed | - | 1 | 31
37 38: b0 b1 a0 x1! | OutFailed | - | 1 | 38
39 40: b0 b1 a0 a1 x0! | OutFailed | - | 0 | 40
40 41: b0 b1 a0 a1 x1! | OutFailed | - | 1 | 41
42 43: b0 b1 a0 a1 x0! | OutFailed | - | 0 | 43
48 49: b0 b1 a0 a1 x0! | OutFailed | - | 0 | 49
50 51: b0 b1 a0 a1 e0 x1! | OutFailed | - | 1 | 51
56 57: b0 b1 a0 a1 e0 x1! | OutFailed | - | 1 | 57
58 59: b0 b1 a0 a1 e0 e1 x0! | OutFailed | - | 0 | 59
66 67: b0 b1 a0 a1 e0 e1 x0! | OutFailed | - | 0 | 67
68 69: b0 b1 a0 a1 e0 e1 s0 x1! | OutFailed | 0 | 1 | 69
76 77: b0 b1 a0 a1 e0 e1 s0 x1! | OutFailed | 0 | 1 | 77
",
    // Two calls fail: both drives are lost, and the card is read no further, or the card is lost after a drive.
    "1 3: x0 x1 | NoDrive | - | 01 | 4
8 10: b0 x1 x0 | NoDrive | - | 01 | 11
15 17: b0 b1 x0 x1 | NoDrive | - | 01 | 18
18 20: b0 b1 x0 x1 | NoDrive | - | 01 | 21
18 21: b0 b1 x0 | SourceFailed | - | 0 | 21
21 23: b0 b1 x0 x1 | NoDrive | - | 01 | 24
30 32: b0 b1 a0 x1 x0 | NoDrive | - | 01 | 33
39 41: b0 b1 a0 a1 x0 x1 | NoDrive | - | 01 | 42
42 44: b0 b1 a0 a1 x0 x1 | NoDrive | - | 01 | 45
58 60: b0 b1 a0 a1 e0 e1 x0 x1 | NoDrive | - | 01 | 61
",
];

#[test]
fn each_call_fails_once(rt: HostRuntime) -> Result<(), Fail> {
    let mut count = 0usize;
    for rows in ROWS {
        count = count.saturating_add(expect_rows(&rt, rt.alloc(), rows)?);
    }
    expect_number(&rt, count, 111);
    Ok(())
}
