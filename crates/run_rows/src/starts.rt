// Runs whose drives start at different steps, as an earlier run left them, wherever that was stopped.
ghost use Rattle.run_rows.specs.Ready.{IsReady};

use crate::cards::{File, NOTES, ONE, TO_DO, TWO, expect_whole, left_on};
use crate::ends::{Part, Row, left_behind, run_row};
use crate::orders::{Start, offload_from};
use crate::telling::{calls, count, expect_end, expect_number, expect_text};
use bay_mem::{MemBay, MemMap};
use std::alloc::Global;
use std::process::Abort;
use std::test::Fail;

// ---- one drive after a stop

const SEALED: &str = "sealed 0 1 A001_2014-10-24_120000.mhl
clear 1 1
Finished | 0 | -";

const GOES_ON: &str = "begun 0 1 1
sealed 0 1 A001_2014-10-24_120000.mhl
clear 1 1
Finished | 0 | -";

const RECORDS: &str = "begun 0 0 1
done 0 1 1 a.mov
sealed 0 1 A001_2014-10-24_120000.mhl
clear 1 1
Finished | 0 | -";

const OPENS: &str = "0 write journal 58 1";

const PLACES: &str = "0 rename part a.mov";

const COPIES: &str = "0 write part 0 3";

const NAMES: &str = "0 rename new A001_2014-10-24_120000.mhl";

const FROM_NONE: Start = Start::Begun(0, false);

const FROM_PART: Start = Start::Begun(0, true);

const FROM_RECORD: Start = Start::Begun(1, false);

const BEGINS: &str = "say begun 0 0 1";

const RECORDED: &str = "say done 0 1 1 a.mov";

const CLEARS: &str = "say clear 1 1";

// The call behind which the first run was stopped, and the choice for what was pending then; how the drive starts by that;
// the lines of the next run with its end behind them; and how many calls it makes that can fail, how often it reads the card,
// and how often it writes to the part.
type Stop = (
    &'static str,
    &'static [u32],
    Start,
    &'static str,
    [usize; 3],
);

// To go on, a drive has the list that waits for its name removed, its part unless that is kept, and the file whose record is
// the next; then its line is said. The file abc takes 2 calls of the card, and is recorded by 9. A kept part is read once,
// and written where it has other bytes; a part that is not kept is written twice. A list of one file makes 9 calls with its
// line, and the last line is one more.
const STOPS: [Stop; 16] = [
    (BEGINS, &[], FROM_NONE, RECORDS, [27, 2, 2]),
    (COPIES, &[0, 0], FROM_NONE, RECORDS, [27, 2, 2]),
    (COPIES, &[1, 0], FROM_PART, RECORDS, [26, 2, 1]),
    (COPIES, &[1, 1], FROM_PART, RECORDS, [25, 2, 0]),
    (COPIES, &[1, 2], FROM_PART, RECORDS, [26, 2, 1]),
    (PLACES, &[0], FROM_PART, RECORDS, [25, 2, 0]),
    (PLACES, &[1], FROM_NONE, RECORDS, [27, 2, 2]),
    (PLACES, &[2], FROM_PART, RECORDS, [25, 2, 0]),
    (OPENS, &[0], FROM_NONE, RECORDS, [27, 2, 2]),
    (OPENS, &[23], FROM_NONE, RECORDS, [27, 2, 2]),
    (OPENS, &[1], FROM_RECORD, GOES_ON, [13, 0, 0]),
    (RECORDED, &[], FROM_RECORD, GOES_ON, [13, 0, 0]),
    (NAMES, &[0], FROM_RECORD, GOES_ON, [13, 0, 0]),
    (NAMES, &[1], Start::Sealed, SEALED, [2, 0, 0]),
    (NAMES, &[2], Start::Sealed, SEALED, [2, 0, 0]),
    (CLEARS, &[], Start::Sealed, SEALED, [2, 0, 0]),
];

// Fails unless the run after a stop goes so, and leaves what a run leaves that was not stopped.
fn expect_stop(rt: &impl Abort, alloc: Global, stop: Stop, whole: &MemMap) -> Result<(), Fail> {
    let (call, choice, start, told, [calls, reads, writes]) = stop;
    let mut maps = Vec::new(alloc);
    maps.push(left_behind(rt, alloc, &ONE, call, choice)?)?;
    let (run, bay) = offload_from(rt, alloc, &ONE, &[start], maps, 1, &[])?;
    expect_end(rt, alloc, &run, &bay, told, calls)?;
    expect_rejoined(rt, alloc, &bay, reads, writes, whole)
}

// Fails unless the card was read so often, the part of drive 0 written to so often, and drive 0 has the same as another.
fn expect_rejoined(
    rt: &impl Abort,
    alloc: Global,
    bay: &MemBay,
    reads: usize,
    writes: usize,
    whole: &MemMap,
) -> Result<(), Fail>
    requires { IsReady bay.now }
{
    expect_number(rt, count(alloc, bay, "card ")?, reads);
    expect_number(rt, count(alloc, bay, "0 write part ")?, writes);
    expect_whole(rt, alloc, &ONE, &left_on(bay, 0)?, whole)
}

#[test]
fn a_stopped_drive_goes_on(rt: HostRuntime) -> Result<(), Fail> {
    let whole = left_behind(&rt, rt.alloc(), &ONE, "say clear", &[])?;
    expect_number(&rt, whole.len(), 3);
    for stop in STOPS {
        expect_stop(&rt, rt.alloc(), stop, &whole)?;
    }
    Ok(())
}

// ---- drives with one record and with none

const ONE_AHEAD: &str = "begun 0 1 2
begun 1 0 2
done 1 1 2 a.mov
done 0 2 2 b.mov
done 1 2 2 b.mov
sealed 0 2 A001_2014-10-24_120000.mhl
sealed 1 2 A001_2014-10-24_120000.mhl
clear 2 2
Finished | 01 | -";

// The drives are begun by 4 and 7 calls. The first file takes 4 for its copy and 9 for its recording on one drive, the empty
// one 3 and twice 8. Each list makes 10 with its line, and the last line is one more.
const AHEAD: Row = (
    &TWO,
    &[FROM_RECORD, Start::Fresh],
    None,
    2,
    &[],
    ONE_AHEAD,
    64,
);

// The drive that is ahead is not called for the first file.
const CALLS_AHEAD: &str = "0 remove new
0 remove part
0 remove b.mov
0 write part 0 0
0 sync
0 read part 0 1
0 rename part b.mov
0 write journal 147 65
0 sync
0 write journal 146 1
0 sync
0 write new 0 307
0 write new 307 329
0 write new 636 329
0 write new 965 12
0 sync
0 read new 0 977
0 read new 977 1
0 rename new A001_2014-10-24_120000.mhl
0 sync
";

#[test]
fn a_drive_that_is_ahead_waits(rt: HostRuntime) -> Result<(), Fail> {
    let alloc = rt.alloc();
    let bay = run_row(&rt, alloc, AHEAD)?;
    expect_text(&rt, &calls(alloc, &bay, "0 ")?, CALLS_AHEAD);
    let first = left_on(&bay, 0)?;
    expect_whole(&rt, alloc, &TWO, &left_on(&bay, 1)?, &first)?;
    expect_whole(&rt, alloc, &TWO, &first, &first)?;
    expect_number(&rt, first.len(), 4);
    Ok(())
}

// ---- one drive fresh, one with a record and a kept part, one sealed, one gone

// The second file has two blocks.
const BLOCKS: [File; 2] = [("a.mov", 3), ("c.mov", 131_072)];

const MIXED: [Start; 4] = [
    Start::Fresh,
    Start::Begun(1, true),
    Start::Sealed,
    Start::Gone,
];

const MIXED_TOLD: &str = "begun 0 0 2
begun 1 1 2
done 0 1 2 a.mov
done 0 2 2 c.mov
done 1 2 2 c.mov
sealed 0 2 A001_2014-10-24_120000.mhl
sealed 1 2 A001_2014-10-24_120000.mhl
sealed 2 2 A001_2014-10-24_120000.mhl
clear 3 2
Finished | 012 | -";

const REJOINS: &str = "1 remove new
1 remove c.mov
";

const RECORDS_BLOCKS: &str = "1 sync
1 read part 0 65536
1 read part 65536 65536
1 read part 131072 1
1 rename part c.mov
1 write journal 147 65
1 sync
1 write journal 146 1
1 sync
1 write new 0 307
1 write new 307 329
1 write new 636 334
1 write new 970 12
1 sync
1 read new 0 982
1 read new 982 1
1 rename new A001_2014-10-24_120000.mhl
1 sync
";

// How the kept part is read and written.
const ALL_AGREES: &str = "1 read part 0 65536
1 read part 65536 65536
";

const FIRST_AGREES: &str = "1 read part 0 65536
1 read part 65536 65536
1 write part 65536 65536
";

const NONE_AGREES: &str = "1 read part 0 65536
1 write part 0 65536
1 write part 65536 65536
";

const ENDS_EARLY: &str = "1 read part 0 65536
1 read part 1000 64536
1 write part 0 65536
1 write part 65536 65536
";

// The part that is kept, how it is read and written, and how many calls there are that can fail: 71 beside these.
const PARTS: [(Part, &str, usize); 6] = [
    ((131_072, 0, 0), ALL_AGREES, 73),
    ((131_072, 131_071, 131_072), FIRST_AGREES, 74),
    ((65_536, 0, 0), FIRST_AGREES, 74),
    ((65_536, 0, 65_536), NONE_AGREES, 74),
    ((0, 0, 0), NONE_AGREES, 74),
    ((1000, 0, 0), ENDS_EARLY, 75),
];

// Fails unless the part is read and written so, drives 0, 1 and 2 have the same four files, those of the card as it has
// them, and drive 3 its notes.
fn expect_mixed(rt: &impl Abort, alloc: Global, bay: &MemBay, compares: &str) -> Result<(), Fail>
    requires { IsReady bay.now }
{
    let wanted = format!(in alloc; "{REJOINS}{compares}{RECORDS_BLOCKS}")?;
    expect_text(rt, &calls(alloc, bay, "1 ")?, &wanted);
    let sealed = left_on(bay, 2)?;
    for d in 0..3 {
        let left = left_on(bay, d)?;
        expect_whole(rt, alloc, &BLOCKS, &left, &sealed)?;
        expect_number(rt, left.len(), 4);
    }
    let gone = left_on(bay, 3)?;
    assert!(rt; gone.len() == 1 && gone.get(NOTES) == Some(TO_DO.as_slice()));
    Ok(())
}

#[test]
fn drives_at_all_steps_run_together(rt: HostRuntime) -> Result<(), Fail> {
    for (part, compares, calls) in PARTS {
        let row: Row = (&BLOCKS, &MIXED, Some(part), 2, &[], MIXED_TOLD, calls);
        let bay = run_row(&rt, rt.alloc(), row)?;
        expect_mixed(&rt, rt.alloc(), &bay, compares)?;
    }
    Ok(())
}
