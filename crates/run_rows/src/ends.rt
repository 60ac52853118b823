// Runs by how their drives start, how many are required, and which calls fail: what they say and how they end.
ghost use Rattle.std.specs.Prelude.{IfOk};
ghost use Rattle.run_rows.specs.Ready.{IsReady};

use crate::cards::{File, MIDNIGHT, NOTES, ONE, PART, TO_DO, TWO, bytes};
use crate::orders::{FRESH, Start, THREE_FRESH, TWO_FRESH, offload_from};
use crate::telling::{calls, calls_up_to, expect_end, expect_text};
use bay_mem::{MemBay, MemMap};
use std::alloc::{AllocError, Global};
use std::process::Abort;
use std::test::Fail;

// A part that a drive keeps: how many bytes it has, and from where up to where they are 0 and not those of the file.
pub type Part = (u64, usize, usize);

// The files of a run, how its drives start, and the part that one of them may keep; how many drives are required; the calls
// that fail, counted from 1 over those that can; the lines with the end behind them; and how many calls there are that can fail.
pub type Row = (
    &'static [File],
    &'static [Start],
    Option<Part>,
    u32,
    &'static [u64],
    &'static str,
    usize,
);

// What an offload of these files to one drive leaves of the drive, where it is stopped right behind the first call whose text
// begins so, by this choice for the changes that are pending then.
pub fn left_behind(
    rt: &impl Abort,
    alloc: Global,
    files: &[File],
    call: &str,
    choice: &[u32],
) -> Result<MemMap, Fail> {
    let (_run, bay) = offload_from(rt, alloc, files, &FRESH, Vec::new(alloc), 1, &[])?;
    let upto = calls_up_to(alloc, &bay, call)?;
    Ok(bay.image(0, upto, choice)?)
}

// The bytes of a part that is kept.
fn part_bytes(alloc: Global, part: Part) -> Result<Vec<u8>, AllocError> {
    let (len, from, to) = part;
    let mut bytes = bytes(alloc, len)?;
    for (j, byte) in bytes.iter_mut().enumerate() {
        if from <= j && j < to {
            *byte = 0;
        }
    }
    Ok(bytes)
}

// The call behind which an offload is stopped whose drive starts so in the next one.
fn stop_of(start: Start) -> Option<&'static str> {
    match start {
        Start::Gone | Start::Fresh => None,
        Start::Begun(0, _) => Some("say begun"),
        Start::Begun(..) => Some("say done"),
        Start::Sealed => Some("say clear"),
    }
}

// What a drive has that starts so in an offload of these files. One that is gone has notes.
fn map_of(
    rt: &impl Abort,
    alloc: Global,
    files: &[File],
    start: Start,
    part: Option<Part>,
) -> Result<MemMap, Fail> {
    let mut map = match stop_of(start) {
        Some(call) => left_behind(rt, alloc, files, call, &[])?,
        None => MemMap::new(alloc),
    };
    if let Start::Gone = start {
        map.add(NOTES, TO_DO, MIDNIGHT)?;
    }
    if let (Start::Begun(_, true), Some(part)) = (start, part) {
        map.add(PART, &part_bytes(alloc, part)?, MIDNIGHT)?;
    }
    Ok(map)
}

// What drives have that start so in an offload of these files.
fn maps_of(
    rt: &impl Abort,
    alloc: Global,
    files: &[File],
    starts: &[Start],
    part: Option<Part>,
) -> Result<Vec<MemMap>, Fail> {
    let mut maps = Vec::new(alloc);
    for start in starts {
        maps.push(map_of(rt, alloc, files, *start, part)?)?;
    }
    Ok(maps)
}

// Whether a run passes over a drive that starts so.
fn is_passed(start: Start) -> bool {
    matches!(start, Start::Gone | Start::Sealed)
}

// Fails unless a drive was not called.
fn expect_uncalled(rt: &impl Abort, alloc: Global, bay: &MemBay, d: usize) -> Result<(), Fail> {
    let drive = format!(in alloc; "{d} ")?;
    let calls = calls(alloc, bay, &drive)?;
    expect_text(rt, &calls, "");
    Ok(())
}

// Fails unless no drive was called that was gone or sealed before.
fn expect_passed(
    rt: &impl Abort,
    alloc: Global,
    starts: &[Start],
    bay: &MemBay,
) -> Result<(), Fail> {
    for d in 0..starts.len() {
        if is_passed(starts[d]) {
            expect_uncalled(rt, alloc, bay, d)?;
        }
    }
    Ok(())
}

// The bay of the run of a row, which came to its end so, and called no drive that was gone or sealed before.
pub fn run_row(rt: &impl Abort, alloc: Global, row: Row) -> Result<MemBay, Fail>
    ensures { IfOk result IsReady }
{
    let (files, starts, part, copies, failing, told, calls) = row;
    let maps = maps_of(rt, alloc, files, starts, part)?;
    let (run, bay) = offload_from(rt, alloc, files, starts, maps, copies, failing)?;
    expect_end(rt, alloc, &run, &bay, told, calls)?;
    expect_passed(rt, alloc, starts, &bay)?;
    Ok(bay)
}

const EMPTY: [File; 1] = [("e.mov", 0)];

const ONE_DRIVE: &str = "begun 0 0 2
done 0 1 2 a.mov
done 0 2 2 b.mov
sealed 0 2 A001_2014-10-24_120000.mhl
clear 1 1
Finished | 0 | -";

const TWO_DRIVES: &str = "begun 0 0 2
begun 1 0 2
done 0 1 2 a.mov
done 1 1 2 a.mov
done 0 2 2 b.mov
done 1 2 2 b.mov
sealed 0 2 A001_2014-10-24_120000.mhl
sealed 1 2 A001_2014-10-24_120000.mhl
clear 2 2
Finished | 01 | -";

const NOT_CLEAR: &str = "begun 0 0 1
done 0 1 1 a.mov
sealed 0 1 A001_2014-10-24_120000.mhl
Finished | 0 | -";

const NONE_LEFT: &str = "dropped 0 fault
NoDrive | - | 0";

const CARD_FAILED: &str = "begun 0 0 1
SourceFailed | - | -";

// The second of two drives is lost as it is begun.
const NOT_BEGUN: &str = "begun 0 0 1
dropped 1 fault
done 0 1 1 a.mov
sealed 0 1 A001_2014-10-24_120000.mhl
clear 1 1
Finished | 0 | 1";

// The second of three drives is lost by its block, and two are required, or three.
const SECOND_LOST: &str = "begun 0 0 1
begun 1 0 1
begun 2 0 1
dropped 1 fault
done 0 1 1 a.mov
done 2 1 1 a.mov
sealed 0 1 A001_2014-10-24_120000.mhl
sealed 2 1 A001_2014-10-24_120000.mhl
clear 2 2
Finished | 02 | 1";

const ONE_TOO_FEW: &str = "begun 0 0 1
begun 1 0 1
begun 2 0 1
dropped 1 fault
done 0 1 1 a.mov
done 2 1 1 a.mov
sealed 0 1 A001_2014-10-24_120000.mhl
sealed 2 1 A001_2014-10-24_120000.mhl
Finished | 02 | 1";

const ALL_GONE: &str = "NoDrive | - | -";

const SECOND_RECORDS: &str = "begun 1 0 1
done 1 1 1 a.mov
sealed 1 1 A001_2014-10-24_120000.mhl
clear 1 1
Finished | 1 | -";

const SECOND_SEALED: &str = "sealed 1 1 A001_2014-10-24_120000.mhl
Finished | 1 | -";

const FIRST_SEALED: &str = "sealed 0 1 A001_2014-10-24_120000.mhl
clear 1 1
Finished | 0 | -";

const BOTH_SEALED: &str = "sealed 0 1 A001_2014-10-24_120000.mhl
sealed 1 1 A001_2014-10-24_120000.mhl
clear 2 2
Finished | 01 | -";

const SEALED_UNSAID: &str = "sealed 0 1 A001_2014-10-24_120000.mhl (not said)
OutFailed | 0 | -";

const FIRST_LOST: &str = "dropped 0 fault
sealed 1 1 A001_2014-10-24_120000.mhl
clear 1 1
Finished | 1 | 0";

const BEGUN_UNSAID: &str = "begun 0 1 1 (not said)
OutFailed | - | -";

const LONGER: &str = "begun 0 0 1
dropped 0 length 3 4 a.mov
NoDrive | - | 0";

const LONGER_UNSAID: &str = "begun 0 0 1
dropped 0 length 3 4 a.mov (not said)
OutFailed | - | 0";

const ABSENT: &str = "begun 0 0 1
dropped 0 absent e.mov
NoDrive | - | 0";

const ABSENT_UNSAID: &str = "begun 0 0 1
dropped 0 absent e.mov (not said)
OutFailed | - | 0";

const GONE: Start = Start::Gone;

const SEALED: Start = Start::Sealed;

const HAS_RECORD: Start = Start::Begun(1, false);

const HAS_PART: Start = Start::Begun(0, true);

const ABCD: Option<Part> = Some((4, 0, 0));

// A drive is begun by 7 calls. The copy of the first file makes 2 of the card and 2 for each drive, that of the empty one 1
// and 1; to be recorded they take 9 and 8. A list makes 8 calls and one for each file, with its line, and the last line is
// one more.
const ROWS: [Row; 22] = [
    // Fresh drives, of which one may be lost by a call that fails.
    (&TWO, &FRESH, None, 1, &[], ONE_DRIVE, 41),
    (&TWO, &TWO_FRESH, None, 2, &[], TWO_DRIVES, 78),
    (&ONE, &FRESH, None, 0, &[], NOT_CLEAR, 29),
    (&ONE, &FRESH, None, 2, &[], NOT_CLEAR, 29),
    (&TWO, &FRESH, None, 1, &[4], NONE_LEFT, 5),
    (&ONE, &FRESH, None, 1, &[9], CARD_FAILED, 9),
    (&ONE, &TWO_FRESH, None, 1, &[8], NOT_BEGUN, 32),
    (&ONE, &THREE_FRESH, None, 2, &[27], SECOND_LOST, 67),
    (&ONE, &THREE_FRESH, None, 3, &[27], ONE_TOO_FEW, 66),
    // Two drives, of which some are sealed or gone, or have a record.
    (&ONE, &[GONE, GONE], None, 1, &[], ALL_GONE, 0),
    (
        &ONE,
        &[GONE, Start::Fresh],
        None,
        1,
        &[],
        SECOND_RECORDS,
        30,
    ),
    (&ONE, &[GONE, SEALED], None, 2, &[], SECOND_SEALED, 1),
    (&ONE, &[SEALED, GONE], None, 1, &[], FIRST_SEALED, 2),
    (&ONE, &[SEALED, SEALED], None, 2, &[], BOTH_SEALED, 3),
    (&ONE, &[SEALED, SEALED], None, 2, &[1], SEALED_UNSAID, 1),
    (&ONE, &[Start::Fresh, SEALED], None, 1, &[4], FIRST_LOST, 7),
    (&ONE, &[HAS_RECORD, GONE], None, 1, &[1], NONE_LEFT, 2),
    (&ONE, &[HAS_RECORD, GONE], None, 1, &[3], BEGUN_UNSAID, 3),
    // A kept part that is longer than its file, or absent. The drive goes on by 3 calls. The part that is longer agrees as
    // far as the file goes, and is read back; the absent one of an empty file is neither written nor compared.
    (&ONE, &[HAS_PART], ABCD, 1, &[], LONGER, 10),
    (&ONE, &[HAS_PART], ABCD, 1, &[10], LONGER_UNSAID, 10),
    (&EMPTY, &[HAS_PART], None, 1, &[], ABSENT, 7),
    (&EMPTY, &[HAS_PART], None, 1, &[7], ABSENT_UNSAID, 7),
];

#[test]
fn runs_come_to_their_ends(rt: HostRuntime) -> Result<(), Fail> {
    for row in ROWS {
        let _bay = run_row(&rt, rt.alloc(), row)?;
    }
    Ok(())
}
