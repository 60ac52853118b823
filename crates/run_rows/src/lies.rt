// Bytes that a drive shows falsely, files that are shorter or longer than they are listed, and files of which a source list
// records other digests.
ghost use Rattle.std.specs.Prelude.{◌≡◌, IfOk};
ghost use Rattle.run_rows.specs.Ready.{IsReady};

use crate::cards::{File, JOURNAL, LIST, NEW, ONE, PART, TWO, bay, fail_calls, file_in, left_on};
use crate::orders::{FRESH, Start, THREE_FRESH, TWO_FRESH, offload, order};
use crate::telling::{count, expect_end, expect_number};
use bay_mem::MemBay;
use drive_journal::{Listed, Order};
use offload_run::Offload;
use run_state::Outcome;
use std::alloc::Global;
use std::process::Abort;
use std::test::Fail;

// The lines of a run with its end behind them, how many calls it made that can fail, and how many bytes the journal, the file
// a.mov and the list of drive 0 have then: none where they are not there.
type Came = (&'static str, usize, [usize; 3]);

// Turns the run of an order to its end. Fails unless that comes so.
fn offload_so(
    rt: &impl Abort,
    alloc: Global,
    bay: &mut MemBay,
    order: Order,
    came: Came,
) -> Result<Offload, Fail>
    requires card { order.source ≡ 0 }
    requires devices { IsReady bay.old }
{
    let (told, calls, sizes) = came;
    let run = offload(rt, alloc, bay, order)?;
    expect_end(rt, alloc, &run, bay, told, calls)?;
    let left = left_on(bay, 0)?;
    for (path, size) in [JOURNAL, "a.mov", LIST].iter().zip(sizes) {
        expect_number(rt, file_in(&left, path).len(), size);
    }
    Ok(run)
}

// ---- a byte that a drive shows falsely

// Drive 0 shows the first byte of its part as 0x60. The digests of abc, and of the bytes 0x60, 0x62, 0x63, as `md5sum` and
// `sha1sum` print them, and XXH64 by its definition (docs/FORMATS.md, "Digests").
const ALTERED: &str = "begun 0 0 1
dropped 0 altered 900150983cd24fb0d6963f7d28e17f72 a9993e364706816aba3e25717850c26c9cd0d89d 44bc2cf5ad770999 1b353c2437eabaca223937973c684474 885e43e86d71878441d4f5bbb98feba890c007be 4e23cb2c634e9432 a.mov
NoDrive | - | 0";

const ALTERED_UNSAID: &str = "begun 0 0 1
dropped 0 altered 900150983cd24fb0d6963f7d28e17f72 a9993e364706816aba3e25717850c26c9cd0d89d 44bc2cf5ad770999 1b353c2437eabaca223937973c684474 885e43e86d71878441d4f5bbb98feba890c007be 4e23cb2c634e9432 a.mov (not said)
OutFailed | - | 0";

const ALTERED_OF_TWO: &str = "begun 0 0 1
begun 1 0 1
dropped 0 altered 900150983cd24fb0d6963f7d28e17f72 a9993e364706816aba3e25717850c26c9cd0d89d 44bc2cf5ad770999 1b353c2437eabaca223937973c684474 885e43e86d71878441d4f5bbb98feba890c007be 4e23cb2c634e9432 a.mov
done 1 1 1 a.mov
sealed 1 1 A001_2014-10-24_120000.mhl
clear 1 1
Finished | 1 | 0";

// Drive 0 shows the first byte of its list, `<`, as `=`.
const BYTE: &str = "begun 0 0 1
done 0 1 1 a.mov
dropped 0 byte 0 60 61 A001_2014-10-24_120000.mhl
NoDrive | - | 0";

const BYTE_UNSAID: &str = "begun 0 0 1
done 0 1 1 a.mov
dropped 0 byte 0 60 61 A001_2014-10-24_120000.mhl (not said)
OutFailed | - | 0";

// Drive 0 shows the h of the first `<hash>` as i: it stands at 310, behind the 307 bytes of the head.
const BYTE_OF_TWO: &str = "begun 0 0 1
begun 1 0 1
done 0 1 1 a.mov
done 1 1 1 a.mov
dropped 0 byte 310 104 105 A001_2014-10-24_120000.mhl
sealed 1 1 A001_2014-10-24_120000.mhl
clear 1 1
Finished | 1 | 0";

// The drives, and of drive 0 the byte that is shown falsely; the call that fails, which says the line of the loss, or none;
// and what comes of the run. A drive that is lost by its part has a journal with no record.
const FLIPS: [(&[Start], &str, u64, &[u64], Came); 6] = [
    (&FRESH, PART, 0, &[], (ALTERED, 15, [59, 0, 0])),
    (&FRESH, PART, 0, &[15], (ALTERED_UNSAID, 15, [59, 0, 0])),
    (&TWO_FRESH, PART, 0, &[], (ALTERED_OF_TWO, 43, [59, 0, 0])),
    (&FRESH, NEW, 0, &[], (BYTE, 26, [124, 3, 0])),
    (&FRESH, NEW, 0, &[26], (BYTE_UNSAID, 26, [124, 3, 0])),
    (&TWO_FRESH, NEW, 310, &[], (BYTE_OF_TWO, 54, [124, 3, 0])),
];

// A bay with the file abc, of whose drive 0 this byte is shown falsely.
fn flipped(alloc: Global, path: &str, at: u64) -> Result<MemBay, Fail>
    ensures { IfOk result IsReady }
{
    let mut bay = bay(alloc, &ONE, Vec::new(alloc))?;
    bay.flip(0, path, at)?;
    Ok(bay)
}

#[test]
fn a_byte_is_shown_falsely(rt: HostRuntime) -> Result<(), Fail> {
    let alloc = rt.alloc();
    for (starts, path, at, failing, came) in FLIPS {
        let mut bay = flipped(alloc, path, at)?;
        fail_calls(&mut bay, failing)?;
        let order = order(alloc, &ONE, starts, 1, 16, None)?;
        let _run = offload_so(&rt, alloc, &mut bay, order, came)?;
    }
    Ok(())
}

// ---- files of another length

const FOUR_NOT_3: &str = "begun 0 0 1
Changed 0 4 3 | - | -";

const TWO_NOT_3: &str = "begun 0 0 1
Changed 0 2 3 | - | -";

const NONE_NOT_1: &str = "begun 0 0 1
Changed 0 0 1 | - | -";

const THREE_NOT_0: &str = "begun 0 0 1
Changed 0 3 0 | - | -";

const SHORT_BLOCK: &str = "begun 0 0 1
Changed 0 65537 65536 | - | -";

const LONG_BLOCK: &str = "begun 0 0 1
Changed 0 65536 65537 | - | -";

const ON_THREE: &str = "begun 0 0 1
begun 1 0 1
begun 2 0 1
Changed 0 4 3 | - | -";

// The first of two files is recorded on two drives.
const SECOND_EMPTY: &str = "begun 0 0 2
begun 1 0 2
done 0 1 2 a.mov
done 1 1 2 a.mov
Changed 1 1 0 | - | -";

const A_0: &[File] = &[("a.mov", 0)];

const A_2: &[File] = &[("a.mov", 2)];

const A_3: &[File] = &[("a.mov", 3)];

const A_4: &[File] = &[("a.mov", 4)];

const BLOCK: &[File] = &[("a.mov", 65_536)];

const BLOCK_1: &[File] = &[("a.mov", 65_537)];

const TWO_1: &[File] = &[("a.mov", 3), ("b.mov", 1)];

// What the card has, what it lists, how many bytes a read gives at most, the drives, and what comes of the run. A drive is
// begun by 7 calls and has its empty piece by one. A read of a block that gives too few bytes is followed by one that gives
// none. A file that is too long is known by the byte at its size, when each drive has all its blocks. Two drives have the
// first of two files by 38 calls.
const LENGTHS: [(&[File], &[File], usize, &[Start], Came); 9] = [
    (A_3, A_4, 9, &FRESH, (FOUR_NOT_3, 10, [59, 0, 0])),
    (A_3, A_4, 1, &FRESH, (FOUR_NOT_3, 12, [59, 0, 0])),
    (A_3, A_2, 9, &FRESH, (TWO_NOT_3, 11, [59, 0, 0])),
    (A_3, A_0, 9, &FRESH, (NONE_NOT_1, 9, [59, 0, 0])),
    (A_0, A_3, 9, &FRESH, (THREE_NOT_0, 9, [59, 0, 0])),
    (
        BLOCK,
        BLOCK_1,
        65_536,
        &FRESH,
        (SHORT_BLOCK, 11, [59, 0, 0]),
    ),
    (BLOCK_1, BLOCK, 65_536, &FRESH, (LONG_BLOCK, 11, [59, 0, 0])),
    (A_3, A_4, 9, &THREE_FRESH, (ON_THREE, 26, [59, 0, 0])),
    (&TWO, TWO_1, 9, &TWO_FRESH, (SECOND_EMPTY, 41, [147, 3, 0])),
];

// A bay whose card has these files and lists those, and whose reads give so many bytes at most.
fn lying(alloc: Global, has: &[File], lists: &[File], cut: usize) -> Result<MemBay, Fail>
    ensures { IfOk result IsReady }
{
    let mut bay = bay(alloc, has, Vec::new(alloc))?;
    bay.cut_reads(cut.max(1));
    for (path, size) in lists {
        bay.list_as(0, path, *size)?;
    }
    Ok(bay)
}

#[test]
fn a_file_of_another_length_ends_the_run(rt: HostRuntime) -> Result<(), Fail> {
    let alloc = rt.alloc();
    for (has, lists, cut, starts, came) in LENGTHS {
        let mut bay = lying(alloc, has, lists, cut)?;
        let order = order(alloc, lists, starts, 1, 16, None)?;
        let _run = offload_so(&rt, alloc, &mut bay, order, came)?;
    }
    Ok(())
}

// ---- recorded digests

// The digests of abc, as `md5sum` and `sha1sum` print them, and XXH64 by its definition (docs/FORMATS.md, "Digests").
const MD5: [u8; 16] = *b"\x90\x01\x50\x98\x3c\xd2\x4f\xb0\xd6\x96\x3f\x7d\x28\xe1\x7f\x72";

const SHA1: [u8; 20] =
    *b"\xa9\x99\x3e\x36\x47\x06\x81\x6a\xba\x3e\x25\x71\x78\x50\xc2\x6c\x9c\xd0\xd8\x9d";

const XXH: [u8; 8] = *b"\x44\xbc\x2c\xf5\xad\x77\x09\x99";

// Each with its last bit turned.
const MD5_TURNED: [u8; 16] = *b"\x90\x01\x50\x98\x3c\xd2\x4f\xb0\xd6\x96\x3f\x7d\x28\xe1\x7f\x73";

const SHA1_TURNED: [u8; 20] =
    *b"\xa9\x99\x3e\x36\x47\x06\x81\x6a\xba\x3e\x25\x71\x78\x50\xc2\x6c\x9c\xd0\xd8\x9c";

const XXH_TURNED: [u8; 8] = *b"\x44\xbc\x2c\xf5\xad\x77\x09\x98";

const NOTHING: Listed = Listed {
    md5: None,
    sha1: None,
    xxh: None,
};

const RECORDED: &str = "begun 0 0 1
done 0 1 1 a.mov
sealed 0 1 A001_2014-10-24_120000.mhl
clear 1 1
Finished | 0 | -";

// The run goes on: the clock is asked for the file and for the list, and the list has a head of 307 bytes, an entry of 329
// and a tail of 12.
const AGREES: (usize, Came) = (2, (RECORDED, 30, [124, 3, 648]));

// The run is ended before the moment of the file. Seven calls begin the drive; an empty piece, the block read and written, and
// the byte at the size asked for.
const DIFFERS: (usize, Came) = (0, (FIRST_ALTERED, 11, [59, 0, 0]));

const FIRST_ALTERED: &str = "begun 0 0 1
Altered 0 | - | -";

// The first of two files is recorded on two drives.
const SECOND_ALTERED: &str = "begun 0 0 2
begun 1 0 2
done 0 1 2 a.mov
done 1 1 2 a.mov
Altered 1 | - | -";

// What is recorded of abc, how often the clock is asked, and what comes of the run.
const RECORDS: [(
    Option<[u8; 16]>,
    Option<[u8; 20]>,
    Option<[u8; 8]>,
    (usize, Came),
); 11] = [
    (None, None, None, AGREES),
    (Some(MD5), Some(SHA1), Some(XXH), AGREES),
    (Some(MD5), None, None, AGREES),
    (None, Some(SHA1), None, AGREES),
    (None, None, Some(XXH), AGREES),
    (Some(MD5_TURNED), Some(SHA1), Some(XXH), DIFFERS),
    (Some(MD5), Some(SHA1_TURNED), Some(XXH), DIFFERS),
    (Some(MD5), Some(SHA1), Some(XXH_TURNED), DIFFERS),
    (Some(MD5_TURNED), None, None, DIFFERS),
    (None, Some(SHA1_TURNED), None, DIFFERS),
    (None, None, Some(XXH_TURNED), DIFFERS),
];

// Turns the run of these files to its end, where this is recorded of each. Fails unless that comes so.
fn offload_listed(
    rt: &impl Abort,
    alloc: Global,
    files: &[File],
    starts: &[Start],
    listed: &[Listed],
    came: (usize, Came),
) -> Result<Outcome, Fail> {
    let (moments, came) = came;
    let mut bay = bay(alloc, files, Vec::new(alloc))?;
    let order = order(alloc, files, starts, 1, 16, Some(listed))?;
    let run = offload_so(rt, alloc, &mut bay, order, came)?;
    expect_number(rt, count(alloc, &bay, "moment")?, moments);
    Ok(run.outcome())
}

// Fails unless an outcome that tells other digests tells what is listed, and those of abc.
fn expect_told(rt: &impl Abort, outcome: Outcome, listed: Listed) {
    if let Outcome::Altered {
        listed: told,
        read,
        ..
    } = outcome
    {
        assert!(rt; told.md5 == listed.md5 && told.sha1 == listed.sha1 && told.xxh == listed.xxh);
        assert!(rt; read.md5 == MD5 && read.sha1 == SHA1 && read.xxh == XXH);
    }
}

#[test]
fn recorded_digests_agree_or_end_the_run(rt: HostRuntime) -> Result<(), Fail> {
    for (md5, sha1, xxh, came) in RECORDS {
        let listed = Listed { md5, sha1, xxh };
        let outcome = offload_listed(&rt, rt.alloc(), &ONE, &FRESH, &[listed], came)?;
        expect_told(&rt, outcome, listed);
    }
    Ok(())
}

#[test]
fn another_digest_of_the_second_file_ends_the_run(rt: HostRuntime) -> Result<(), Fail> {
    let second = Listed {
        md5: Some(MD5),
        sha1: None,
        xxh: None,
    };
    // The first file is recorded on both drives by 38 calls; two empty pieces, and the byte at the size asked for.
    let came = (1, (SECOND_ALTERED, 41, [147, 3, 0]));
    let _outcome = offload_listed(&rt, rt.alloc(), &TWO, &TWO_FRESH, &[NOTHING, second], came)?;
    Ok(())
}
