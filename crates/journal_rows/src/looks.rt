ghost use Rattle.std.specs.Prelude.{◌<◌, IfOk};
ghost use Rattle.bay_mem.specs.State.{world_of};

use bay_core::Bay;
use bay_mem::{MemBay, MemMap};
use digest_set::unhex_into;
use drive_journal::{LookError, State, look};
use std::alloc::Global;
use std::test::Fail;

// The journal of a plan of one empty file, e.mov, with its record (docs/FORMATS.md, "The journal").
const DIGITS: &[u8; 248] = b"4d484c504c414e3100000000544a3f40\
    044130303103616e61056361726431\
    00000001\
    0005652e6d6f7600000000000000000000000054499680\
    01\
    000000000000000000000000\
    d41d8cd98f00b204e9800998ecf8427e\
    da39a3ee5e6b4b0d3255bfef95601890afd80709\
    ef46db3751d8e999\
    00000000544a3f40\
    00";

const JOURNAL: &str = ".mhlstation/journal";

// The list of that plan.
const LIST: &str = "A001_2014-10-24_120000.mhl";

// What a look found, in short.
#[derive(Clone, Copy, Debug, PartialEq, Eq)]
enum Found {
    Fresh,
    Begun { records: usize, at: u64, index: u32 },
    Sealed { records: usize },
    Refused(LookError),
}

// The bytes of that journal.
fn worked() -> Result<[u8; 124], Fail> {
    let mut bytes = [0; 124];
    if !unhex_into(DIGITS, &mut bytes) {
        return Err("no digits".into());
    }
    Ok(bytes)
}

// A bay with drive 0, which has these bytes at its journal and an empty file at this path. No read gives more than 50
// bytes.
fn drive_with(alloc: Global, journal: Option<&[u8]>, other: &str) -> Result<MemBay, Fail>
    ensures { IfOk result (λ bay. 0 < (world_of bay.seen).attached.drives) }
{
    let mut map = MemMap::new(alloc);
    if let Some(bytes) = journal {
        map.add(JOURNAL, bytes, 0)?;
    }
    map.add(other, b"", 0)?;
    let mut bay = MemBay::new(alloc);
    bay.add_drive("D", map)?;
    bay.cut_reads(50);
    bay.attach_drive("D")?;
    Ok(bay)
}

// What a look at such a drive finds.
fn look_at(alloc: Global, journal: Option<&[u8]>, other: &str) -> Result<Found, Fail> {
    let mut bay = drive_with(alloc, journal, other)?;
    Ok(match look(alloc, &mut bay, 0) {
        Ok(look) => in_short(&look.state),
        Err(e) => Found::Refused(e),
    })
}

fn in_short(state: &State) -> Found {
    match state {
        State::Fresh => Found::Fresh,
        State::Begun { entries, gate, .. } => Found::Begun {
            records: entries.len(),
            at: gate.at,
            index: gate.index,
        },
        State::Sealed { entries, .. } => Found::Sealed {
            records: entries.len(),
        },
    }
}

fn refused(at: u64) -> Found {
    Found::Refused(LookError::NotAJournal { at })
}

#[test]
fn a_look_finds_how_far_a_drive_has_come(rt: HostRuntime) -> Result<(), Fail> {
    let alloc = rt.alloc();
    let full = worked()?;
    let mut closed = full;
    closed[58] = 0;
    let mut open = full;
    open[123] = 1;
    let mut numbered = full;
    numbered[62] = 1;
    let mut sized = full;
    sized[70] = 1;
    let mut dated = full;
    dated[115] = 1;
    let none = Found::Begun {
        records: 0,
        at: 58,
        index: 0,
    };
    let one = Found::Begun {
        records: 1,
        at: 123,
        index: 1,
    };
    // The journal, another file, and what is found.
    let rows: [(Option<&[u8]>, &str, Found); 10] = [
        (None, LIST, Found::Fresh),
        (Some(&closed), "a.mov", none),
        (Some(&closed), LIST, none),
        (Some(&full), "a.mov", one),
        (Some(&full), LIST, Found::Sealed { records: 1 }),
        (Some(&open), LIST, refused(123)),
        (Some(&numbered), LIST, refused(59)),
        (Some(&sized), LIST, refused(59)),
        (Some(&dated), LIST, refused(59)),
        (Some(b"MHLPLAN3"), LIST, refused(0)),
    ];
    for (journal, other, wanted) in rows {
        assert_eq!(rt; look_at(alloc, journal, other)?, wanted);
    }
    Ok(())
}

// Where that journal goes wrong when it is cut to this length.
fn fault(length: usize) -> u64 {
    match length {
        0..=7 => 0,
        8..=15 => 8,
        16..=20 => 16,
        21..=24 => 21,
        25..=30 => 25,
        31..=34 => 31,
        35..=57 => 35,
        58 => 58,
        59..=122 => 59,
        _ => 123,
    }
}

#[test]
fn a_journal_that_is_cut_is_refused(rt: HostRuntime) -> Result<(), Fail> {
    let alloc = rt.alloc();
    let full = worked()?;
    for length in 0..124 {
        let wanted = refused(fault(length));
        assert_eq!(rt;
            look_at(alloc, Some(&full[..length]), LIST)?,
            wanted,
            "{length}"
        );
    }
    Ok(())
}
