ghost use Rattle.std.specs.Prelude.{◌≡◌, ◌<◌, IfOk};
ghost use Rattle.bay_mem.specs.State.{world_of};

use crate::steps::Change::{Remove, Rename, Sync, Write};
use crate::steps::OnCard::{CardList, CardRead};
use crate::steps::OnDrive::{Changed, DriveList, DriveRead};
use crate::steps::Setting::{Clock, CutReads, FailCall, Flip, ListAs, Picks, Place, Source};
use crate::steps::Step::{Card, Drive, Moment, OnCard, OnDrive, Pick, Say, Set, Told};
use crate::steps::{Change, Files, Step, kind, make, map_of, play};
use bay_core::{Bay, Failed};
use bay_mem::{MemBay, MemMap};
use std::alloc::{AllocError, Global};
use std::process::Abort;
use std::test::Fail;

const NO_FILES: Files = &[];

const NO_NUMBERS: &[u32] = &[];

// The drive place D, which has `a` = abc, and the card place C, which has `a` = abcde and `b` = x.
const D: Step = Set(Place("D", &[("a", "abc")]));

const C: Step = Set(Source("C", &[("b", "x"), ("a", "abcde")]));

// A bay with these two places.
fn two_places(alloc: Global) -> Result<MemBay, AllocError>
    ensures drives { IfOk result (λ bay. (world_of bay.seen).attached.drives ≡ 0) }
    ensures cards { IfOk result (λ bay. (world_of bay.seen).attached.sources ≡ 0) }
{
    let mut bay = MemBay::new(alloc);
    bay.add_drive("D", map_of(alloc, &[("a", "abc")])?)?;
    bay.add_source("C", map_of(alloc, &[("b", "x"), ("a", "abcde")])?)?;
    Ok(bay)
}

// The same bay with drive 0 attached from D.
fn one_drive(alloc: Global) -> Result<MemBay, Fail>
    ensures { IfOk result (λ bay. 0 < (world_of bay.seen).attached.drives) }
{
    let mut bay = two_places(alloc)?;
    bay.attach_drive("D")?;
    Ok(bay)
}

// Fails unless a map has these files and no others.
fn expect_files(rt: &impl Abort, map: &MemMap, files: &[(&str, &str)]) {
    assert_eq!(rt; map.len(), files.len());
    assert_eq!(rt; map.is_empty(), files.is_empty());
    for (path, bytes) in files {
        let Some(got) = map.get(path) else {
            panic!(rt; "no file {path}");
        };
        assert_eq!(rt; got, bytes.as_bytes(), "{path}");
    }
}

#[test]
fn files_are_kept_by_path(rt: HostRuntime) -> Result<(), Fail> {
    let alloc = rt.alloc();
    expect_files(&rt, &MemMap::new(alloc), NO_FILES);
    let mut map = map_of(alloc, &[("b/c.mov", ""), ("a.mov", "old")])?;
    map.add("a.mov", b"abcde", 200)?;
    expect_files(&rt, &map, &[("a.mov", "abcde"), ("b/c.mov", "")]);
    assert!(rt; map.get("c.mov").is_none());
    Ok(())
}

// The bytes XY at 1 of `a`.
const XY: Change = Write("a", 1, b"XY");

const A_TO_B: Change = Rename("a", "b");

// What a stop leaves of the drive after these changes and the first `upto` calls, of which the attach is one.
fn left(alloc: Global, changes: &[Change], upto: usize, choice: &[u32]) -> Result<MemMap, Fail> {
    let mut bay = one_drive(alloc)?;
    for change in changes {
        make(&mut bay, 0, change)?;
    }
    Ok(bay.image(0, upto, choice)?)
}

const CHOICES: &[(&[Change], &[u32], Files)] = &[
    (&[XY], &[0], &[("a", "abc")]),
    (&[XY], NO_NUMBERS, &[("a", "abc")]),
    (&[XY], &[1], &[("a", "aXY")]),
    (&[XY], &[23], &[("a", "a\u{7}\u{7}")]),
    (&[XY, Sync], NO_NUMBERS, &[("a", "aXY")]),
    (&[XY, Sync], &[0], &[("a", "aXY")]),
    (&[XY, Sync], &[1], &[("a", "aXY")]),
    (&[XY, Sync], &[23], &[("a", "aXY")]),
    (&[Remove("a"), Remove("z")], &[0, 1], &[("a", "abc")]),
    (&[Remove("a"), Remove("z")], &[1, 1], NO_FILES),
    (&[A_TO_B], &[0], &[("a", "abc")]),
    (&[A_TO_B], &[1], &[("b", "abc")]),
    (&[A_TO_B], &[2], &[("a", "abc"), ("b", "abc")]),
    (&[A_TO_B, Sync], &[2], &[("b", "abc")]),
];

#[test]
fn a_stop_leaves_what_was_chosen(rt: HostRuntime) -> Result<(), Fail> {
    for (changes, choice, files) in CHOICES {
        let map = left(rt.alloc(), changes, usize::MAX, choice)?;
        expect_files(&rt, &map, files);
    }
    Ok(())
}

const STOPS: &[(usize, Files)] = &[
    (0, &[("a", "abc")]),
    (1, &[("a", "abc")]),
    (2, &[("a", "aXY")]),
    (3, &[("b", "aXY")]),
    (4, &[("b", "aXY")]),
    (usize::MAX, &[("b", "aXY")]),
];

#[test]
fn a_stop_comes_after_some_calls(rt: HostRuntime) -> Result<(), Fail> {
    for (upto, files) in STOPS {
        let map = left(rt.alloc(), &[XY, A_TO_B], *upto, &[1, 1])?;
        expect_files(&rt, &map, files);
    }
    Ok(())
}

const CARDS_AND_DRIVES_ARE_READ: &[Step] = &[
    D,
    C,
    Card("C", Ok(0)),
    Drive("D", Ok(0)),
    OnCard(0, CardList("a 5 100;b 1 100;")),
    OnCard(0, CardRead("a", 2, Ok(3), b"cde\x07")),
    OnDrive(0, DriveList("a 3 100;")),
    OnDrive(0, DriveRead("a", 1, Ok(Some(2)), b"bc\x07\x07")),
    OnDrive(0, DriveRead("b", 1, Ok(None), &[7; 4])),
    Told(
        7,
        "AttachSource AttachDrive SourceList SourceRead DriveList DriveRead DriveRead ",
    ),
];

#[test]
fn cards_and_drives_are_read(rt: HostRuntime) -> Result<(), Fail> {
    play(&rt, rt.alloc(), CARDS_AND_DRIVES_ARE_READ)
}

const A_DRIVE_IS_CHANGED: &[Step] = &[
    D,
    C,
    Drive("D", Ok(0)),
    Set(Clock(1_414_152_000)),
    OnDrive(0, Changed(Write("n/b", 1, b"XY"), Ok(()))),
    OnDrive(0, Changed(Sync, Ok(()))),
    OnDrive(0, Changed(Rename("n/b", "c"), Ok(()))),
    OnDrive(0, Changed(Remove("a"), Ok(()))),
    Told(5, "AttachDrive Write Sync Rename Remove "),
    OnDrive(0, DriveList("c 3 1414152000;")),
    OnDrive(0, DriveRead("c", 0, Ok(Some(3)), b"\0XY\x07")),
];

#[test]
fn a_drive_is_changed(rt: HostRuntime) -> Result<(), Fail> {
    play(&rt, rt.alloc(), A_DRIVE_IS_CHANGED)
}

const OTHER_CALLS_ARE_ANSWERED: &[Step] = &[
    Set(Clock(1_414_152_000)),
    Moment(1_414_152_000),
    Pick(0),
    Say(b"hi", Ok(())),
    Told(3, "Moment Pick Say "),
];

#[test]
fn other_calls_are_answered(rt: HostRuntime) -> Result<(), Fail> {
    play(&rt, rt.alloc(), OTHER_CALLS_ARE_ANSWERED)
}

// One call of each kind, up to the first that fails. Those of the clock and the picker cannot fail.
fn run(alloc: Global, bay: &mut MemBay) -> Result<(), Failed>
    requires drives { (world_of bay.old.seen).attached.drives ≡ 0 }
    requires cards { (world_of bay.old.seen).attached.sources ≡ 0 }
{
    let mut into = [0; 4];
    let s = bay.attach_source("C")?;
    bay.moment();
    let d = bay.attach_drive("D")?;
    bay.pick();
    let Ok(_) = bay.source_list(alloc, s) else {
        return Err(Failed);
    };
    bay.source_read(s, "a", 0, &mut into)?;
    let Ok(_) = bay.drive_list(alloc, d) else {
        return Err(Failed);
    };
    bay.drive_read(d, "a", 0, &mut into)?;
    bay.write(d, "b", 0, b"XY")?;
    bay.sync(d)?;
    bay.rename(d, "b", "c")?;
    bay.remove(d, "c")?;
    bay.say(b"hi")
}

// A run fails at its n-th call that can fail: so many calls are told before it, and it is of this kind.
fn expect_failed(
    rt: &impl Abort,
    alloc: Global,
    n: u64,
    count: usize,
    name: &str,
) -> Result<(), Fail> {
    let mut bay = two_places(alloc)?;
    bay.fail_call(n)?;
    assert_eq!(rt; run(alloc, &mut bay), Err(Failed), "{n}");
    let Some((last, before)) = bay.events().split_last() else {
        panic!(rt; "no call of {n}");
    };
    assert_eq!(rt; kind(last), (name, true));
    assert_eq!(rt; before.len(), count);
    assert!(rt; before.iter().all(|event| !kind(event).1), "{n}");
    assert_eq!(rt; bay.refused(), 0);
    Ok(())
}

#[test]
fn calls_fail_by_number(rt: HostRuntime) -> Result<(), Fail> {
    // The number of the call that is to fail, how many calls are told before it, and its kind.
    let rows = [
        (1, 0, "Attach"),
        (2, 2, "Attach"),
        (3, 4, "SourceList"),
        (4, 5, "SourceRead"),
        (5, 6, "DriveList"),
        (6, 7, "DriveRead"),
        (7, 8, "Write"),
        (8, 9, "Sync"),
        (9, 10, "Rename"),
        (10, 11, "Remove"),
        (11, 12, "Say"),
    ];
    for (n, count, name) in rows {
        expect_failed(&rt, rt.alloc(), n, count, name)?;
    }
    Ok(())
}

const LATER_CALLS_FAIL_BY_NUMBER: &[Step] = &[
    D,
    C,
    Set(FailCall(12)),
    Set(FailCall(13)),
    Card("C", Ok(0)),
    Moment(0),
    Drive("D", Ok(0)),
    Pick(0),
    OnCard(0, CardList("a 5 100;b 1 100;")),
    OnCard(0, CardRead("a", 0, Ok(4), b"abcd")),
    OnDrive(0, DriveList("a 3 100;")),
    OnDrive(0, DriveRead("a", 0, Ok(Some(3)), b"abc\x07")),
    OnDrive(0, Changed(Write("b", 0, b"XY"), Ok(()))),
    OnDrive(0, Changed(Sync, Ok(()))),
    OnDrive(0, Changed(Rename("b", "c"), Ok(()))),
    OnDrive(0, Changed(Remove("c"), Ok(()))),
    Say(b"hi", Ok(())),
    Told(
        13,
        "AttachSource Moment AttachDrive Pick SourceList SourceRead DriveList DriveRead Write Sync Rename Remove Say ",
    ),
    Say(b"hi", Err(Failed)),
    Say(b"hi", Err(Failed)),
    Say(b"hi", Ok(())),
    Told(
        16,
        "AttachSource Moment AttachDrive Pick SourceList SourceRead DriveList DriveRead Write Sync Rename Remove Say Say! Say! Say ",
    ),
];

#[test]
fn later_calls_fail_by_number(rt: HostRuntime) -> Result<(), Fail> {
    play(&rt, rt.alloc(), LATER_CALLS_FAIL_BY_NUMBER)
}

const READS_ARE_CUT: &[Step] = &[
    D,
    C,
    Card("C", Ok(0)),
    Drive("C", Ok(0)),
    Set(CutReads(2)),
    OnCard(0, CardRead("a", 0, Ok(2), b"ab\x07\x07\x07")),
    OnDrive(0, DriveRead("a", 0, Ok(Some(2)), b"ab\x07\x07\x07")),
    OnCard(0, CardRead("a", 2, Ok(2), b"cd\x07\x07\x07")),
    OnDrive(0, DriveRead("a", 2, Ok(Some(2)), b"cd\x07\x07\x07")),
    OnCard(0, CardRead("a", 4, Ok(1), b"e\x07\x07\x07\x07")),
    OnDrive(0, DriveRead("a", 4, Ok(Some(1)), b"e\x07\x07\x07\x07")),
    OnCard(0, CardRead("a", 5, Ok(0), &[7; 5])),
    OnDrive(0, DriveRead("a", 5, Ok(Some(0)), &[7; 5])),
    OnCard(0, CardRead("a", 6, Ok(0), &[7; 5])),
    OnDrive(0, DriveRead("a", 6, Ok(Some(0)), &[7; 5])),
];

#[test]
fn reads_are_cut(rt: HostRuntime) -> Result<(), Fail> {
    play(&rt, rt.alloc(), READS_ARE_CUT)
}

const PICKS_GO_ROUND: &[Step] = &[
    Pick(0),
    Set(Picks(&[3, 5])),
    Pick(3),
    Pick(5),
    Pick(3),
    Pick(5),
    Pick(3),
    Set(Picks(&[8])),
    Pick(8),
    Pick(8),
    Set(Picks(NO_NUMBERS)),
    Pick(0),
    Pick(0),
];

#[test]
fn picks_go_round(rt: HostRuntime) -> Result<(), Fail> {
    play(&rt, rt.alloc(), PICKS_GO_ROUND)
}

const THE_CLOCK_IS_SET: &[Step] = &[
    Moment(0),
    Set(Clock(253_402_300_799)),
    Moment(253_402_300_799),
    Moment(253_402_300_799),
];

#[test]
fn the_clock_is_set(rt: HostRuntime) -> Result<(), Fail> {
    play(&rt, rt.alloc(), THE_CLOCK_IS_SET)
}

const A_PLACE_IS_ATTACHED_AGAIN: &[Step] = &[
    D,
    C,
    Drive("D", Ok(0)),
    Drive("D", Ok(1)),
    OnDrive(1, DriveRead("a", 0, Ok(Some(3)), b"abc\x07")),
    OnDrive(1, Changed(Write("a", 1, b"XY"), Ok(()))),
    Drive("D", Ok(2)),
    OnDrive(2, DriveRead("a", 0, Ok(Some(3)), b"aXY\x07")),
    OnDrive(2, Changed(Write("a", 0, b"Z"), Ok(()))),
    OnDrive(0, DriveRead("a", 0, Ok(Some(3)), b"abc\x07")),
    OnDrive(1, DriveRead("a", 0, Ok(Some(3)), b"aXY\x07")),
    OnDrive(2, DriveRead("a", 0, Ok(Some(3)), b"ZXY\x07")),
];

#[test]
fn a_place_is_attached_again(rt: HostRuntime) -> Result<(), Fail> {
    play(&rt, rt.alloc(), A_PLACE_IS_ATTACHED_AGAIN)
}

const CARDS_AND_DRIVES_SHARE_THEIR_PLACES: &[Step] = &[
    D,
    C,
    Set(Place("C", &[("a", "later")])),
    Drive("C", Ok(0)),
    OnDrive(0, DriveRead("a", 0, Ok(Some(5)), b"later\x07\x07\x07")),
    OnDrive(0, Changed(Write("a", 3, b"XYZ"), Ok(()))),
    Set(Source("C", &[("a", "last")])),
    Card("C", Ok(0)),
    OnCard(0, CardRead("a", 0, Ok(6), b"latXYZ\x07\x07")),
];

#[test]
fn cards_and_drives_share_their_places(rt: HostRuntime) -> Result<(), Fail> {
    play(&rt, rt.alloc(), CARDS_AND_DRIVES_SHARE_THEIR_PLACES)
}

const A_FLIPPED_BYTE_IS_SHOWN: &[Step] = &[
    // b is 0x62 and c is 0x63.
    D,
    C,
    Set(Flip(0, "a", 1)),
    Drive("C", Ok(0)),
    OnDrive(0, DriveRead("a", 0, Ok(Some(5)), b"accde")),
    OnDrive(0, DriveRead("a", 1, Ok(Some(4)), b"ccde\x07")),
    OnDrive(0, DriveRead("a", 2, Ok(Some(3)), b"cde\x07\x07")),
    OnDrive(0, DriveRead("b", 0, Ok(Some(1)), b"x\x07\x07\x07\x07")),
];

#[test]
fn a_flipped_byte_is_shown(rt: HostRuntime) -> Result<(), Fail> {
    play(&rt, rt.alloc(), A_FLIPPED_BYTE_IS_SHOWN)
}

const A_CARD_LISTS_ANOTHER_SIZE: &[Step] = &[
    D,
    C,
    Set(ListAs(0, "a", 9)),
    Card("C", Ok(0)),
    Card("C", Ok(1)),
    OnCard(0, CardList("a 9 100;b 1 100;")),
    OnCard(1, CardList("a 5 100;b 1 100;")),
];

#[test]
fn a_card_lists_another_size(rt: HostRuntime) -> Result<(), Fail> {
    play(&rt, rt.alloc(), A_CARD_LISTS_ANOTHER_SIZE)
}

const ABSENT_PLACES_FAIL: &[Step] = &[
    D,
    C,
    Card("E", Err(Failed)),
    Drive("E", Err(Failed)),
    Told(2, "Attach! Attach! "),
];

#[test]
fn absent_places_fail(rt: HostRuntime) -> Result<(), Fail> {
    play(&rt, rt.alloc(), ABSENT_PLACES_FAIL)
}

const ABSENT_FILES_OF_A_CARD_FAIL: &[Step] = &[
    D,
    C,
    Card("C", Ok(0)),
    OnCard(0, CardRead("z", 0, Err(Failed), &[7; 4])),
    Told(2, "AttachSource SourceRead! "),
];

#[test]
fn absent_files_of_a_card_fail(rt: HostRuntime) -> Result<(), Fail> {
    play(&rt, rt.alloc(), ABSENT_FILES_OF_A_CARD_FAIL)
}

const ABSENT_FILES_OF_A_DRIVE_FAIL_TO_BE_RENAMED: &[Step] = &[
    D,
    C,
    Drive("D", Ok(0)),
    OnDrive(0, Changed(Remove("z"), Ok(()))),
    OnDrive(0, Changed(Rename("z", "a"), Err(Failed))),
    OnDrive(0, DriveRead("a", 0, Ok(Some(3)), b"abc\x07")),
    Told(4, "AttachDrive Remove Rename! DriveRead "),
];

#[test]
fn absent_files_of_a_drive_fail_to_be_renamed(rt: HostRuntime) -> Result<(), Fail> {
    play(&rt, rt.alloc(), ABSENT_FILES_OF_A_DRIVE_FAIL_TO_BE_RENAMED)
}
