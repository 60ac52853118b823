// Runs that are refused, and change nothing.
ghost use Rattle.offload_rows.specs.Bare.{IsBare};

use crate::bays::{
    Files, JOURNAL, LIST, NONE, ONE, ONE_DRIVE, TWO, bare_bay, bay_of, count_effects, dated_bay,
    told,
};
use bay_core::Event;
use bay_mem::MemBay;
use std::alloc::Global;
use std::test::Fail;

const TWO_DRIVES: &str = "offload A001 ana@cart1 1 card d0 d1";

// What a run says that changes nothing. Fails where it changes something.
fn refused(alloc: Global, bay: MemBay, line: &str) -> Result<String, Fail>
    requires { IsBare bay }
{
    let (bay, text) = told(alloc, bay, line)?;
    if count_effects(&bay) > 0 {
        return Err("a drive was changed".into());
    }
    Ok(text)
}

// Cards that have no inventory, and what is said.
const CARDS: [(Files, &str); 9] = [
    (NONE, "refused emptycard\n3"),
    (&[("a", b""), ("a/b", b"")], "refused clash a\nwith a/b\n3"),
    (&[("a\nb", b"")], "refused badpath 0 badchar 1\n3"),
    (&[("a//b", b"")], "refused badpath 0 emptypart 2\n3"),
    (&[("/a", b"")], "refused badpath 0 absolute\n3"),
    (
        &[("a", b""), ("b/../c", b"")],
        "refused badpath 1 dotpart 2\n3",
    ),
    (
        &[(".mhlstation/x", b"")],
        "refused control .mhlstation/x\n3",
    ),
    (
        &[("A001_2014-10-24_120000.mhl/x", b"")],
        "refused clash A001_2014-10-24_120000.mhl\nwith A001_2014-10-24_120000.mhl/x\n3",
    ),
    (
        &[(LIST, b"")],
        "refused clash A001_2014-10-24_120000.mhl\nwith A001_2014-10-24_120000.mhl\n3",
    ),
];

#[test]
fn a_card_has_no_inventory(rt: HostRuntime) -> Result<(), Fail> {
    let alloc = rt.alloc();
    for (card, wanted) in CARDS {
        let bay = bare_bay(alloc, card)?;
        assert_eq!(rt; refused(alloc, bay, ONE_DRIVE)?.as_str(), wanted);
    }
    Ok(())
}

#[test]
fn a_file_was_changed_after_the_last_moment(rt: HostRuntime) -> Result<(), Fail> {
    let alloc = rt.alloc();
    let bay = dated_bay(alloc, ONE, 253_402_300_800)?;
    assert_eq!(rt;
        refused(alloc, bay, ONE_DRIVE)?.as_str(),
        "refused baddate a.mov\n3"
    );
    Ok(())
}

// A journal of no record, by a plan of one file (docs/FORMATS.md, "The journal").
const BEGUN: &[u8] =
    b"MHLPLAN1\0\0\0\0TJ?@\x04A001\x03ana\x05cart1\0\0\0\x01\0\x05e.mov\0\0\0\0\0\0\0\0\0\0\0\0TI\x96\x80\0";

// The files of the first drive and of the second, and what is said. The first refusal is that of the first drive with a
// journal; what is in the way comes behind all looks.
const DRIVES: [(Files, Files, &str); 9] = [
    (&[("b.mov", b"")], NONE, "refused occupied 0 b.mov\n3"),
    (NONE, &[("a.mov/x", b"")], "refused occupied 1 a.mov\n3"),
    (
        NONE,
        &[(LIST, b"")],
        "refused occupied 1 A001_2014-10-24_120000.mhl\n3",
    ),
    (
        &[(LIST, b""), ("b.mov", b"")],
        NONE,
        "refused occupied 0 b.mov\n3",
    ),
    (&[(JOURNAL, BEGUN)], NONE, "refused begun 0\n3"),
    (&[("a.mov", b"")], &[(JOURNAL, BEGUN)], "refused begun 1\n3"),
    (FOREIGN, NONE, "refused notajournal 0 0\n3"),
    (NONE, &[(JOURNAL, b"")], "refused notajournal 1 0\n3"),
    (&[(JOURNAL, BEGUN)], &[(JOURNAL, b"")], "refused begun 0\n3"),
];

// A journal that is none of ours.
const FOREIGN: Files = &[(JOURNAL, b"XXXXXXXX")];

#[test]
fn something_lies_on_a_drive(rt: HostRuntime) -> Result<(), Fail> {
    let alloc = rt.alloc();
    for (first, second, wanted) in DRIVES {
        let bay = bay_of(alloc, TWO, first, second)?;
        assert_eq!(rt; refused(alloc, bay, TWO_DRIVES)?.as_str(), wanted);
    }
    Ok(())
}

#[test]
fn the_card_is_refused_before_a_drive_is_looked_at(rt: HostRuntime) -> Result<(), Fail> {
    let alloc = rt.alloc();
    let bay = bay_of(alloc, NONE, FOREIGN, NONE)?;
    let (bay, text) = told(alloc, bay, ONE_DRIVE)?;
    assert_eq!(rt; text.as_str(), "refused emptycard\n3");
    let looks = bay
        .events()
        .iter()
        .filter(|event| matches!(event, Event::DriveList { .. }))
        .count();
    assert_eq!(rt; looks, 0);
    Ok(())
}

#[test]
fn a_refusal_that_is_not_said_has_the_status_5(rt: HostRuntime) -> Result<(), Fail> {
    let alloc = rt.alloc();
    // The card and the drive are attached, and the card is listed; then the two lines are said.
    let rows = [
        (4, "refused clash a (not said)\n5"),
        (5, "refused clash a\nwith a/b (not said)\n5"),
    ];
    for (call, wanted) in rows {
        let mut bay = bare_bay(alloc, &[("a", b""), ("a/b", b"")])?;
        bay.fail_call(call)?;
        assert_eq!(rt; refused(alloc, bay, ONE_DRIVE)?.as_str(), wanted);
    }
    Ok(())
}

#[test]
fn words_are_refused(rt: HostRuntime) -> Result<(), Fail> {
    let alloc = rt.alloc();
    let rows = [
        "",
        "offload",
        "offload A001 ana@cart1 0 card d0",
        "offload A001 ana@cart1 3 card d0 d1",
        "offload A001 ana@cart1 1 card d0 d0",
        "offload A001 ana@cart1 1 card card",
        "offload A001 ana@cart1 1 card 1 2 3 4 5 6 7 8 9",
        "offload A001 ana@cart1 1 card ",
        "offload A001 ana@cart1 1:xxh+md5 card d0",
        "resume 1 card d0",
    ];
    for words in rows {
        let bay = bare_bay(alloc, TWO)?;
        let (bay, text) = told(alloc, bay, words)?;
        assert_eq!(rt; text.as_str(), "refused words\n2");
        assert_eq!(rt; bay.events().len(), 1);
    }
    Ok(())
}
