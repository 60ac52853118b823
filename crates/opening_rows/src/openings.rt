// Openings over a bay in memory: what is answered, and the lines that are said.
ghost use Rattle.std.specs.Prelude.{◌<◌, ◌≤◌, IfOk};
ghost use Rattle.bay_mem.specs.State.{world_of};

use bay_core::{Bay, Event};
use bay_mem::{MemBay, MemMap};
use copy_plan::{Inventory, Plan, PlannedFile};
use drive_journal::{DriveStart, Order};
use fresh_opening::{FreshError, open_fresh, open_plan};
use path_text::{Kinds, Label, Moment, PathText};
use std::alloc::Global;
use std::test::Fail;

// 2014-10-24T12:00:00Z.
const NOON: u64 = 1_414_152_000;

const LIST: &str = "A001_2014-10-24_120000.mhl";

const JOURNAL: &str = ".mhlstation/journal";

// A journal of no record, by a plan of one file (docs/FORMATS.md, "The journal").
const BEGUN: &[u8; 59] =
    b"MHLPLAN1\0\0\0\0TJ?@\x04A001\x03ana\x05cart1\0\0\0\x01\0\x05e.mov\0\0\0\0\0\0\0\0\0\0\0\0TI\x96\x80\0";

const ALL: Kinds = Kinds {
    md5: true,
    sha1: true,
    xxh: true,
};

// The files of a place, each with its bytes.
type Files<'a> = &'a [(&'a str, &'a [u8])];

// What lies on two drives, which calls fail of those of the opening, and what it answers and says.
#[derive(Drop)]
struct Row<'a> {
    first: Files<'a>,
    second: Files<'a>,
    fails: &'a [u64],
    told: &'a str,
}

fn map_of(alloc: Global, files: Files) -> Result<MemMap, Fail> {
    let mut map = MemMap::new(alloc);
    for (path, bytes) in files {
        map.add(path, bytes, NOON)?;
    }
    Ok(map)
}

// A bay with card 0 and the drives 0 and 1, which have these files.
fn bay_with(alloc: Global, card: Files, first: Files, second: Files) -> Result<MemBay, Fail>
    ensures card { IfOk result (λ bay. 0 < (world_of bay.seen).attached.sources) }
    ensures drives { IfOk result (λ bay. 2 ≤ (world_of bay.seen).attached.drives) }
{
    let mut bay = MemBay::new(alloc);
    bay.add_source("C", map_of(alloc, card)?)?;
    bay.add_drive("D0", map_of(alloc, first)?)?;
    bay.add_drive("D1", map_of(alloc, second)?)?;
    bay.clock(NOON);
    bay.attach_source("C")?;
    bay.attach_drive("D0")?;
    bay.attach_drive("D1")?;
    Ok(bay)
}

// An order in words: its drives, its list and its files.
fn in_words(alloc: Global, order: &Order) -> Result<String, Fail> {
    let mut text = String::new(alloc);
    for drive in &order.drives {
        text.push_str(match drive {
            DriveStart::Gone => "gone ",
            DriveStart::Fresh => "fresh ",
            DriveStart::Begun { .. } => "begun ",
            DriveStart::Sealed { .. } => "sealed ",
        })?;
    }
    text.push_str(order.plan.list().as_str())?;
    for file in order.plan.files() {
        text.push_str(format!(in alloc; " {} {}", file.path.as_str(), file.size)?.as_str())?;
    }
    Ok(text)
}

// What was answered, in words.
fn answer(alloc: Global, answer: &Result<Order, FreshError>) -> Result<String, Fail> {
    let error = match answer {
        Ok(order) => return in_words(alloc, order),
        Err(error) => error,
    };
    let text = match error {
        FreshError::Inventory(cause) => format!(in alloc; "card: {cause}")?,
        FreshError::NotAJournal { d, at } => format!(in alloc; "no journal {d} {at}")?,
        FreshError::AlreadyBegun { d } => format!(in alloc; "begun {d}")?,
        FreshError::NoDrive => String::from_str(alloc, "no drive")?,
        FreshError::Clash { list, path } => {
            format!(in alloc; "clash {} {}", list.as_str(), path.as_str())?
        }
        FreshError::Occupied { d, path } => format!(in alloc; "occupied {d} {}", path.as_str())?,
        FreshError::OutFailed => String::from_str(alloc, "unsaid")?,
        FreshError::Memory => String::from_str(alloc, "memory")?,
    };
    Ok(text)
}

// The answer, and behind it the lines that were said.
fn told(alloc: Global, came: &Result<Order, FreshError>, bay: &MemBay) -> Result<String, Fail> {
    let mut text = answer(alloc, came)?;
    for event in bay.events() {
        if let Event::Say { line, ok } = event {
            text.push_str(if *ok { " | " } else { " | not " })?;
            text.push_str(str::from_utf8(line.as_slice())?)?;
        }
    }
    Ok(text)
}

// What the opening of a card to both drives answers and says.
fn opened(alloc: Global, card: Files, row: &Row) -> Result<String, Fail> {
    let mut bay = bay_with(alloc, card, row.first, row.second)?;
    for call in row.fails {
        bay.fail_call(*call)?;
    }
    let name = Label::read("A001")?;
    let user = Label::read("ana")?;
    let host = Label::read("cart1")?;
    let came = open_fresh(alloc, &mut bay, 0, 2, 1, name, user, host, ALL);
    told(alloc, &came, &bay)
}

const CARD: Files = &[("b/c.mov", b""), ("a.mov", b"abc")];

#[test]
fn a_card_is_opened_to_two_drives(rt: HostRuntime) -> Result<(), Fail> {
    let fresh = "fresh fresh A001_2014-10-24_120000.mhl a.mov 3 b/c.mov 0";
    let lost = "gone fresh A001_2014-10-24_120000.mhl a.mov 3 b/c.mov 0 | dropped 0 fault";
    // The calls are the listing of the card, that of drive 0, that of drive 1; a line comes behind the one that fails.
    let rows = [
        Row {
            first: &[],
            second: &[("x", b"")],
            fails: &[],
            told: fresh,
        },
        Row {
            first: &[("a.mov", b"")],
            second: &[],
            fails: &[2],
            told: lost,
        },
        Row {
            first: &[],
            second: &[],
            fails: &[1],
            told: "card: the card was not listed",
        },
        Row {
            first: &[],
            second: &[],
            fails: &[2, 4],
            told: "no drive | dropped 0 fault | dropped 1 fault",
        },
        Row {
            first: &[],
            second: &[],
            fails: &[2, 3],
            told: "unsaid | not dropped 0 fault",
        },
    ];
    for row in &rows {
        assert_eq!(rt; opened(rt.alloc(), CARD, row)?.as_str(), row.told);
    }
    Ok(())
}

#[test]
fn an_opening_is_refused_by_the_first_cause(rt: HostRuntime) -> Result<(), Fail> {
    let rows = [
        Row {
            first: &[("a.mov", b"")],
            second: &[(JOURNAL, BEGUN)],
            fails: &[],
            told: "begun 1",
        },
        Row {
            first: &[(JOURNAL, b"XXXXXXXX")],
            second: &[(JOURNAL, BEGUN)],
            fails: &[],
            told: "no journal 0 0",
        },
        Row {
            first: &[(JOURNAL, BEGUN)],
            second: &[(JOURNAL, b"")],
            fails: &[],
            told: "begun 0",
        },
        Row {
            first: &[],
            second: &[("a.mov", b"")],
            fails: &[],
            told: "occupied 1 a.mov",
        },
        Row {
            first: &[],
            second: &[("b", b"")],
            fails: &[],
            told: "occupied 1 b/c.mov",
        },
        Row {
            first: &[("b/c.mov/x", b"")],
            second: &[("a.mov", b"")],
            fails: &[],
            told: "occupied 0 b/c.mov",
        },
        Row {
            first: &[],
            second: &[(LIST, b"")],
            fails: &[],
            told: "occupied 1 A001_2014-10-24_120000.mhl",
        },
        Row {
            first: &[(LIST, b""), ("b", b"")],
            second: &[],
            fails: &[],
            told: "occupied 0 b/c.mov",
        },
    ];
    for row in &rows {
        assert_eq!(rt; opened(rt.alloc(), CARD, row)?.as_str(), row.told);
    }
    let begun = Row {
        first: &[(JOURNAL, BEGUN)],
        second: &[],
        fails: &[],
        told: "card: no files",
    };
    assert_eq!(rt; opened(rt.alloc(), &[], &begun)?.as_str(), begun.told);
    let clash = "clash A001_2014-10-24_120000.mhl A001_2014-10-24_120000.mhl/x";
    let other = Row {
        first: &[("A001_2014-10-24_120000.mhl/x", b"")],
        second: &[],
        fails: &[],
        told: clash,
    };
    assert_eq!(rt;
        opened(rt.alloc(), &[("A001_2014-10-24_120000.mhl/x", b"")], &other)?.as_str(),
        clash
    );
    Ok(())
}

// A plan of the file `a.mov` with three bytes.
fn plan(alloc: Global) -> Result<Plan, Fail> {
    let label = Label::read("A001")?;
    let moment = Moment::new(NOON).ok_or("a moment")?;
    let mut files = Vec::new(alloc);
    files.push(PlannedFile {
        path: PathText::read(alloc, "a.mov")?,
        size: 3,
        modified: moment,
    })?;
    let inventory = Inventory::build(files)?;
    let plan = Plan::make(alloc, label, label, label, moment, ALL, None, inventory)?;
    Ok(plan)
}

#[test]
fn a_plan_is_opened_to_the_second_drive_alone(rt: HostRuntime) -> Result<(), Fail> {
    let alloc = rt.alloc();
    let mut bay = bay_with(alloc, CARD, &[("a.mov", b"")], &[])?;
    let came = open_plan(alloc, &mut bay, 0, 1, 1, 1, plan(alloc)?, None);
    let text = told(alloc, &came, &bay)?;
    assert_eq!(rt;
        text.as_str(),
        "gone fresh A001_2014-10-24_120000.mhl a.mov 3"
    );
    // The attaches and one listing.
    assert_eq!(rt; bay.events().len(), 4);
    Ok(())
}
