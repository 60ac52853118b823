ghost use Rattle.std.specs.Prelude.{IfOk, IfSome};
ghost use Rattle.copy_plan.specs.Plan.{IsSourceList};

use super::*;
use path_text::{Kinds, Label, Moment, PathText, has_one_part, is_control};
use std::alloc::Global;
use std::process::Abort;
use std::test::Fail;

// 2014-10-24T12:00:00Z.
const NOON: u64 = 1_414_152_000;

// The same day at midnight.
const MIDNIGHT: u64 = 1_414_108_800;

// The code of the plan of the empty file e.mov, with all kinds and no source list.
const SHORT: &[u8; 58] = b"MHLPLAN1\0\0\0\0\x54\x4a\x3f\x40\
    \x04A001\x03ana\x05cart1\
    \0\0\0\x01\
    \0\x05e.mov\0\0\0\0\0\0\0\0\0\0\0\0\x54\x49\x96\x80";

// The same plan with md5 alone.
const WITH_MD5: &[u8; 61] = b"MHLPLAN2\0\0\0\0\x54\x4a\x3f\x40\
    \x04A001\x03ana\x05cart1\
    \x01\0\0\0\0\0\x01\
    \0\x05e.mov\0\0\0\0\0\0\0\0\0\0\0\0\x54\x49\x96\x80";

// The same plan with all kinds and the source list x.mhl.
const WITH_LIST: &[u8; 66] = b"MHLPLAN2\0\0\0\0\x54\x4a\x3f\x40\
    \x04A001\x03ana\x05cart1\
    \x07\0\x05x.mhl\0\0\0\x01\
    \0\x05e.mov\0\0\0\0\0\0\0\0\0\0\0\0\x54\x49\x96\x80";

// A plan of e.mov: whether it shows all kinds or md5 alone, its source list, and its code.
type Row = (bool, Option<&'static str>, &'static [u8]);

const ROWS: [Row; 3] = [
    (true, None, SHORT),
    (false, None, WITH_MD5),
    (true, Some("x.mhl"), WITH_LIST),
];

fn source_of(rt: &impl Abort, alloc: Global, text: Option<&str>) -> Result<Option<PathText>, Fail>
    ensures { IfOk result (λ source. IfSome source IsSourceList) }
{
    let Some(text) = text else {
        return Ok(None);
    };
    let path = PathText::read(alloc, text)?;
    assert_eq!(rt; path.as_str(), text);
    assert!(rt; has_one_part(&path));
    assert!(rt; !is_control(&path));
    Ok(Some(path))
}

fn inventory(alloc: Global) -> Result<Inventory, Fail> {
    let mut files = Vec::new(alloc);
    files.push(PlannedFile {
        path: PathText::read(alloc, "e.mov")?,
        size: 0,
        modified: Moment::new(MIDNIGHT).ok_or("a moment")?,
    })?;
    Ok(Inventory::build(files)?)
}

fn plan(rt: &impl Abort, alloc: Global, all: bool, source: Option<&str>) -> Result<Plan, Fail> {
    let source_list = source_of(rt, alloc, source)?;
    let kinds = Kinds {
        md5: true,
        sha1: all,
        xxh: all,
    };
    Ok(Plan::make(
        alloc,
        Label::read("A001")?,
        Label::read("ana")?,
        Label::read("cart1")?,
        Moment::new(NOON).ok_or("a moment")?,
        kinds,
        source_list,
        inventory(alloc)?,
    )?)
}

#[test]
fn writes_the_codes_of_plans(rt: HostRuntime) -> Result<(), Fail> {
    for (all, source, code) in ROWS {
        let plan = plan(&rt, rt.alloc(), all, source)?;
        assert_eq!(rt; encoded_len(&plan), code.len() as u64);
        assert_eq!(rt; encode(rt.alloc(), &plan)?.as_slice(), code);
    }
    Ok(())
}

// Fails unless this is the plan of e.mov with these kinds and this source list.
fn expect_plan(rt: &impl Abort, plan: &Plan, all: bool, source: Option<&str>) {
    assert_eq!(rt; plan.name().as_str(), "A001");
    assert_eq!(rt; plan.user().as_str(), "ana");
    assert_eq!(rt; plan.host().as_str(), "cart1");
    assert_eq!(rt; plan.started().seconds(), NOON);
    assert!(rt; plan.kinds().md5);
    assert_eq!(rt; (plan.kinds().sha1, plan.kinds().xxh), (all, all));
    match (plan.source_list(), source) {
        (Some(list), Some(text)) => assert_eq!(rt; list.as_str(), text),
        (None, None) => {}
        _ => panic!(rt; "another source list"),
    }
    assert_eq!(rt; plan.list().as_str(), "A001_2014-10-24_120000.mhl");
    assert_eq!(rt; plan.files().len(), 1);
    let file = &plan.files()[0];
    assert_eq!(rt; file.path.as_str(), "e.mov");
    assert_eq!(rt; file.size, 0);
    assert_eq!(rt; file.modified.seconds(), MIDNIGHT);
}

#[test]
fn reads_plans_whatever_follows(rt: HostRuntime) -> Result<(), Fail> {
    for (all, source, code) in ROWS {
        let mut bytes = code.to_vec(rt.alloc())?;
        for _ in 0..4 {
            let decoded = decode(rt.alloc(), &bytes)?;
            assert_eq!(rt; decoded.used, code.len());
            expect_plan(&rt, &decoded.plan, all, source);
            bytes.push(b'M')?;
        }
    }
    Ok(())
}

// Fails unless the bytes go wrong at this place.
fn expect_fault(rt: &impl Abort, alloc: Global, bytes: &[u8], at: u64) {
    let fault = decode(alloc, bytes).err();
    assert_eq!(rt; fault, Some(PlanError::NotAPlan { at }), "at {bytes:?}");
}

// The place of the first field of the short code that so many bytes do not hold whole.
fn place_of_cut(len: usize) -> u64 {
    match len {
        0..=7 => 0,
        8..=15 => 8,
        16..=20 => 16,
        21..=24 => 21,
        25..=30 => 25,
        31..=34 => 31,
        _ => 35,
    }
}

#[test]
fn refuses_a_cut_code(rt: HostRuntime) {
    for len in 0..58 {
        expect_fault(&rt, rt.alloc(), &SHORT[..len], place_of_cut(len));
    }
}

#[test]
fn refuses_a_changed_byte(rt: HostRuntime) -> Result<(), Fail> {
    // The code, which byte is changed and to what, and the place of the fault.
    let table: [(&[u8], usize, u8, u64); 17] = [
        (SHORT, 7, b'3', 0),
        (SHORT, 7, b'2', 31),
        (SHORT, 8, 1, 8),
        (SHORT, 16, 0, 16),
        (SHORT, 17, b'/', 16),
        (SHORT, 22, b'/', 21),
        (SHORT, 26, b'/', 25),
        (SHORT, 34, 0, 31),
        (SHORT, 32, 4, 31),
        (SHORT, 34, 2, 58),
        (SHORT, 37, b'/', 35),
        (SHORT, 43, 1, 35),
        (SHORT, 50, 1, 35),
        (WITH_MD5, 31, 0, 31),
        (WITH_MD5, 31, 8, 31),
        (WITH_MD5, 31, 7, 32),
        (WITH_LIST, 35, b'/', 32),
    ];
    for (code, which, byte, at) in table {
        let mut bytes = code.to_vec(rt.alloc())?;
        *bytes.get_mut(which).ok_or("a byte")? = byte;
        expect_fault(&rt, rt.alloc(), &bytes, at);
    }
    Ok(())
}

// A code of the same plan with these files in this order, each empty and of the first moment.
fn code_of(alloc: Global, paths: &[&str]) -> Result<Vec<u8>, Fail> {
    let mut code = SHORT[..34].to_vec(alloc)?;
    code.push(u8::try_from(paths.len())?)?;
    for path in paths {
        code.push(0)?;
        code.push(u8::try_from(path.len())?)?;
        code.extend_from_slice(path.as_bytes())?;
        code.extend_from_slice(&[0; 16])?;
    }
    Ok(code)
}

#[test]
fn refuses_a_file_that_may_not_follow(rt: HostRuntime) -> Result<(), Fail> {
    let table: [(&[&str], u64); 7] = [
        (&["b", "a"], 54),
        (&["a", "a"], 54),
        (&["a", "a-", "a/b"], 74),
        (&[".mhlstation"], 35),
        (&[".mhlstation/x"], 35),
        (&["A001_2014-10-24_120000.mhl"], 35),
        (&["A", "A001_2014-10-24_120000.mhl/x"], 54),
    ];
    for (paths, at) in table {
        let code = code_of(rt.alloc(), paths)?;
        expect_fault(&rt, rt.alloc(), &code, at);
    }
    let code = code_of(rt.alloc(), &["a", "a-", "b"])?;
    assert_eq!(rt; decode(rt.alloc(), &code)?.used, 93);
    Ok(())
}
