// Files of a card in memory are copied to one, two or three drives in memory.
ghost use Rattle.std.specs.Prelude.{◌≡◌, ℕ, ◌<◌, ◌≤◌, true, false, IfOk};
ghost use Rattle.bay_mem.specs.State.{world_of};
ghost use Rattle.fan_core.specs.Flags.{has};

use crate::copying::copy_whole;
use bay_core::{Bay, Event};
use bay_mem::{MemBay, MemMap};
use block_pool::Pool;
use digest_set::{Fan, Triple, triple_of};
use fan_copier::{FileCopy, Turn};
use fan_core::Drives;
use path_text::PathText;
use std::alloc::{AllocError, Global};
use std::process::Abort;
use std::test::Fail;

const FILE: &str = "a.mov";

const PART: &str = ".mhlstation/part";

// The bytes of a file: byte j is 1 + j mod 250, but 0 from one place up to another.
fn bytes(alloc: Global, len: u32, from: u32, to: u32) -> Result<Vec<u8>, AllocError> {
    let mut bytes = Vec::with_capacity(alloc, len as usize)?;
    for j in 0..len {
        let byte = if from <= j && j < to { 0 } else { 1 + j % 250 };
        bytes.push(byte as u8)?;
    }
    Ok(bytes)
}

fn triple(bytes: &[u8]) -> Triple {
    let mut fan = Fan::start();
    fan.feed(bytes);
    triple_of(fan)
}

// A bay with a card that has this file, and three drives, of which the first may have a part.
fn attached(alloc: Global, file: &[u8], part: Option<&[u8]>) -> Result<MemBay, Fail>
    ensures card { IfOk result (λ bay. 0 < (world_of bay.seen).attached.sources) }
    ensures drives { IfOk result (λ bay. 3 ≤ (world_of bay.seen).attached.drives) }
{
    let mut card = MemMap::new(alloc);
    card.add(FILE, file, 0)?;
    let mut first = MemMap::new(alloc);
    if let Some(part) = part {
        first.add(PART, part, 0)?;
    }
    let mut bay = MemBay::new(alloc);
    bay.add_source("C", card)?;
    bay.add_drive("D", first)?;
    bay.add_drive("E", MemMap::new(alloc))?;
    bay.attach_source("C")?;
    bay.attach_drive("D")?;
    bay.attach_drive("E")?;
    bay.attach_drive("E")?;
    Ok(bay)
}

// The same, where another file of each drive shows a byte flipped. Such drives are not honest, so that a copy may begin
// whatever parts they have.
fn bay_with(alloc: Global, file: &[u8], part: Option<&[u8]>) -> Result<MemBay, Fail>
    ensures card { IfOk result (λ bay. 0 < (world_of bay.seen).attached.sources) }
    ensures drives { IfOk result (λ bay. 3 ≤ (world_of bay.seen).attached.drives) }
    ensures doubted { IfOk result (λ bay. (d : ℕ) → d < 3 → (world_of bay.seen).attached.honest d ≡ false) }
{
    let mut bay = attached(alloc, file, part)?;
    bay.flip(0, "b.mov", 0)?;
    bay.flip(1, "b.mov", 0)?;
    bay.flip(2, "b.mov", 0)?;
    Ok(bay)
}

// The first two drives, the first alone, or all three.
fn drives(n: u32) -> Drives
    ensures first { has result 0 ≡ true }
    ensures few { (d : ℕ) → has result d ≡ true → d < 3 }
{
    let one = Drives::none().with(0);
    match n {
        1 => one,
        2 => one.with(1),
        _ => one.with(1).with(2),
    }
}

// The first drive, or none.
fn kept(keeps: bool) -> Drives
    ensures { (d : ℕ) → has result d ≡ true → d ≡ 0 }
{
    if keeps {
        Drives::none().with(0)
    } else {
        Drives::none()
    }
}

// What a copy of the file to the first drives came to, and which of them were not dropped.
fn copy_to(
    rt: &impl Abort,
    alloc: Global,
    bay: &mut MemBay,
    listed: u32,
    n: u32,
    keeps: bool,
) -> Result<(Turn, Drives), Fail>
    requires card { 0 < (world_of bay.old.seen).attached.sources }
    requires drives { 3 ≤ (world_of bay.old.seen).attached.drives }
    requires doubted { (d : ℕ) → d < 3 → (world_of bay.old.seen).attached.honest d ≡ false }
    ensures { 3 ≤ (world_of bay.new.seen).attached.drives }
{
    let path = PathText::read(alloc, FILE)?;
    let mut pool = Pool::new(alloc, 17)?;
    let compare = pool.take().ok_or("a block is free")?;
    let mut copy = FileCopy::begin(0, u64::from(listed), drives(n), kept(keeps), 16);
    let came = copy_whole(&mut copy, bay, &mut pool, &compare, &path);
    let live = copy.live();
    copy.end(&mut pool);
    assert_eq!(rt; pool.free(), 16);
    Ok((came, live))
}

// Whether a drive's part has just these bytes.
fn has_part(bay: &mut MemBay, d: u32, bytes: &[u8]) -> Result<bool, Fail>
    requires { d < (world_of bay.old.seen).attached.drives }
    ensures { (world_of bay.new.seen).attached ≡ (world_of bay.old.seen).attached }
{
    bay.sync(d)?;
    let left = bay.image(d, usize::MAX, &[])?;
    match left.get(PART) {
        Some(got) => Ok(got == bytes),
        None => Ok(false),
    }
}

// Which drives have a part of just these bytes.
fn parts(bay: &mut MemBay, bytes: &[u8]) -> Result<[bool; 3], Fail>
    requires { 3 ≤ (world_of bay.old.seen).attached.drives }
{
    let first = has_part(bay, 0, bytes)?;
    let second = has_part(bay, 1, bytes)?;
    let third = has_part(bay, 2, bytes)?;
    Ok([first, second, third])
}

// Where the writes on a drive began.
fn writes(alloc: Global, bay: &MemBay, drive: u32) -> Result<Vec<u64>, AllocError> {
    let mut places = Vec::new(alloc);
    for event in bay.events() {
        match event {
            Event::Write { d, at, .. } if *d == drive => places.push(*at)?,
            _ => {}
        }
    }
    Ok(places)
}

// Fails unless a file of this size is copied whole to the first drives, where each read gives so many bytes at most.
fn expect_whole(rt: &impl Abort, alloc: Global, size: u32, n: u32, cut: usize) -> Result<(), Fail>
    requires { 1 ≤ cut }
{
    let file = bytes(alloc, size, 0, 0)?;
    let mut bay = bay_with(alloc, &file, None)?;
    bay.cut_reads(cut);
    let (came, live) = copy_to(rt, alloc, &mut bay, size, n, false)?;
    let triple = triple(&file);
    assert_eq!(rt; came, Turn::Copied { triple }, "{size} to {n}");
    assert_eq!(rt; live, drives(n));
    assert_eq!(rt;
        parts(&mut bay, &file)?,
        [true, n > 1, n > 2],
        "{size} to {n}"
    );
    Ok(())
}

#[test]
fn a_file_is_copied_whole_to_each_drive(rt: HostRuntime) -> Result<(), Fail> {
    let alloc = rt.alloc();
    // The last is twenty blocks and a byte.
    for size in [0, 1, 65_535, 65_536, 65_537, 1_310_721] {
        for n in 1..=3 {
            expect_whole(&rt, alloc, size, n, usize::MAX)?;
            expect_whole(&rt, alloc, size, n, 40_000)?;
        }
    }
    Ok(())
}

#[test]
fn the_picks_do_not_change_the_parts(rt: HostRuntime) -> Result<(), Fail> {
    let alloc = rt.alloc();
    let file = bytes(alloc, 1_310_721, 0, 0)?;
    for picks in [[0, 0, 0, 0], [2, 0, 1, 1]] {
        let mut bay = bay_with(alloc, &file, None)?;
        bay.picks(picks.to_vec(alloc)?);
        let (came, live) = copy_to(&rt, alloc, &mut bay, 1_310_721, 3, false)?;
        let triple = triple(&file);
        assert_eq!(rt; came, Turn::Copied { triple });
        assert_eq!(rt; live, drives(3));
        assert_eq!(rt; parts(&mut bay, &file)?, [true; 3]);
    }
    Ok(())
}

// Fails unless a copy of two blocks to the first drives goes on without the drive whose call this is, or ends where it
// is the card's.
fn expect_fault(
    rt: &impl Abort,
    alloc: Global,
    n: u32,
    call: u64,
    failing: Option<u32>,
) -> Result<(), Fail> {
    let file = bytes(alloc, 65_537, 0, 0)?;
    let triple = triple(&file);
    let mut bay = bay_with(alloc, &file, None)?;
    bay.fail_call(call)?;
    let (came, live) = copy_to(rt, alloc, &mut bay, 65_537, n, false)?;
    match failing {
        Some(d) if n == 1 => {
            assert_eq!(rt; came, Turn::NoDrive, "at {call}");
            assert_eq!(rt; live, drives(1).without(d));
        }
        Some(d) => {
            assert_eq!(rt; came, Turn::Copied { triple }, "at {call}");
            assert_eq!(rt; live, drives(2).without(d));
            assert_eq!(rt;
                parts(&mut bay, &file)?,
                [d != 0, d != 1, false],
                "at {call}"
            );
        }
        None => {
            assert_eq!(rt; came, Turn::SourceFailed, "at {call}");
            assert_eq!(rt; live, drives(n));
        }
    }
    Ok(())
}

#[test]
fn a_drive_that_fails_is_dropped(rt: HostRuntime) -> Result<(), Fail> {
    let alloc = rt.alloc();
    // The drive of each call, none where it is the card's. Each pick is 0: drive 0 gets each block as soon as it is read,
    // and drive 1 then gets both.
    let calls = [
        Some(0),
        Some(1),
        None,
        Some(0),
        None,
        Some(0),
        Some(1),
        Some(1),
        None,
    ];
    for (call, failing) in (1..).zip(calls) {
        expect_fault(&rt, alloc, 2, call, failing)?;
    }
    let calls = [Some(0), None, Some(0), None, Some(0), None];
    for (call, failing) in (1..).zip(calls) {
        expect_fault(&rt, alloc, 1, call, failing)?;
    }
    Ok(())
}

#[test]
fn a_file_of_another_length_is_told(rt: HostRuntime) -> Result<(), Fail> {
    let alloc = rt.alloc();
    for (size, listed) in [(1, 0), (1, 2), (65_536, 65_535), (65_536, 65_537)] {
        let file = bytes(alloc, size, 0, 0)?;
        let mut bay = bay_with(alloc, &file, None)?;
        let (came, _) = copy_to(&rt, alloc, &mut bay, listed, 2, false)?;
        let changed = Turn::Changed {
            listed: u64::from(listed),
            read: u64::from(size),
        };
        assert_eq!(rt; came, changed);
    }
    Ok(())
}

// Fails unless a copy of two whole blocks, where the first drive keeps this part, makes these writes on it.
fn expect_mended(
    rt: &impl Abort,
    alloc: Global,
    part: &[u8],
    cut: usize,
    wanted: &[u64],
) -> Result<(), Fail>
    requires { 1 ≤ cut }
{
    let file = bytes(alloc, 131_072, 0, 0)?;
    let triple = triple(&file);
    let mut bay = bay_with(alloc, &file, Some(part))?;
    bay.cut_reads(cut);
    let (came, live) = copy_to(rt, alloc, &mut bay, 131_072, 2, true)?;
    assert_eq!(rt; came, Turn::Copied { triple });
    assert_eq!(rt; live, drives(2));
    assert_eq!(rt; writes(alloc, &bay, 0)?.as_slice(), wanted);
    assert_eq!(rt;
        writes(alloc, &bay, 1)?.as_slice(),
        [0, 0, 65_536].as_slice()
    );
    assert_eq!(rt;
        parts(&mut bay, &file)?,
        [part.len() <= 131_072, true, false]
    );
    Ok(())
}

#[test]
fn a_kept_part_is_written_where_it_differs(rt: HostRuntime) -> Result<(), Fail> {
    let alloc = rt.alloc();
    // How long the part is, from where and up to where its bytes are 0, and where it is written: from the first block that
    // differs on. The last is longer than the file, so it is none to keep: what lies behind the file is not seen by a copy.
    let rows: [(u32, u32, u32, &[u64]); 6] = [
        (131_072, 0, 0, &[]),
        (65_536, 0, 0, &[65_536]),
        (131_072, 7, 8, &[0, 65_536]),
        (131_072, 131_071, 131_072, &[65_536]),
        (131_072, 0, 131_072, &[0, 65_536]),
        (131_080, 0, 0, &[]),
    ];
    for (len, from, to, wanted) in rows {
        let part = bytes(alloc, len, from, to)?;
        expect_mended(&rt, alloc, &part, usize::MAX, wanted)?;
        expect_mended(&rt, alloc, &part, 40_000, wanted)?;
    }
    Ok(())
}
