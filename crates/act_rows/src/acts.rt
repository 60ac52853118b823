// The acts on a drive: each call of a recording fails once, and what a begun drive goes on with.
ghost use Rattle.std.specs.Prelude.{◌<◌, IfOk};
ghost use Rattle.bay_mem.specs.State.{world_of};

use bay_core::Bay;
use bay_mem::{MemBay, MemMap};
use block_pool::Pool;
use digest_set::{Fan, triple_of};
use drive_journal::{Gate, Rec};
use path_text::{Moment, PathText, is_control};
use read_back::ReadBackError;
use recording::{record_file, rejoin_on};
use std::alloc::Global;
use std::process::Abort;
use std::test::Fail;

const ABC: &[u8; 3] = b"abc";

// A bay with drive 0, which has a journal of no record, these bytes in the part, a file that waits for its name, and a file.
fn begun(alloc: Global, part: &[u8]) -> Result<MemBay, Fail>
    ensures { IfOk result (λ bay. 0 < (world_of bay.seen).attached.drives) }
{
    let mut map = MemMap::new(alloc);
    map.add(".mhlstation/journal", b"PLAN\0", 0)?;
    map.add(".mhlstation/part", part, 0)?;
    map.add(".mhlstation/new", b"", 0)?;
    map.add("b.mov", b"b", 0)?;
    let mut bay = MemBay::new(alloc);
    bay.add_drive("D", map)?;
    bay.attach_drive("D")?;
    Ok(bay)
}

// What recording the bytes abc answers on a drive whose part has these, where this call fails; none for 0. The image of
// the drive after it comes beside it.
fn record(
    rt: &impl Abort,
    alloc: Global,
    part: &[u8],
    call: u64,
) -> Result<(Result<Gate, ReadBackError>, MemMap), Fail> {
    let path = PathText::read(alloc, "a.mov")?;
    assert!(rt; !is_control(&path));
    let mut fan = Fan::start();
    fan.feed(ABC);
    let rec = Rec {
        index: 0,
        size: 3,
        triple: triple_of(fan),
        hashed: Moment::new(1_414_152_000).ok_or("a moment")?,
    };
    let mut pool = Pool::new(alloc, 1)?;
    let slot = pool.take().ok_or("a block is free")?;
    let mut bay = begun(alloc, part)?;
    if call > 0 {
        bay.fail_call(call)?;
    }
    let gate = Gate { at: 4, index: 0 };
    let answer = record_file(&mut bay, 0, gate, &path, &rec, &mut pool, &slot);
    let left = bay.image(0, usize::MAX, &[])?;
    Ok((answer, left))
}

#[test]
fn a_recording_fails_at_each_of_its_calls(rt: HostRuntime) -> Result<(), Fail> {
    // A barrier, two reads, the path, the record, a barrier, the gate and a barrier.
    for call in 1..=8 {
        let (answer, _left) = record(&rt, rt.alloc(), ABC, call)?;
        assert!(rt; matches!(answer, Err(ReadBackError::DriveFailed)));
    }
    let (answer, left) = record(&rt, rt.alloc(), ABC, 9)?;
    assert!(rt; answer.is_ok());
    assert_eq!(rt; left.get("a.mov"), Some(ABC.as_slice()));
    assert_eq!(rt; left.get(".mhlstation/part"), None);
    Ok(())
}

#[test]
fn a_part_with_other_bytes_is_not_recorded(rt: HostRuntime) -> Result<(), Fail> {
    let (altered, left) = record(&rt, rt.alloc(), b"abd", 0)?;
    assert!(rt; matches!(altered, Err(ReadBackError::Differs { .. })));
    assert_eq!(rt; left.get("a.mov"), None);
    assert_eq!(rt; left.get(".mhlstation/journal"), Some(b"PLAN\0".as_slice()));
    let (short, _left) = record(&rt, rt.alloc(), b"ab", 0)?;
    assert!(rt;
        matches!(
            short,
            Err(ReadBackError::Length {
                recorded: 3,
                read: 2
            })
        )
    );
    Ok(())
}

#[test]
fn a_begun_drive_goes_on_without_its_scratch_files(rt: HostRuntime) -> Result<(), Fail> {
    let alloc = rt.alloc();
    let path = PathText::read(alloc, "b.mov")?;
    for (next_path, keep_part) in [
        (Some(&path), true),
        (Some(&path), false),
        (None, true),
        (None, false),
    ] {
        let mut bay = begun(alloc, ABC)?;
        rejoin_on(&mut bay, 0, next_path, keep_part)?;
        let left = bay.image(0, usize::MAX, &[1, 1, 1])?;
        assert_eq!(rt; left.get(".mhlstation/new"), None);
        assert_eq!(rt; left.get(".mhlstation/part").is_some(), keep_part);
        assert_eq!(rt; left.get("b.mov").is_some(), next_path.is_none());
    }
    Ok(())
}
