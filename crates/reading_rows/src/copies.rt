ghost use Rattle.std.specs.Prelude.{◌<◌, IfOk};
ghost use Rattle.bay_mem.specs.State.{world_of};

use bay_core::Bay;
use bay_mem::{MemBay, MemMap};
use block_pool::Pool;
use digest_set::{Triple, unhex_into};
use read_back::{ReadBackError, read_back};
use std::alloc::Global;
use std::process::Abort;
use std::test::Fail;

// A bay with drive 0, which has these bytes at a.txt, and whose reads give so many bytes at most.
fn bay_with(alloc: Global, bytes: &[u8], cut: usize) -> Result<MemBay, Fail>
    ensures { IfOk result (λ bay. 0 < (world_of bay.seen).attached.drives) }
{
    let mut map = MemMap::new(alloc);
    map.add("a.txt", bytes, 0)?;
    let mut bay = MemBay::new(alloc);
    bay.add_drive("D", map)?;
    bay.cut_reads(cut.max(1));
    bay.attach_drive("D")?;
    Ok(bay)
}

// The digests as `md5sum`, `sha1sum` and `xxhsum -H64` print them.
fn triple_of_digits(rt: &impl Abort, md5: &str, sha1: &str, xxh: &str) -> Triple {
    let mut triple = Triple {
        md5: [0; 16],
        sha1: [0; 20],
        xxh: [0; 8],
    };
    assert!(rt; unhex_into(md5.as_bytes(), &mut triple.md5));
    assert!(rt; unhex_into(sha1.as_bytes(), &mut triple.sha1));
    assert!(rt; unhex_into(xxh.as_bytes(), &mut triple.xxh));
    triple
}

// Those of no bytes.
fn of_none(rt: &impl Abort) -> Triple {
    triple_of_digits(
        rt,
        "d41d8cd98f00b204e9800998ecf8427e",
        "da39a3ee5e6b4b0d3255bfef95601890afd80709",
        "ef46db3751d8e999",
    )
}

// Those of "abc".
fn of_abc(rt: &impl Abort) -> Triple {
    triple_of_digits(
        rt,
        "900150983cd24fb0d6963f7d28e17f72",
        "a9993e364706816aba3e25717850c26c9cd0d89d",
        "44bc2cf5ad770999",
    )
}

// Those of "acc", which is "abc" with the lowest bit of its middle byte changed.
fn of_acc(rt: &impl Abort) -> Triple {
    triple_of_digits(
        rt,
        "1673448ee7064c989d02579c534f6b66",
        "5e942a2261672f81ad3519b878a9265eb44fdeba",
        "0dc91e2006aeac13",
    )
}

// Those of 65,537 bytes 0.
fn of_zeros(rt: &impl Abort) -> Triple {
    triple_of_digits(
        rt,
        "0b76eb861bbfc3afd2905c01d37b320c",
        "98cb09a876245bf113424e8114af2ba9ba9f2658",
        "9fa5da74f6ecb3f3",
    )
}

// What reading the file of drive 0 again answers, through a pool of one block.
fn answer(
    alloc: Global,
    bay: &mut MemBay,
    path: &str,
    size: u32,
    triple: &Triple,
) -> Result<Result<(), ReadBackError>, Fail>
    requires { 0 < (world_of bay.old.seen).attached.drives }
{
    let mut pool = Pool::new(alloc, 1)?;
    let slot = pool.take().ok_or("a block is free")?;
    Ok(read_back(bay, 0, path, u64::from(size), triple, &mut pool, &slot))
}

#[test]
fn a_copy_is_read_again(rt: HostRuntime) -> Result<(), Fail> {
    let alloc = rt.alloc();
    let abc = of_abc(&rt);
    let rows = [
        (b"".as_slice(), 9, 0, of_none(&rt), Ok(())),
        (b"abc".as_slice(), 9, 3, abc, Ok(())),
        (b"abc".as_slice(), 1, 3, abc, Ok(())),
        (
            b"abc".as_slice(),
            9,
            4,
            abc,
            Err(ReadBackError::Length {
                recorded: 4,
                read: 3,
            }),
        ),
        (
            b"abc".as_slice(),
            9,
            2,
            abc,
            Err(ReadBackError::Length {
                recorded: 2,
                read: 3,
            }),
        ),
        (
            b"acc".as_slice(),
            2,
            3,
            abc,
            Err(ReadBackError::Differs {
                recorded: abc,
                read: of_acc(&rt),
            }),
        ),
    ];
    for (bytes, cut, size, triple, wanted) in rows {
        let mut bay = bay_with(alloc, bytes, cut)?;
        assert_eq!(rt; answer(alloc, &mut bay, "a.txt", size, &triple)?, wanted);
    }
    Ok(())
}

#[test]
fn a_copy_of_more_than_a_block(rt: HostRuntime) -> Result<(), Fail> {
    let alloc = rt.alloc();
    let bytes = vec![in alloc; 0u8; 65537]?;
    for cut in [99999, 999] {
        let mut bay = bay_with(alloc, &bytes, cut)?;
        assert_eq!(rt;
            answer(alloc, &mut bay, "a.txt", 65537, &of_zeros(&rt))?,
            Ok(())
        );
    }
    Ok(())
}

#[test]
fn each_call_fails_once(rt: HostRuntime) -> Result<(), Fail> {
    let alloc = rt.alloc();
    let failed = Err(ReadBackError::DriveFailed);
    for (n, wanted) in [(1, failed), (2, failed), (3, failed), (4, Ok(()))] {
        let mut bay = bay_with(alloc, b"abc", 2)?;
        bay.fail_call(n)?;
        assert_eq!(rt; answer(alloc, &mut bay, "a.txt", 3, &of_abc(&rt))?, wanted);
    }
    Ok(())
}

#[test]
fn an_absent_file_and_a_lie(rt: HostRuntime) -> Result<(), Fail> {
    let alloc = rt.alloc();
    let abc = of_abc(&rt);
    let mut bay = bay_with(alloc, b"abc", 2)?;
    let absent = answer(alloc, &mut bay, "b.txt", 3, &abc)?;
    assert_eq!(rt; absent, Err(ReadBackError::Absent));
    let mut bay = bay_with(alloc, b"abc", 2)?;
    bay.flip(0, "a.txt", 1)?;
    let lie = answer(alloc, &mut bay, "a.txt", 3, &abc)?;
    let differs = ReadBackError::Differs {
        recorded: abc,
        read: of_acc(&rt),
    };
    assert_eq!(rt; lie, Err(differs));
    Ok(())
}
