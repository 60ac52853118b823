use crate::HostBay;
use bay_core::{Bay, Failed};
use std::fs;
use std::os::unix::fs::symlink;
use std::test::Fail;

const DRIVE: &str = "bay_host_test_drive";

const CARD: &str = "bay_host_test_card";

#[test]
fn writes_reads_and_syncs(rt: HostRuntime) -> Result<(), Fail> {
    let _ = fs::remove_dir_all(&rt, DRIVE);
    fs::create_dir(&rt, DRIVE)?;
    let mut bay = HostBay::new(rt.clone()?, rt.alloc());
    assert_eq!(rt; bay.attach_drive("bay_host_test_drive/absent"), Err(Failed));
    let d = bay.attach_drive(DRIVE)?;
    let mut got = [0; 8];
    assert_eq!(rt; bay.drive_read(d, "a/b.mov", 0, &mut got), Ok(None));
    assert_eq!(rt; bay.write(d, "a/b.mov", 2, b"xyz"), Ok(()));
    assert_eq!(rt; bay.drive_read(d, "a/b.mov", 0, &mut got), Ok(Some(5)));
    assert_eq!(rt; got, *b"\0\0xyz\0\0\0");
    assert_eq!(rt; bay.write(d, "a/b.mov", 0, b"vw"), Ok(()));
    assert_eq!(rt; bay.drive_read(d, "a/b.mov", 1, &mut got), Ok(Some(4)));
    assert_eq!(rt; &got[..4], b"wxyz".as_slice());
    assert_eq!(rt; bay.write(d, "zeros", 4, b""), Ok(()));
    assert_eq!(rt; fs::metadata(&rt, "bay_host_test_drive/zeros")?.len(), 4);
    assert_eq!(rt; bay.sync(d), Ok(()));
    fs::remove_dir_all(&rt, DRIVE)?;
    Ok(())
}

#[test]
fn renames_lists_and_removes(rt: HostRuntime) -> Result<(), Fail> {
    let folder = "bay_host_test_names";
    let _ = fs::remove_dir_all(&rt, folder);
    fs::create_dir(&rt, folder)?;
    let mut bay = HostBay::new(rt.clone()?, rt.alloc());
    let d = bay.attach_drive(folder)?;
    assert_eq!(rt; bay.write(d, "a/b.mov", 0, b"xyz"), Ok(()));
    assert_eq!(rt; bay.rename(d, "a/b.mov", "c/d/e.mov"), Ok(()));
    assert_eq!(rt; bay.sync(d), Ok(()));
    let mut got = [0; 4];
    assert_eq!(rt; bay.drive_read(d, "a/b.mov", 0, &mut got), Ok(None));
    assert_eq!(rt; bay.drive_read(d, "c/d/e.mov", 1, &mut got), Ok(Some(2)));
    assert_eq!(rt; got, *b"yz\0\0");
    fs::write(&rt, "bay_host_test_names/top", b"1".as_slice())?;
    symlink(&rt, "top", "bay_host_test_names/link")?;
    let files = bay.drive_list(rt.alloc(), d)?;
    assert_eq!(rt; files.len(), 2);
    assert!(rt;
        files
            .iter()
            .any(|f| f.path.as_str() == "c/d/e.mov" && f.size == 3)
    );
    assert!(rt;
        files
            .iter()
            .any(|f| f.path.as_str() == "top" && f.modified > 1_600_000_000)
    );
    assert_eq!(rt; bay.remove(d, "c/d/e.mov"), Ok(()));
    assert_eq!(rt; bay.drive_read(d, "c/d/e.mov", 0, &mut got), Ok(None));
    assert_eq!(rt; bay.remove(d, "c/d/e.mov"), Ok(()));
    assert_eq!(rt; bay.sync(d), Ok(()));
    assert_eq!(rt; bay.rename(d, "c/d/e.mov", "f"), Err(Failed));
    fs::remove_dir_all(&rt, folder)?;
    Ok(())
}

#[test]
fn reads_a_card(rt: HostRuntime) -> Result<(), Fail> {
    let _ = fs::remove_dir_all(&rt, CARD);
    fs::create_dir(&rt, CARD)?;
    fs::write(&rt, "bay_host_test_card/clip", b"clip".as_slice())?;
    let mut bay = HostBay::new(rt.clone()?, rt.alloc());
    assert_eq!(rt; bay.attach_source("bay_host_test_card/clip"), Err(Failed));
    let s = bay.attach_source(CARD)?;
    let mut got = [0; 3];
    assert_eq!(rt; bay.source_read(s, "clip", 0, &mut got), Ok(3));
    assert_eq!(rt; got, *b"cli");
    assert_eq!(rt; bay.source_read(s, "clip", 4, &mut got), Ok(0));
    assert_eq!(rt; bay.source_read(s, "absent", 0, &mut got), Err(Failed));
    let files = bay.source_list(rt.alloc(), s)?;
    assert_eq!(rt; files.len(), 1);
    assert!(rt; bay.moment() > 1_600_000_000);
    let first = bay.pick();
    assert!(rt; bay.pick() != first);
    assert_eq!(rt; bay.say(b"said"), Ok(()));
    fs::remove_dir_all(&rt, CARD)?;
    Ok(())
}
