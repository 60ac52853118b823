// No call follows a link below the folder of its device, and none changes what is no file.
use crate::HostBay;
use bay_core::{Bay, Failed};
use std::fs::Files;
use std::os::unix::fs::symlink;
use std::test::Fail;
use std::{fs, io};

// A folder of a test with a folder `dev` in it, and beside that a folder `out` of someone else with
// the file `x`.
fn make_folders(rt: &impl Files, dev: &str, out: &str, x: &str) -> io::Result<()> {
    fs::create_dir_all(rt, dev)?;
    fs::create_dir_all(rt, out)?;
    fs::write(rt, x, b"theirs".as_slice())
}

#[test]
fn reads_and_lists_no_link_of_a_drive(rt: HostRuntime) -> Result<(), Fail> {
    let _ = fs::remove_dir_all(&rt, "link_test_read");
    make_folders(
        &rt,
        "link_test_read/dev/real",
        "link_test_read/out",
        "link_test_read/out/x",
    )?;
    fs::write(&rt, "link_test_read/dev/real/own", b"ours".as_slice())?;
    symlink(&rt, "../out", "link_test_read/dev/DCIM")?;
    symlink(&rt, "../out", "link_test_read/dev/.mhlstation")?;
    symlink(&rt, "../out/x", "link_test_read/dev/file")?;
    symlink(&rt, "own", "link_test_read/dev/real/near")?;
    let mut bay = HostBay::new(rt.clone()?, rt.alloc());
    let d = bay.attach_drive("link_test_read/dev")?;
    let files = bay.drive_list(rt.alloc(), d)?;
    assert_eq!(rt; files.len(), 1);
    assert!(rt; files.iter().any(|f| f.path.as_str() == "real/own"));
    let mut got = [0; 4];
    assert_eq!(rt; bay.drive_read(d, "DCIM/x", 0, &mut got), Err(Failed));
    assert_eq!(rt; bay.drive_read(d, "DCIM/absent", 0, &mut got), Err(Failed));
    assert_eq!(rt;
        bay.drive_read(d, ".mhlstation/x", 0, &mut got),
        Err(Failed)
    );
    assert_eq!(rt; bay.drive_read(d, "file", 0, &mut got), Err(Failed));
    assert_eq!(rt; bay.drive_read(d, "real/near", 0, &mut got), Err(Failed));
    assert_eq!(rt; bay.drive_read(d, "real", 0, &mut got), Err(Failed));
    assert_eq!(rt; bay.drive_read(d, "real/own/x", 0, &mut got), Err(Failed));
    assert_eq!(rt;
        bay.drive_read(d, "real/../real/own", 0, &mut got),
        Err(Failed)
    );
    assert_eq!(rt; bay.drive_read(d, "../out/x", 0, &mut got), Err(Failed));
    assert_eq!(rt; got, [0; 4]);
    assert_eq!(rt; bay.drive_read(d, "absent/x", 0, &mut got), Ok(None));
    assert_eq!(rt; bay.drive_read(d, "real/own", 0, &mut got), Ok(Some(4)));
    fs::remove_dir_all(&rt, "link_test_read")?;
    Ok(())
}

#[test]
fn reads_and_lists_no_link_of_a_card(rt: HostRuntime) -> Result<(), Fail> {
    let _ = fs::remove_dir_all(&rt, "link_test_card");
    make_folders(
        &rt,
        "link_test_card/dev/real",
        "link_test_card/out",
        "link_test_card/out/x",
    )?;
    fs::write(&rt, "link_test_card/dev/real/own", b"ours".as_slice())?;
    symlink(&rt, "../out", "link_test_card/dev/DCIM")?;
    symlink(&rt, "../out", "link_test_card/dev/.mhlstation")?;
    symlink(&rt, "../out/x", "link_test_card/dev/file")?;
    let mut bay = HostBay::new(rt.clone()?, rt.alloc());
    let s = bay.attach_source("link_test_card/dev")?;
    let files = bay.source_list(rt.alloc(), s)?;
    assert_eq!(rt; files.len(), 1);
    assert!(rt; files.iter().any(|f| f.path.as_str() == "real/own"));
    let mut got = [0; 4];
    assert_eq!(rt; bay.source_read(s, "DCIM/x", 0, &mut got), Err(Failed));
    assert_eq!(rt;
        bay.source_read(s, ".mhlstation/x", 0, &mut got),
        Err(Failed)
    );
    assert_eq!(rt; bay.source_read(s, "file", 0, &mut got), Err(Failed));
    assert_eq!(rt; bay.source_read(s, "../out/x", 0, &mut got), Err(Failed));
    assert_eq!(rt; got, [0; 4]);
    assert_eq!(rt; bay.source_read(s, "real/own", 0, &mut got), Ok(4));
    fs::remove_dir_all(&rt, "link_test_card")?;
    Ok(())
}

#[test]
fn writes_through_no_link(rt: HostRuntime) -> Result<(), Fail> {
    let _ = fs::remove_dir_all(&rt, "link_test_write");
    make_folders(
        &rt,
        "link_test_write/dev",
        "link_test_write/out",
        "link_test_write/out/x",
    )?;
    symlink(&rt, "../out", "link_test_write/dev/DCIM")?;
    symlink(&rt, "../out", "link_test_write/dev/.mhlstation")?;
    symlink(&rt, "../out/x", "link_test_write/dev/file")?;
    symlink(&rt, "../out/y", "link_test_write/dev/hollow")?;
    let mut bay = HostBay::new(rt.clone()?, rt.alloc());
    let d = bay.attach_drive("link_test_write/dev")?;
    assert_eq!(rt; bay.write(d, "DCIM/x", 0, b"ours"), Err(Failed));
    assert_eq!(rt; bay.write(d, "DCIM/y", 0, b"ours"), Err(Failed));
    assert_eq!(rt; bay.write(d, "DCIM/a/y", 0, b"ours"), Err(Failed));
    assert_eq!(rt; bay.write(d, ".mhlstation/new", 0, b"ours"), Err(Failed));
    assert_eq!(rt; bay.write(d, "file", 0, b"ours"), Err(Failed));
    assert_eq!(rt; bay.write(d, "hollow", 0, b"ours"), Err(Failed));
    assert_eq!(rt; bay.write(d, "absent/../../out/y", 0, b"ours"), Err(Failed));
    assert_eq!(rt; bay.sync(d), Ok(()));
    assert_eq!(rt; fs::read_dir(&rt, "link_test_write/dev")?.count(), 4);
    assert_eq!(rt; fs::read_dir(&rt, "link_test_write/out")?.count(), 1);
    assert_eq!(rt;
        fs::read(&rt, "link_test_write/out/x")?.as_slice(),
        b"theirs".as_slice()
    );
    fs::remove_dir_all(&rt, "link_test_write")?;
    Ok(())
}

#[test]
fn renames_and_removes_through_no_link(rt: HostRuntime) -> Result<(), Fail> {
    let _ = fs::remove_dir_all(&rt, "link_test_rename");
    make_folders(
        &rt,
        "link_test_rename/dev/real",
        "link_test_rename/out",
        "link_test_rename/out/x",
    )?;
    fs::write(&rt, "link_test_rename/dev/own", b"ours".as_slice())?;
    symlink(&rt, "../out", "link_test_rename/dev/DCIM")?;
    symlink(&rt, "../out", "link_test_rename/dev/.mhlstation")?;
    symlink(&rt, "../out/x", "link_test_rename/dev/file")?;
    let mut bay = HostBay::new(rt.clone()?, rt.alloc());
    let d = bay.attach_drive("link_test_rename/dev")?;
    assert_eq!(rt; bay.rename(d, "own", "DCIM/x"), Err(Failed));
    assert_eq!(rt; bay.rename(d, "own", "DCIM/a/y"), Err(Failed));
    assert_eq!(rt; bay.rename(d, "own", ".mhlstation/journal"), Err(Failed));
    assert_eq!(rt; bay.rename(d, "own", "file"), Err(Failed));
    assert_eq!(rt; bay.rename(d, "own", "real"), Err(Failed));
    assert_eq!(rt; bay.rename(d, "own", "../out/x"), Err(Failed));
    assert_eq!(rt; bay.rename(d, "DCIM/x", "y"), Err(Failed));
    assert_eq!(rt; bay.rename(d, ".mhlstation/x", "y"), Err(Failed));
    assert_eq!(rt; bay.rename(d, "file", "y"), Err(Failed));
    assert_eq!(rt; bay.rename(d, "real", "y"), Err(Failed));
    assert_eq!(rt; bay.remove(d, "DCIM/x"), Err(Failed));
    assert_eq!(rt; bay.remove(d, ".mhlstation/x"), Err(Failed));
    assert_eq!(rt; bay.remove(d, "file"), Err(Failed));
    assert_eq!(rt; bay.remove(d, "real"), Err(Failed));
    assert_eq!(rt; bay.remove(d, "own/x"), Err(Failed));
    assert_eq!(rt; bay.remove(d, "../out/x"), Err(Failed));
    assert_eq!(rt; bay.remove(d, "absent/x"), Ok(()));
    assert_eq!(rt; bay.sync(d), Ok(()));
    assert_eq!(rt; fs::read_dir(&rt, "link_test_rename/dev")?.count(), 5);
    assert_eq!(rt; fs::read_dir(&rt, "link_test_rename/out")?.count(), 1);
    assert_eq!(rt;
        fs::read(&rt, "link_test_rename/out/x")?.as_slice(),
        b"theirs".as_slice()
    );
    fs::remove_dir_all(&rt, "link_test_rename")?;
    Ok(())
}

// The folder that is attached may be a link, and what is put in place of a folder or a file later
// is found where a file is opened again or made sure of.
#[test]
fn looks_again_where_it_opens_again(rt: HostRuntime) -> Result<(), Fail> {
    let _ = fs::remove_dir_all(&rt, "link_test_again");
    make_folders(
        &rt,
        "link_test_again/dev",
        "link_test_again/out",
        "link_test_again/out/x",
    )?;
    symlink(&rt, "dev", "link_test_again/root")?;
    let mut bay = HostBay::new(rt.clone()?, rt.alloc());
    let d = bay.attach_drive("link_test_again/root")?;
    assert_eq!(rt; bay.write(d, "a/x", 0, b"ours"), Ok(()));
    assert_eq!(rt; bay.rename(d, "a/x", "b/x"), Ok(()));
    assert_eq!(rt; bay.sync(d), Ok(()));
    let mut got = [0; 4];
    assert_eq!(rt; bay.drive_read(d, "b/x", 0, &mut got), Ok(Some(4)));
    fs::rename(&rt, "link_test_again/dev/b", "link_test_again/dev/c")?;
    symlink(&rt, "../out", "link_test_again/dev/b")?;
    assert_eq!(rt; bay.drive_read(d, "b/x", 0, &mut got), Ok(Some(4)));
    assert_eq!(rt; got, *b"ours");
    assert_eq!(rt; bay.write(d, "b/x", 0, b"more"), Err(Failed));
    assert_eq!(rt; bay.write(d, "c/x", 0, b"more"), Ok(()));
    fs::rename(&rt, "link_test_again/dev/c", "link_test_again/dev/e")?;
    symlink(&rt, "../out", "link_test_again/dev/c")?;
    assert_eq!(rt; bay.sync(d), Err(Failed));
    assert_eq!(rt;
        fs::read(&rt, "link_test_again/out/x")?.as_slice(),
        b"theirs".as_slice()
    );
    fs::remove_dir_all(&rt, "link_test_again")?;
    Ok(())
}
