ghost use Rattle.std.specs.Prelude.{◌≡◌, ◌<◌, IfOk};
ghost use Rattle.bay_mem.specs.State.{world_of};

use bay_core::{Bay, DriveGot, Event};
use bay_mem::{MemBay, MemMap};
use mhl_reader::ReadError;
use path_text::PathText;
use std::alloc::{AllocError, Global};
use std::test::Fail;
use verify_run::{LoadError, Outcome, Standing, Verdict, VerifyError, load_list, verify};

// A list with one entry: a.mov, the bytes `abc`. The digest is of RFC 1321.
const LIST: &str = "<?xml version=\"1.0\" encoding=\"UTF-8\"?>
<hashlist version=\"1.1\">
  <creatorinfo>
    <name>A001</name>
    <username>ana</username>
    <hostname>cart1</hostname>
    <tool>mhlstation 1</tool>
    <startdate>2014-10-24T12:00:00Z</startdate>
    <finishdate>2014-10-24T12:00:01Z</finishdate>
  </creatorinfo>
  <hash>
    <file>a.mov</file>
    <size>3</size>
    <lastmodificationdate>2014-10-24T00:00:00Z</lastmodificationdate>
    <md5>900150983cd24fb0d6963f7d28e17f72</md5>
    <hashdate>2014-10-24T12:00:00Z</hashdate>
  </hash>
</hashlist>
";

const GOOD: &str = "verdict good 1 entries 0 missing 0 altered 0 unchecked 0 unlisted\n";

// A bay with drive 0, which has the list at x.mhl and these files.
fn bay_with(alloc: Global, files: &[(&str, &str)]) -> Result<MemBay, Fail>
    ensures { IfOk result (λ bay. 0 < (world_of bay.seen).attached.drives) }
{
    let mut map = MemMap::new(alloc);
    map.add("x.mhl", LIST.as_bytes(), 0)?;
    for (path, bytes) in files {
        map.add(path, bytes.as_bytes(), 0)?;
    }
    let mut bay = MemBay::new(alloc);
    bay.add_drive("D", map)?;
    bay.attach_drive("D")?;
    Ok(bay)
}

// The lines that were said, each ended by a line feed.
fn said(alloc: Global, bay: &MemBay) -> Result<Vec<u8>, AllocError> {
    let mut lines = Vec::new(alloc);
    for event in bay.events() {
        if let Event::Say { line, ok: true } = event {
            lines.extend_from_slice(line.as_slice())?;
            lines.push(b'\n')?;
        }
    }
    Ok(lines)
}

// A call by a letter, a failed one by a small letter. A verification makes no others.
fn letter(event: &Event) -> char {
    match event {
        Event::AttachDrive { .. } => 'A',
        Event::DriveList { got: Some(_), .. } => 'L',
        Event::DriveRead {
            got: DriveGot::Failed,
            ..
        } => 'r',
        Event::DriveRead { .. } => 'R',
        Event::Say { ok: true, .. } => 'S',
        Event::Say { .. } => 's',
        Event::DriveList { .. } => 'l',
        Event::AttachFailed { .. } => 'a',
        _ => '?',
    }
}

// The calls by their letters.
fn calls(alloc: Global, bay: &MemBay) -> Result<String, AllocError> {
    let mut letters = String::new(alloc);
    for event in bay.events() {
        letters.push(letter(event))?;
    }
    Ok(letters)
}

#[test]
fn a_list_is_loaded(rt: HostRuntime) -> Result<(), Fail> {
    let alloc = rt.alloc();
    let mut bay = bay_with(alloc, &[])?;
    let list = load_list(alloc, &mut bay, 0, &PathText::read(alloc, "x.mhl")?)?;
    assert_eq!(rt; list.entries.len(), 1);
    let entry = &list.entries[0];
    assert_eq!(rt; entry.path.as_str(), "a.mov");
    assert_eq!(rt; entry.size, Some(3));
    assert_eq!(rt; calls(alloc, &bay)?.as_str(), "ALRR");
    Ok(())
}

#[test]
fn other_lists_are_refused(rt: HostRuntime) -> Result<(), Fail> {
    let alloc = rt.alloc();
    let (half, _) = LIST.split_at(LIST.len() / 2);
    let mut bay = bay_with(alloc, &[("half.mhl", half)])?;
    let absent = load_list(alloc, &mut bay, 0, &PathText::read(alloc, "y.mhl")?);
    assert!(rt; matches!(absent, Err(LoadError::Absent)));
    assert_eq!(rt; calls(alloc, &bay)?.as_str(), "AL");
    let path = PathText::read(alloc, "half.mhl")?;
    let refused = load_list(alloc, &mut bay, 0, &path);
    assert!(rt;
        matches!(
            refused,
            Err(LoadError::Unreadable(ReadError::Malformed { at: 272 }))
        )
    );
    assert_eq!(rt; calls(alloc, &bay)?.as_str(), "ALLRR");
    bay.fail_call(1)?;
    let unlisted = load_list(alloc, &mut bay, 0, &path);
    assert!(rt; matches!(unlisted, Err(LoadError::DriveFailed)));
    bay.fail_call(2)?;
    let unread = load_list(alloc, &mut bay, 0, &path);
    assert!(rt; matches!(unread, Err(LoadError::DriveFailed)));
    assert_eq!(rt; calls(alloc, &bay)?.as_str(), "ALLRRlLr");
    Ok(())
}

// The lines that verifying these files says, where each read gives so many bytes at most.
fn report(alloc: Global, files: &[(&str, &str)], cut: usize) -> Result<Vec<u8>, Fail>
    requires { 0 < cut }
{
    let mut bay = bay_with(alloc, files)?;
    let own = PathText::read(alloc, "x.mhl")?;
    let list = load_list(alloc, &mut bay, 0, &own)?;
    bay.cut_reads(cut);
    verify(alloc, &mut bay, 0, &list, &own)?;
    Ok(said(alloc, &bay)?)
}

#[test]
fn a_drive_is_verified(rt: HostRuntime) -> Result<(), Fail> {
    let alloc = rt.alloc();
    // The bytes of a.mov, and an empty file that lies beside it: a.mov itself for none.
    let rows = [
        ("abc", "a.mov", GOOD),
        ("abc", ".mhlstation/x", GOOD),
        (
            "abc",
            "u.mov",
            "unlisted u.mov\nverdict good 1 entries 0 missing 0 altered 0 unchecked 1 unlisted\n",
        ),
        (
            "abc",
            "u\n.mov",
            "unlisted u?.mov\nverdict good 1 entries 0 missing 0 altered 0 unchecked 1 unlisted\n",
        ),
        (
            "",
            "a.mov",
            "altered size 3 0 a.mov\naltered md5 900150983cd24fb0d6963f7d28e17f72 d41d8cd98f00b204e9800998ecf8427e a.mov\nverdict bad 1 entries 0 missing 1 altered 0 unchecked 0 unlisted\n",
        ),
    ];
    for (bytes, beside, lines) in rows {
        let files = [(beside, ""), ("a.mov", bytes)];
        let whole = report(alloc, &files, 65536)?;
        assert_eq!(rt; whole.as_slice(), lines.as_bytes());
        let cut = report(alloc, &files, 1)?;
        assert_eq!(rt; cut.as_slice(), lines.as_bytes());
    }
    let missing = report(alloc, &[], 1)?;
    assert_eq!(rt;
        missing.as_slice(),
        b"missing a.mov\nverdict bad 1 entries 1 missing 0 altered 0 unchecked 0 unlisted\n".as_slice()
    );
    Ok(())
}

// How a verification ends of which the n-th call fails, and all calls, those of the loading before it.
fn stopped(alloc: Global, n: u64) -> Result<(Result<Verdict, VerifyError>, String), Fail> {
    let mut bay = bay_with(alloc, &[("a.mov", "abd")])?;
    let own = PathText::read(alloc, "x.mhl")?;
    let list = load_list(alloc, &mut bay, 0, &own)?;
    bay.fail_call(n)?;
    let end = verify(alloc, &mut bay, 0, &list, &own);
    Ok((end, calls(alloc, &bay)?))
}

#[test]
fn a_verification_stops_at_a_failed_call(rt: HostRuntime) -> Result<(), Fail> {
    let rows = [
        (1, VerifyError::DriveFailed, "ALRRl"),
        (2, VerifyError::DriveFailed, "ALRRLr"),
        (3, VerifyError::DriveFailed, "ALRRLRr"),
        (4, VerifyError::OutFailed, "ALRRLRRs"),
        (5, VerifyError::OutFailed, "ALRRLRRSs"),
    ];
    for (n, error, wanted) in rows {
        let (end, calls) = stopped(rt.alloc(), n)?;
        assert_eq!(rt; end, Err(error), "{n}");
        assert_eq!(rt; calls.as_str(), wanted);
    }
    Ok(())
}
