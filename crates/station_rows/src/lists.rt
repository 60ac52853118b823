// Runs of `verify` and `print` over a bay in memory.
ghost use Rattle.std.specs.Prelude.{◌≡◌, IfOk, true, [], codes, Some};
ghost use Rattle.bay_mem.specs.State.{world_of};
ghost use Rattle.station_run.specs.Verify.{IsOfVerdict, ReportOn};

use bay_core::{DriveGot, Event};
use bay_mem::{MemBay, MemMap};
use command_words::WordList;
use station_run::station;
use std::alloc::{AllocError, Global};
use std::test::Fail;

// A list with one entry: a.mov, the bytes `abc`. The digest is of RFC 1321.
const LIST: &str = "<?xml version=\"1.0\" encoding=\"UTF-8\"?>
<hashlist version=\"1.1\">
  <creatorinfo>
    <name>A001</name>
    <username>ana</username>
    <hostname>cart1</hostname>
    <tool>mhlstation 1</tool>
    <startdate>2014-10-24T12:00:00Z</startdate>
    <finishdate>2014-10-24T12:00:01Z</finishdate>
  </creatorinfo>
  <hash>
    <file>a.mov</file>
    <size>3</size>
    <lastmodificationdate>2014-10-24T00:00:00Z</lastmodificationdate>
    <md5>900150983cd24fb0d6963f7d28e17f72</md5>
    <hashdate>2014-10-24T12:00:00Z</hashdate>
  </hash>
</hashlist>
";

const GOOD: &str = "verdict good 1 entries 0 missing 0 altered 0 unchecked 0 unlisted\n";

// A bay that has these files at the place D.
fn bay_with(alloc: Global, files: &[(&str, &str)]) -> Result<MemBay, AllocError>
    ensures { IfOk result (λ bay. ((world_of bay.seen).attached.sources ≡ 0) × ((world_of bay.seen).attached.drives ≡ 0)) }
{
    let mut map = MemMap::new(alloc);
    for (path, bytes) in files {
        map.add(path, bytes.as_bytes(), 0)?;
    }
    let mut bay = MemBay::new(alloc);
    bay.add_drive("D", map)?;
    Ok(bay)
}

fn words_of(alloc: Global, words: &[&str]) -> Result<WordList, AllocError> {
    let mut list = WordList::new(alloc);
    for word in words {
        list.push(word)?;
    }
    Ok(list)
}

// A call by a letter, a failed one by a small letter. The commands make no others.
fn letter(event: &Event) -> char {
    match event {
        Event::AttachDrive { .. } => 'A',
        Event::AttachFailed { .. } => 'a',
        Event::DriveList { got: Some(_), .. } => 'L',
        Event::DriveList { .. } => 'l',
        Event::DriveRead {
            got: DriveGot::Failed,
            ..
        } => 'r',
        Event::DriveRead { .. } => 'R',
        Event::Say { ok: true, .. } => 'S',
        Event::Say { .. } => 's',
        _ => '?',
    }
}

// The calls, then the lines that were said, each ended by a line feed, and the status.
fn told(alloc: Global, bay: &MemBay, status: u8) -> Result<String, Fail> {
    let mut text = String::new(alloc);
    for event in bay.events() {
        text.push(letter(event))?;
    }
    text.push('\n')?;
    for event in bay.events() {
        if let Event::Say { line, ok: true } = event {
            text.push_str(str::from_utf8(line.as_slice())?)?;
            text.push('\n')?;
        }
    }
    let status = format!(in alloc; "{status}")?;
    text.push_str(&status)?;
    Ok(text)
}

// What a run told whose n-th call fails; none for 0.
fn run(alloc: Global, files: &[(&str, &str)], words: &[&str], n: u64) -> Result<String, Fail> {
    let mut bay = bay_with(alloc, files)?;
    if n > 0 {
        bay.fail_call(n)?;
    }
    let words = words_of(alloc, words)?;
    let status = station(alloc, &mut bay, &words);
    told(alloc, &bay, status)
}

const VERIFY: [&str; 3] = ["verify", "x.mhl", "D"];

#[test]
fn drives_are_verified(rt: HostRuntime) -> Result<(), Fail> {
    let alloc = rt.alloc();
    let (half, _) = LIST.split_at(LIST.len() / 2);
    let good = ("a.mov", "abc");
    let list = ("x.mhl", LIST);
    let rows = [
        ([good, list], "ALRRLRRS\n", GOOD, "0"),
        (
            [("b.mov", "abc"), list],
            "ALRRLSSS\n",
            "missing a.mov\nunlisted b.mov\nverdict bad 1 entries 1 missing 0 altered 0 unchecked 1 unlisted\n",
            "1",
        ),
        (
            [("a.mov", ""), list],
            "ALRRLRSSS\n",
            "altered size 3 0 a.mov\naltered md5 900150983cd24fb0d6963f7d28e17f72 d41d8cd98f00b204e9800998ecf8427e a.mov\nverdict bad 1 entries 0 missing 1 altered 0 unchecked 0 unlisted\n",
            "1",
        ),
        (
            [good, ("x.mhl", half)],
            "ALRRS\n",
            "unreadable malformed 272\n",
            "7",
        ),
        ([good, ("y.mhl", LIST)], "ALS\n", "unreadable absent\n", "7"),
    ];
    for (files, calls, lines, status) in rows {
        let expected = format!(in alloc; "{calls}{lines}{status}")?;
        assert_eq!(rt; run(alloc, &files, &VERIFY, 0)?.as_str(), expected.as_str());
    }
    let beside = [good, list, ("u.mov", "")];
    assert_eq!(rt;
        run(alloc, &beside, &VERIFY, 0)?.as_str(),
        "ALRRLRRSS\nunlisted u.mov\nverdict good 1 entries 0 missing 0 altered 0 unchecked 1 unlisted\n0"
    );
    Ok(())
}

// What verifying files by the list at x.mhl among them comes to, in a bay that was made with them and does not lie.
fn verified(alloc: Global, files: MemMap) -> Result<(u8, MemBay), AllocError>
    // The status of a verdict is that of the report on these files, and the lines are its lines.
    ensures { IfOk result (λ r. r.1.seen.told ≡ true → IsOfVerdict r.0 → ReportOn files.map (codes "x.mhl") r.0 (Some []) r.1.seen.events) }
{
    let mut bay = MemBay::new(alloc);
    bay.add_drive("D", files)?;
    let mut words = WordList::new(alloc);
    words.push("verify")?;
    words.push("x.mhl")?;
    words.push("D")?;
    let status = station(alloc, &mut bay, &words);
    Ok((status, bay))
}

#[test]
fn a_place_is_verified_as_it_was_made(rt: HostRuntime) -> Result<(), Fail> {
    let alloc = rt.alloc();
    let mut files = MemMap::new(alloc);
    files.add("a.mov", b"abc", 0)?;
    files.add("x.mhl", LIST.as_bytes(), 0)?;
    let (status, bay) = verified(alloc, files)?;
    let expected = format!(in alloc; "ALRRLRRS\n{GOOD}0")?;
    assert_eq!(rt; told(alloc, &bay, status)?.as_str(), expected.as_str());
    Ok(())
}

// A list with these entries.
fn list_of(alloc: Global, entries: &str) -> Result<String, Fail> {
    let Some((head, _)) = LIST.split_once("  <hash>\n") else {
        return Ok(String::new(alloc));
    };
    Ok(format!(in alloc; "{head}{entries}</hashlist>\n")?)
}

// An entry, with its digests by their lines.
fn entry(alloc: Global, path: &str, size: u64, digests: &str) -> Result<String, Fail> {
    Ok(format!(in alloc;
        "  <hash>\n    <file>{path}</file>\n    <size>{size}</size>\n    <lastmodificationdate>2014-10-24T00:00:00Z</lastmodificationdate>\n{digests}    <hashdate>2014-10-24T12:00:00Z</hashdate>\n  </hash>\n"
    )?)
}

// The digests of `abc`, each by its line.
const MD5: &str = "    <md5>900150983cd24fb0d6963f7d28e17f72</md5>\n";

const SHA1: &str = "    <sha1>a9993e364706816aba3e25717850c26c9cd0d89d</sha1>\n";

const XXH: &str = "    <xxhash64be>44bc2cf5ad770999</xxhash64be>\n";

#[test]
fn each_value_that_differs_has_its_line(rt: HostRuntime) -> Result<(), Fail> {
    let alloc = rt.alloc();
    let both = format!(in alloc; "{MD5}{SHA1}")?;
    let mut entries = entry(alloc, "m.mov", 3, MD5)?;
    entries.push_str(&entry(alloc, "s.mov", 3, MD5)?)?;
    entries.push_str(&entry(alloc, "t.mov", 0, &both)?)?;
    let list = list_of(alloc, &entries)?;
    let files = [
        ("x.mhl", list.as_str()),
        ("s.mov", ""),
        ("t.mov", ""),
        ("u.mov", ""),
    ];
    assert_eq!(rt;
        run(alloc, &files, &VERIFY, 0)?.as_str(),
        "ALRRLSRSSRSSSS
missing m.mov
altered size 3 0 s.mov
altered md5 900150983cd24fb0d6963f7d28e17f72 d41d8cd98f00b204e9800998ecf8427e s.mov
altered md5 900150983cd24fb0d6963f7d28e17f72 d41d8cd98f00b204e9800998ecf8427e t.mov
altered sha1 a9993e364706816aba3e25717850c26c9cd0d89d da39a3ee5e6b4b0d3255bfef95601890afd80709 t.mov
unlisted u.mov
verdict bad 3 entries 1 missing 2 altered 0 unchecked 1 unlisted
1"
    );
    Ok(())
}

#[test]
fn each_kind_of_digest_is_checked(rt: HostRuntime) -> Result<(), Fail> {
    let alloc = rt.alloc();
    for (md5, sha1, xxh) in [
        (MD5, "", ""),
        ("", SHA1, ""),
        ("", "", XXH),
        (MD5, SHA1, ""),
        (MD5, "", XXH),
        ("", SHA1, XXH),
        (MD5, SHA1, XXH),
    ] {
        let digests = format!(in alloc; "{md5}{sha1}{xxh}")?;
        let list = list_of(alloc, &entry(alloc, "a.mov", 3, &digests)?)?;
        let whole = run(
            alloc,
            &[("x.mhl", list.as_str()), ("a.mov", "abc")],
            &VERIFY,
            0,
        )?;
        let good = format!(in alloc; "ALRRLRRS\n{GOOD}0")?;
        assert_eq!(rt; whole.as_str(), good.as_str());
        let other = run(
            alloc,
            &[("x.mhl", list.as_str()), ("a.mov", "abd")],
            &VERIFY,
            0,
        )?;
        let lines = other
            .lines()
            .filter(|line| line.starts_with("altered "))
            .count();
        let wanted = [md5, sha1, xxh]
            .iter()
            .filter(|line| !line.is_empty())
            .count();
        assert_eq!(rt; lines, wanted);
    }
    Ok(())
}

#[test]
fn a_file_of_more_than_one_block_is_verified(rt: HostRuntime) -> Result<(), Fail> {
    let alloc = rt.alloc();
    // One byte more than a block, each byte an `a`; and the same with a `b` at the end. The digests are those of md5sum.
    let block = "a".repeat(alloc, 65536)?;
    let good = format!(in alloc; "{block}a")?;
    let other = format!(in alloc; "{block}b")?;
    let digest = "    <md5>b3c6fc238e908636e53aabd5ad830cf7</md5>\n";
    let list = list_of(alloc, &entry(alloc, "a.mov", 65537, digest)?)?;
    let files = [("x.mhl", list.as_str()), ("a.mov", good.as_str())];
    let expected = format!(in alloc; "ALRRLRRRS\n{GOOD}0")?;
    assert_eq!(rt; run(alloc, &files, &VERIFY, 0)?.as_str(), expected.as_str());
    let files = [("x.mhl", list.as_str()), ("a.mov", other.as_str())];
    assert_eq!(rt;
        run(alloc, &files, &VERIFY, 0)?.as_str(),
        "ALRRLRRRSS
altered md5 b3c6fc238e908636e53aabd5ad830cf7 26699477617ad3fc62ab1edd0e5d69c2 a.mov
verdict bad 1 entries 0 missing 1 altered 0 unchecked 0 unlisted
1"
    );
    Ok(())
}

#[test]
fn other_words_are_refused(rt: HostRuntime) -> Result<(), Fail> {
    let alloc = rt.alloc();
    let rows: [&[&str]; 15] = [
        &[],
        &["verify"],
        &["verify", "x.mhl"],
        &["verify", "x.mhl", "D", "E"],
        &["check", "x.mhl", "D"],
        &["verify", "x.mhl", ""],
        &["verify", "a/x.mhl", "D"],
        &["verify", "..", "D"],
        &["verify", ".mhlstation", "D"],
        &["print", "x.mhl"],
        &["print", "x.mhl", "D", "E"],
        &["Print", "x.mhl", "D"],
        &["print", "x.mhl", ""],
        &["print", "a/x.mhl", "D"],
        &["print", ".mhlstation", "D"],
    ];
    for words in rows {
        let text = run(alloc, &[("x.mhl", LIST)], words, 0)?;
        assert_eq!(rt; text.as_str(), "S\nrefused words\n2");
    }
    Ok(())
}

#[test]
fn a_failed_call_has_its_status(rt: HostRuntime) -> Result<(), Fail> {
    let alloc = rt.alloc();
    let files = [("a.mov", "abc"), ("x.mhl", LIST)];
    let rows = [
        (1, "aS\nfailed attach drive 0\n4"),
        (2, "AlS\nfailed drive\n8"),
        (3, "ALrS\nfailed drive\n8"),
        (4, "ALRrS\nfailed drive\n8"),
        (5, "ALRRlS\nfailed drive\n8"),
        (6, "ALRRLrS\nfailed drive\n8"),
        (7, "ALRRLRrS\nfailed drive\n8"),
        (8, "ALRRLRRs\n5"),
    ];
    for (n, expected) in rows {
        assert_eq!(rt; run(alloc, &files, &VERIFY, n)?.as_str(), expected);
    }
    let unsaid = run(alloc, &files, &[], 1)?;
    assert_eq!(rt; unsaid.as_str(), "s\n5");
    let elsewhere = run(alloc, &files, &["verify", "x.mhl", "E"], 0)?;
    assert_eq!(rt; elsewhere.as_str(), "aS\nfailed attach drive 0\n4");
    Ok(())
}

// A list whose one file is empty and has all three digests, those of RFC 1321, FIPS 180-4 and the xxHash specification.
const EMPTY: &str = "<?xml version=\"1.0\" encoding=\"UTF-8\"?>
<hashlist version=\"1.1\">
  <creatorinfo>
    <name>A001</name>
    <username>ana</username>
    <hostname>cart1</hostname>
    <tool>mhlstation 1</tool>
    <startdate>2014-10-24T12:00:00Z</startdate>
    <finishdate>2014-10-24T12:00:00Z</finishdate>
  </creatorinfo>
  <hash>
    <file>e.mov</file>
    <size>0</size>
    <lastmodificationdate>2014-10-24T00:00:00Z</lastmodificationdate>
    <md5>d41d8cd98f00b204e9800998ecf8427e</md5>
    <sha1>da39a3ee5e6b4b0d3255bfef95601890afd80709</sha1>
    <xxhash64be>ef46db3751d8e999</xxhash64be>
    <hashdate>2014-10-24T12:00:00Z</hashdate>
  </hash>
</hashlist>
";

// Its table.
const TABLE: [&str; 8] = [
    "name A001",
    "username ana",
    "hostname cart1",
    "tool mhlstation 1",
    "startdate 2014-10-24T12:00:00Z",
    "finishdate 2014-10-24T12:00:00Z",
    "                   0 2014-10-24T00:00:00Z d41d8cd98f00b204e9800998ecf8427e da39a3ee5e6b4b0d3255bfef95601890afd80709 ef46db3751d8e999 e.mov",
    "entries 1",
];

const PRINT: [&str; 3] = ["print", "x.mhl", "D"];

// What printing that list tells where so many of its lines are said, and all calls before them are answered.
fn told_table(alloc: Global, said: usize, end: &str) -> Result<String, Fail> {
    let mut text = "ALRR".to_owned(alloc)?;
    text.push_str(&"S".repeat(alloc, said)?)?;
    text.push_str(end)?;
    for line in TABLE.iter().take(said) {
        text.push_str(line)?;
        text.push('\n')?;
    }
    Ok(text)
}

#[test]
fn a_list_is_printed(rt: HostRuntime) -> Result<(), Fail> {
    let alloc = rt.alloc();
    let files = [("x.mhl", EMPTY)];
    let mut expected = told_table(alloc, 8, "\n")?;
    expected.push('0')?;
    assert_eq!(rt; run(alloc, &files, &PRINT, 0)?.as_str(), expected.as_str());
    let elsewhere = run(alloc, &[("y.mhl", EMPTY)], &PRINT, 0)?;
    assert_eq!(rt; elsewhere.as_str(), "ALS\nunreadable absent\n7");
    Ok(())
}

#[test]
fn a_list_of_little_is_printed(rt: HostRuntime) -> Result<(), Fail> {
    let alloc = rt.alloc();
    let list = "<hashlist version='1.0'><hash><file>b.mov</file></hash></hashlist>";
    assert_eq!(rt;
        run(alloc, &[("x.mhl", list)], &PRINT, 0)?.as_str(),
        "ALRRSSSSSSSS
name -
username -
hostname -
tool -
startdate -
finishdate -
                   - -                    -                                -                                        -                b.mov
entries 1
0"
    );
    Ok(())
}

#[test]
fn a_table_ends_at_a_line_that_is_not_said(rt: HostRuntime) -> Result<(), Fail> {
    let alloc = rt.alloc();
    let files = [("x.mhl", EMPTY)];
    for said in 0..8 {
        let mut expected = told_table(alloc, said, "s\n")?;
        expected.push('5')?;
        let text = run(alloc, &files, &PRINT, 5 + said as u64)?;
        assert_eq!(rt; text.as_str(), expected.as_str());
    }
    let rows = [
        (1, "aS\nfailed attach drive 0\n4"),
        (2, "AlS\nfailed drive\n8"),
        (3, "ALrS\nfailed drive\n8"),
        (4, "ALRrS\nfailed drive\n8"),
    ];
    for (n, expected) in rows {
        assert_eq!(rt; run(alloc, &files, &PRINT, n)?.as_str(), expected);
    }
    Ok(())
}

#[test]
fn a_fault_of_a_list_has_its_line(rt: HostRuntime) -> Result<(), Fail> {
    let alloc = rt.alloc();
    let rows = [
        ("<hashlist version=\"1.1\"></hashlis", "malformed 24"),
        (
            "<!DOCTYPE hashlist><hashlist version=\"1.1\"/>",
            "doctype 0",
        ),
        (
            "<hashlist version=\"1.1\"><![CDATA[a]]></hashlist>",
            "cdata 24",
        ),
        ("<hashlist version=\"2.0\"/>", "version"),
        (
            "<hashlist version=\"1.1\"><hash></hash></hashlist>",
            "nofile 24",
        ),
        (
            "<hashlist version=\"1.1\"><hash><file>a</file></hash><hash><file>a</file></hash></hashlist>",
            "twice 57",
        ),
        (
            "<hashlist version=\"1.1\"><hash><file>../x</file></hash></hashlist>",
            "badpath 30",
        ),
        (
            "<hashlist version=\"1.1\"><hash><size>x</size></hash></hashlist>",
            "badsize 30",
        ),
        (
            "<hashlist version=\"1.1\"><hash><md5>00</md5></hash></hashlist>",
            "baddigest 30",
        ),
    ];
    for (list, fault) in rows {
        let expected = format!(in alloc; "ALRRS\nunreadable {fault}\n7")?;
        for words in [&VERIFY, &PRINT] {
            let text = run(alloc, &[("x.mhl", list)], words, 0)?;
            assert_eq!(rt; text.as_str(), expected.as_str());
        }
    }
    Ok(())
}

#[test]
fn an_entry_without_a_digest_is_unchecked(rt: HostRuntime) -> Result<(), Fail> {
    let alloc = rt.alloc();
    let list = "<?xml version=\"1.0\" encoding=\"UTF-8\"?>
<!-- made on set -->
<hashlist version=\"1.0\">
<hash><md5>900150983CD24FB0D6963F7D28E17F72</md5><size>3</size><file>a.mov</file></hash>
<hash><file>b.mov</file><xxhash64>123</xxhash64></hash>
</hashlist>
";
    let files = [("x.mhl", list), ("a.mov", "abc"), ("b.mov", "")];
    assert_eq!(rt;
        run(alloc, &files, &VERIFY, 0)?.as_str(),
        "ALRRLRRRSS
unchecked b.mov
verdict unchecked 2 entries 0 missing 0 altered 1 unchecked 0 unlisted
6"
    );
    Ok(())
}
