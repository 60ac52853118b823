// What runs leave on a drive, byte for byte, and that it verifies.
ghost use Rattle.std.specs.Prelude.{◌≤◌};
ghost use Rattle.bay_mem.specs.State.{world_of};

use crate::bays::{
    Files, JOURNAL, LIST, MIDNIGHT, ONE_DRIVE, TWO, bare_bay, bay_beside, count_effects, left,
    map_of, told, told_again,
};
use bay_mem::{MemBay, MemMap};
use std::alloc::Global;
use std::test::Fail;

// The list of a card with the empty file e.mov alone, and with MD5 alone. The digests are those of RFC 1321, FIPS 180-4 and the
// xxHash specification.
const HEAD: &str = "<?xml version=\"1.0\" encoding=\"UTF-8\"?>
<hashlist version=\"1.1\">
  <creatorinfo>
    <name>A001</name>
    <username>ana</username>
    <hostname>cart1</hostname>
    <tool>mhlstation 1</tool>
    <startdate>2014-10-24T12:00:00Z</startdate>
    <finishdate>2014-10-24T12:00:00Z</finishdate>
  </creatorinfo>
  <hash>
    <file>e.mov</file>
    <size>0</size>
    <lastmodificationdate>2014-10-24T00:00:00Z</lastmodificationdate>
    <md5>d41d8cd98f00b204e9800998ecf8427e</md5>
";

const OTHERS: &str = "    <sha1>da39a3ee5e6b4b0d3255bfef95601890afd80709</sha1>
    <xxhash64be>ef46db3751d8e999</xxhash64be>
";

const TAIL: &str = "    <hashdate>2014-10-24T12:00:00Z</hashdate>
  </hash>
</hashlist>
";

// The journals: the code of the plan, an open gate, the record and a closed gate (docs/FORMATS.md, "Plans", "The journal").
const PLAN: &[u8] =
    b"MHLPLAN1\0\0\0\0TJ?@\x04A001\x03ana\x05cart1\0\0\0\x01\0\x05e.mov\0\0\0\0\0\0\0\0\0\0\0\0TI\x96\x80";

const PLAN_OF_MD5: &[u8] =
    b"MHLPLAN2\0\0\0\0TJ?@\x04A001\x03ana\x05cart1\x01\0\0\0\0\0\x01\0\x05e.mov\0\0\0\0\0\0\0\0\0\0\0\0TI\x96\x80";

const RECORD: &[u8] =
    b"\x01\0\0\0\0\0\0\0\0\0\0\0\0\xd4\x1d\x8c\xd9\x8f\x00\xb2\x04\xe9\x80\x09\x98\xec\xf8\x42\x7e\
    \xda\x39\xa3\xee\x5e\x6b\x4b\x0d\x32\x55\xbf\xef\x95\x60\x18\x90\xaf\xd8\x07\x09\
    \xef\x46\xdb\x37\x51\xd8\xe9\x99\0\0\0\0\x54\x4a\x3f\x40\0";

const EMPTY_COPIED: &str = "begun 0 0 1
done 0 1 1 e.mov
sealed 0 1 A001_2014-10-24_120000.mhl
clear 1 1
0";

// What a drive has behind an offload of a card with the file e.mov alone, with this COPIES word, and what the run told.
fn copied(alloc: Global, copies: &str) -> Result<(MemMap, String), Fail> {
    let bay = bare_bay(alloc, &[("e.mov", b"")])?;
    let words = format!(in alloc; "offload A001 ana@cart1 {copies} card d0")?;
    let (mut bay, text) = told(alloc, bay, words.as_str())?;
    Ok((left(&mut bay, "d0")?, text))
}

// Whether a drive has the list of that file, with these digests beside its MD5.
fn has_list(alloc: Global, left: &MemMap, others: &str) -> Result<bool, Fail> {
    let list = format!(in alloc; "{HEAD}{others}{TAIL}")?;
    Ok(left.get(LIST) == Some(list.as_bytes()))
}

// Whether a drive has the journal of that file with the code of this plan.
fn has_journal(alloc: Global, left: &MemMap, plan: &[u8]) -> Result<bool, Fail> {
    let mut journal = plan.to_vec(alloc)?;
    journal.extend_from_slice(RECORD)?;
    Ok(left.get(JOURNAL) == Some(journal.as_slice()))
}

#[test]
fn a_list_and_a_journal_byte_for_byte(rt: HostRuntime) -> Result<(), Fail> {
    let alloc = rt.alloc();
    let rows = [("1", OTHERS, PLAN), ("1:md5", "", PLAN_OF_MD5)];
    for (copies, others, plan) in rows {
        let (left, text) = copied(alloc, copies)?;
        assert_eq!(rt; text.as_str(), EMPTY_COPIED);
        assert!(rt; has_list(alloc, &left, others)?);
        assert!(rt; has_journal(alloc, &left, plan)?);
        assert_eq!(rt; left.len(), 3);
    }
    Ok(())
}

// Cards, and what the verification of a copy says.
const CARDS: [(Files, &str); 3] = [
    (
        TWO,
        "verdict good 2 entries 0 missing 0 altered 0 unchecked 0 unlisted\n0",
    ),
    (
        &[("x & <y>.mov", b"abc")],
        "verdict good 1 entries 0 missing 0 altered 0 unchecked 0 unlisted\n0",
    ),
    (
        &[
            ("CLIPS/Übersicht.mov", b"abc"),
            ("CLIPS/本番.mov", b"d"),
            ("a", b""),
        ],
        "verdict good 3 entries 0 missing 0 altered 0 unchecked 0 unlisted\n0",
    ),
];

#[test]
fn what_was_copied_verifies(rt: HostRuntime) -> Result<(), Fail> {
    let alloc = rt.alloc();
    for (card, wanted) in CARDS {
        let (bay, text) = told(alloc, bare_bay(alloc, card)?, ONE_DRIVE)?;
        assert!(rt; text.ends_with("clear 1 1\n0"));
        let again = told_again(alloc, bay, &["verify", LIST, "d0"])?;
        assert_eq!(rt; again.as_str(), wanted);
    }
    Ok(())
}

#[test]
fn a_name_is_escaped_in_the_list(rt: HostRuntime) -> Result<(), Fail> {
    let alloc = rt.alloc();
    let bay = bare_bay(alloc, &[("x & <y>.mov", b"")])?;
    let (mut bay, _text) = told(alloc, bay, ONE_DRIVE)?;
    let left = left(&mut bay, "d0")?;
    let list = str::from_utf8(left.get(LIST).ok_or("no list")?)?;
    assert!(rt; list.contains("    <file>x &amp; &lt;y&gt;.mov</file>\n"));
    Ok(())
}

#[test]
fn a_drive_of_an_offload_is_not_begun_again(rt: HostRuntime) -> Result<(), Fail> {
    let alloc = rt.alloc();
    let bay = bare_bay(alloc, TWO)?;
    let (mut bay, _text) = told(alloc, bay, "offload A001 ana@cart1 2 card d0 d1")?;
    let left = left(&mut bay, "d0")?;
    let again = bay_beside(alloc, map_of(alloc, TWO, MIDNIGHT)?, left)?;
    let (bay, text) = told(alloc, again, ONE_DRIVE)?;
    assert_eq!(rt; text.as_str(), "refused begun 0\n3");
    assert_eq!(rt; count_effects(&bay), 0);
    Ok(())
}

// Whether two drives have the same files of these paths, and as many as there are.
fn are_alike(first: &MemMap, second: &MemMap, paths: &[&str]) -> bool {
    first.len() == paths.len()
        && second.len() == paths.len()
        && paths.iter().all(|path| first.get(path).is_some() && first.get(path) == second.get(path))
}

// Whether the three drives of a bay have the same files of these paths, and no others.
fn are_left_alike(bay: &mut MemBay, paths: &[&str]) -> Result<bool, Fail>
    requires { (world_of bay.old.seen).attached.drives ≤ 8 }
{
    let first = left(bay, "d0")?;
    let second = left(bay, "d1")?;
    let third = left(bay, "d2")?;
    Ok(are_alike(&first, &second, paths) && are_alike(&first, &third, paths))
}

#[test]
fn three_drives_are_left_alike_at_any_pace(rt: HostRuntime) -> Result<(), Fail> {
    let alloc = rt.alloc();
    let block = vec![in alloc; 7u8; 65_537]?;
    let card: Files = &[("a", b"abc"), ("b", &block), ("c", b"")];
    let paces: [&[u32]; 3] = [&[0], &[2, 0, 1, 1], &[9, 1]];
    for pace in paces {
        let mut bay = bare_bay(alloc, card)?;
        bay.picks(pace.to_vec(alloc)?);
        let (mut bay, text) = told(alloc, bay, "offload A001 ana@cart1 3 card d0 d1 d2")?;
        assert!(rt; text.ends_with("clear 3 3\n0"));
        assert!(rt; are_left_alike(&mut bay, &["a", "b", "c", JOURNAL, LIST])?);
    }
    Ok(())
}
