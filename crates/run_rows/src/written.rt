// What an offload of an empty file leaves on a drive, byte for byte.
use crate::cards::{File, JOURNAL, LIST, file_in, left_on};
use crate::orders::{FRESH, offload_from};
use crate::telling::{calls, expect_end, expect_text};
use bay_mem::MemMap;
use std::process::Abort;
use std::test::Fail;

const EMPTY: [File; 1] = [("e.mov", 0)];

const TOLD: &str = "begun 0 0 1
done 0 1 1 e.mov
sealed 0 1 A001_2014-10-24_120000.mhl
clear 1 1
Finished | 0 | -";

// The digests of an empty file, as `md5sum` and `sha1sum` print them, and XXH64 by its definition (docs/FORMATS.md, "Digests").
const TEXT: &str = "<?xml version=\"1.0\" encoding=\"UTF-8\"?>
<hashlist version=\"1.1\">
  <creatorinfo>
    <name>A001</name>
    <username>ana</username>
    <hostname>cart1</hostname>
    <tool>mhlstation 1</tool>
    <startdate>2014-10-24T12:00:00Z</startdate>
    <finishdate>2014-10-24T12:00:00Z</finishdate>
  </creatorinfo>
  <hash>
    <file>e.mov</file>
    <size>0</size>
    <lastmodificationdate>2014-10-24T00:00:00Z</lastmodificationdate>
    <md5>d41d8cd98f00b204e9800998ecf8427e</md5>
    <sha1>da39a3ee5e6b4b0d3255bfef95601890afd80709</sha1>
    <xxhash64be>ef46db3751d8e999</xxhash64be>
    <hashdate>2014-10-24T12:00:00Z</hashdate>
  </hash>
</hashlist>
";

// The code of the plan, an open gate, the record and a closed gate (docs/FORMATS.md, "Plans" and "The journal").
const BYTES: &[u8; 124] = b"MHLPLAN1\0\0\0\0\x54\x4a\x3f\x40\
    \x04A001\x03ana\x05cart1\
    \0\0\0\x01\
    \0\x05e.mov\0\0\0\0\0\0\0\0\0\0\0\0\x54\x49\x96\x80\
    \x01\0\0\0\0\0\0\0\0\0\0\0\0\
    \xd4\x1d\x8c\xd9\x8f\x00\xb2\x04\xe9\x80\x09\x98\xec\xf8\x42\x7e\
    \xda\x39\xa3\xee\x5e\x6b\x4b\x0d\x32\x55\xbf\xef\x95\x60\x18\x90\xaf\xd8\x07\x09\
    \xef\x46\xdb\x37\x51\xd8\xe9\x99\
    \0\0\0\0\x54\x4a\x3f\x40\
    \0";

// Fails unless a drive has that journal and that list, the file, and no other.
fn expect_written(rt: &impl Abort, left: &MemMap) {
    assert_eq!(rt; file_in(left, LIST), TEXT.as_bytes());
    assert_eq!(rt; file_in(left, JOURNAL), BYTES.as_slice());
    assert!(rt; left.get("e.mov") == Some(b"".as_slice()) && left.len() == 3);
}

#[test]
fn the_journal_and_the_list_of_an_empty_file(rt: HostRuntime) -> Result<(), Fail> {
    let alloc = rt.alloc();
    let (run, bay) = offload_from(&rt, alloc, &EMPTY, &FRESH, Vec::new(alloc), 1, &[])?;
    expect_text(&rt, run.plan().list().as_str(), LIST);
    // The drive is begun by 7 calls; an empty piece and the byte at the size; 8 calls record the file, 9 seal the drive, and
    // the last line is one more.
    expect_end(&rt, alloc, &run, &bay, TOLD, 27)?;
    expect_text(&rt, &calls(alloc, &bay, "card ")?, "card e.mov 0 1\n");
    expect_written(&rt, &left_on(&bay, 0)?);
    Ok(())
}
