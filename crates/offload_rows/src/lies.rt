// Runs over a drive that shows a byte falsely, and over a card that lists another size.
use crate::bays::{LIST, NEW, ONE, ONE_DRIVE, PART, bare_bay, count_effects, failure, left, told};
use bay_mem::MemBay;
use std::test::Fail;

// Drive 0 shows the first byte of its part as 0x60. The digests of abc, and of the bytes 0x60, 0x62, 0x63, as `md5sum` and
// `sha1sum` print them, and XXH64 by its definition (docs/FORMATS.md, "Digests").
const ALTERED: &str = "begun 0 0 1
dropped 0 altered 900150983cd24fb0d6963f7d28e17f72 a9993e364706816aba3e25717850c26c9cd0d89d 44bc2cf5ad770999 1b353c2437eabaca223937973c684474 885e43e86d71878441d4f5bbb98feba890c007be 4e23cb2c634e9432 a.mov
1";

// Drive 0 shows the first byte of its list, `<`, as `=`.
const BYTE: &str = "begun 0 0 1
done 0 1 1 a.mov
dropped 0 byte 0 60 61 A001_2014-10-24_120000.mhl
1";

const BYTE_OF_TWO: &str = "begun 0 0 1
begun 1 0 1
done 0 1 1 a.mov
done 1 1 1 a.mov
dropped 0 byte 0 60 61 A001_2014-10-24_120000.mhl
sealed 1 1 A001_2014-10-24_120000.mhl
clear 1 1
1";

// Whether a call on the card or a drive failed.
fn has_failure(bay: &MemBay) -> bool {
    bay.events().iter().any(|event| failure(event).is_some())
}

#[test]
fn a_byte_is_shown_falsely(rt: HostRuntime) -> Result<(), Fail> {
    let alloc = rt.alloc();
    // The file whose first byte is shown falsely, the words, what is said, and what drive 0 does not get.
    let rows = [
        (PART, ONE_DRIVE, ALTERED, "a.mov"),
        (NEW, ONE_DRIVE, BYTE, LIST),
        (
            NEW,
            "offload A001 ana@cart1 1 card d0 d1",
            BYTE_OF_TWO,
            LIST,
        ),
    ];
    for (path, words, wanted, absent) in rows {
        let mut bay = bare_bay(alloc, ONE)?;
        bay.flip(0, path, 0)?;
        let (mut bay, text) = told(alloc, bay, words)?;
        assert_eq!(rt; text.as_str(), wanted);
        assert!(rt; !has_failure(&bay));
        let left = left(&mut bay, "d0")?;
        assert!(rt; left.get(absent).is_none());
    }
    Ok(())
}

#[test]
fn a_card_lists_another_size(rt: HostRuntime) -> Result<(), Fail> {
    let alloc = rt.alloc();
    // A size that no file may have is refused before any change.
    let rows = [
        (4, "begun 0 0 1\nfailed card changed 4 3 a.mov\n4"),
        (2, "begun 0 0 1\nfailed card changed 2 3 a.mov\n4"),
        (0, "begun 0 0 1\nfailed card changed 0 1 a.mov\n4"),
        (281_474_976_710_656, "refused toobig a.mov\n3"),
    ];
    for (size, wanted) in rows {
        let mut bay = bare_bay(alloc, ONE)?;
        bay.list_as(0, "a.mov", size)?;
        let (bay, text) = told(alloc, bay, ONE_DRIVE)?;
        assert_eq!(rt; text.as_str(), wanted);
        assert_eq!(rt; count_effects(&bay) == 0, wanted.starts_with("refused"));
    }
    Ok(())
}
