// Runs that copy a card well.
use crate::bays::{Files, ONE, ONE_DRIVE, TWO, bare_bay, told};
use bay_core::Event;
use bay_mem::MemBay;
use std::alloc::Global;
use std::test::Fail;

const TO_ONE: &str = "begun 0 0 2
done 0 1 2 a.mov
done 0 2 2 b.mov
sealed 0 2 A001_2014-10-24_120000.mhl
clear 1 1
0";

const TO_TWO: &str = "begun 0 0 2
begun 1 0 2
done 0 1 2 a.mov
done 1 1 2 a.mov
done 0 2 2 b.mov
done 1 2 2 b.mov
sealed 0 2 A001_2014-10-24_120000.mhl
sealed 1 2 A001_2014-10-24_120000.mhl
clear 2 2
0";

// The drives are numbered in the order of the words, and fewer copies than drives are required.
const TO_MORE: &str = "begun 0 0 1
begun 1 0 1
done 0 1 1 a.mov
done 1 1 1 a.mov
sealed 0 1 B-2_2014-10-24_120000.mhl
sealed 1 1 B-2_2014-10-24_120000.mhl
clear 2 1
0";

#[test]
fn a_card_is_copied(rt: HostRuntime) -> Result<(), Fail> {
    let alloc = rt.alloc();
    let rows: [(Files, &str, &str); 3] = [
        (TWO, ONE_DRIVE, TO_ONE),
        (TWO, "offload A001 ana@cart1 2 card d0 d1", TO_TWO),
        (ONE, "offload B-2 dit@cart1 1:xxh card d2 d0", TO_MORE),
    ];
    for (card, words, wanted) in rows {
        let (_bay, text) = told(alloc, bare_bay(alloc, card)?, words)?;
        assert_eq!(rt; text.as_str(), wanted);
    }
    Ok(())
}

// The reads of the card, each by its path, its place, and how many bytes were asked for.
fn card_reads(alloc: Global, bay: &MemBay) -> Result<String, Fail> {
    let mut text = String::new(alloc);
    for event in bay.events() {
        if let Event::SourceRead { path, at, want, .. } = event {
            let path = str::from_utf8(path.as_slice())?;
            text.push_str(format!(in alloc; "{path} {at} {want}\n")?.as_str())?;
        }
    }
    Ok(text)
}

#[test]
fn a_file_without_bytes_takes_one_read_of_one_byte(rt: HostRuntime) -> Result<(), Fail> {
    let alloc = rt.alloc();
    let bay = bare_bay(alloc, &[("e.mov", b"")])?;
    let (bay, _text) = told(alloc, bay, ONE_DRIVE)?;
    assert_eq!(rt; card_reads(alloc, &bay)?.as_str(), "e.mov 0 1\n");
    Ok(())
}
