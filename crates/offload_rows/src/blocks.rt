// A card with files that end before, at and behind the end of a block.
use crate::bays::{LIST, MIDNIGHT, ONE_DRIVE, bay_beside, left, map_of, told, told_again};
use bay_mem::MemMap;
use std::alloc::Global;
use std::test::Fail;

// A file: its path, its size and its digests.
#[derive(Clone, Copy)]
struct Sized {
    path: &'static str,
    size: usize,
    md5: &'static str,
    sha1: &'static str,
    xxh: &'static str,
}

// The files, byte j of each being j modulo 251, so that no two blocks are the same. The digests are those that `md5sum` and
// `sha1sum` print, and XXH64 by its definition (docs/FORMATS.md, "Digests").
const FILES: [Sized; 6] = [
    Sized {
        path: "a",
        size: 31,
        md5: "e9e77893ba926e732f483282f416ffac",
        sha1: "43bbacb5f62a0482cbdb564171b04365ca6e27c0",
        xxh: "c346d2b59b4d8ee1",
    },
    Sized {
        path: "b",
        size: 32,
        md5: "b4ffcb23737cec315a4a4d1aa2a620ce",
        sha1: "ae5bd8efea5322c4d9986d06680a781392f9a642",
        xxh: "cbf59c5116ff32b4",
    },
    Sized {
        path: "c",
        size: 33,
        md5: "5506a276a0a9acc3093f9169c73cf8c5",
        sha1: "eb90bce364635c4c23b49f493f0043579bc85c17",
        xxh: "0c535d1acafb8ead",
    },
    Sized {
        path: "d",
        size: 65_535,
        md5: "89378be93d51bbd3a9aa65e920103692",
        sha1: "fcdcbc0a3c69abbb021afa4a13ec39c4ad11cdb8",
        xxh: "fc26b00b70f81612",
    },
    Sized {
        path: "e",
        size: 65_536,
        md5: "9cc60713923528a1dd94e1c1ab0ebc9e",
        sha1: "fefb71740a82b94a2da3bcd2fd72fc64a7fb8666",
        xxh: "316c40df46fe2584",
    },
    Sized {
        path: "f",
        size: 65_537,
        md5: "4c2641c7fe5c93d3aed7c406629ff0ab",
        sha1: "74c69f8e2c886f87f68d52d16c30e9b4790513c9",
        xxh: "8c8e0218a8ee0fee",
    },
];

// The bytes of a file of this size.
fn bytes(alloc: Global, size: usize) -> Result<Vec<u8>, Fail> {
    let mut bytes = Vec::new(alloc);
    for j in 0..size {
        bytes.push((j % 251) as u8)?;
    }
    Ok(bytes)
}

fn card(alloc: Global) -> Result<MemMap, Fail> {
    let mut card = MemMap::new(alloc);
    for file in FILES {
        card.add(file.path, &bytes(alloc, file.size)?, MIDNIGHT)?;
    }
    Ok(card)
}

// The list of these files up to its first entry.
const HEAD: &str = "<?xml version=\"1.0\" encoding=\"UTF-8\"?>
<hashlist version=\"1.1\">
  <creatorinfo>
    <name>A001</name>
    <username>ana</username>
    <hostname>cart1</hostname>
    <tool>mhlstation 1</tool>
    <startdate>2014-10-24T12:00:00Z</startdate>
    <finishdate>2014-10-24T12:00:00Z</finishdate>
  </creatorinfo>
";

fn entry(alloc: Global, file: &Sized) -> Result<String, Fail> {
    let Sized {
        path,
        size,
        md5,
        sha1,
        xxh,
    } = file;
    Ok(format!(in alloc;
        "  <hash>
    <file>{path}</file>
    <size>{size}</size>
    <lastmodificationdate>2014-10-24T00:00:00Z</lastmodificationdate>
    <md5>{md5}</md5>
    <sha1>{sha1}</sha1>
    <xxhash64be>{xxh}</xxhash64be>
    <hashdate>2014-10-24T12:00:00Z</hashdate>
  </hash>
"
    )?)
}

fn list(alloc: Global) -> Result<String, Fail> {
    let mut list = HEAD.to_owned(alloc)?;
    for file in &FILES {
        list.push_str(entry(alloc, file)?.as_str())?;
    }
    list.push_str("</hashlist>\n")?;
    Ok(list)
}

const SIX_FILES: &str = "begun 0 0 6
done 0 1 6 a
done 0 2 6 b
done 0 3 6 c
done 0 4 6 d
done 0 5 6 e
done 0 6 6 f
sealed 0 6 A001_2014-10-24_120000.mhl
clear 1 1
0";

const GOOD: &str = "verdict good 6 entries 0 missing 0 altered 0 unchecked 0 unlisted\n0";

#[test]
fn files_at_the_ends_of_blocks_are_copied(rt: HostRuntime) -> Result<(), Fail> {
    let alloc = rt.alloc();
    let wanted = list(alloc)?;
    for limit in [usize::MAX, 1000] {
        let mut bay = bay_beside(alloc, card(alloc)?, MemMap::new(alloc))?;
        bay.cut_reads(limit);
        let (mut bay, text) = told(alloc, bay, ONE_DRIVE)?;
        assert_eq!(rt; text.as_str(), SIX_FILES);
        let left = left(&mut bay, "d0")?;
        assert!(rt; left.get(LIST) == Some(wanted.as_bytes()));
        let again = told_again(alloc, bay, &["verify", LIST, "d0"])?;
        assert_eq!(rt; again.as_str(), GOOD);
    }
    Ok(())
}
