use super::*;
use std::alloc::Global;
use std::process::Abort;
use std::test::Fail;

// A list from elsewhere: a comment, another order, upper-case digits, a kind of digest that is not read, no creator.
const ELSEWHERE: &str = "<?xml version=\"1.0\" encoding=\"UTF-8\"?>
<!-- made on set -->
<hashlist version=\"1.0\">
<hash><md5>900150983CD24FB0D6963F7D28E17F72</md5><size>3</size><file>a.mov</file></hash>
<hash><file>b.mov</file><xxhash64>123</xxhash64></hash>
</hashlist>
";

// A list in the layout of the station.
const CANONICAL: &str = "<?xml version=\"1.0\" encoding=\"UTF-8\"?>
<hashlist version=\"1.1\">
  <creatorinfo>
    <name>A001</name>
    <username>ana</username>
    <hostname>cart1</hostname>
    <tool>mhlstation 1</tool>
    <startdate>2014-10-24T12:00:00Z</startdate>
    <finishdate>2014-10-24T12:00:00Z</finishdate>
  </creatorinfo>
  <hash>
    <file>x &amp; &lt;y&gt;.mov</file>
    <size>0</size>
    <lastmodificationdate>2014-10-24T00:00:00Z</lastmodificationdate>
    <md5>d41d8cd98f00b204e9800998ecf8427e</md5>
    <sha1>da39a3ee5e6b4b0d3255bfef95601890afd80709</sha1>
    <xxhash64be>ef46db3751d8e999</xxhash64be>
    <hashdate>2014-10-24T12:00:00Z</hashdate>
  </hash>
</hashlist>
";

// The digest of `abc`.
const MD5_ABC: [u8; 16] = [
    0x90, 0x01, 0x50, 0x98, 0x3c, 0xd2, 0x4f, 0xb0, 0xd6, 0x96, 0x3f, 0x7d, 0x28, 0xe1, 0x7f, 0x72,
];

// The seconds of 2014-10-24T12:00:00Z.
const NOON: u64 = 1_414_152_000;

// Each text is refused with its error.
fn refuses(rt: &impl Abort, alloc: Global, table: &[(&str, ReadError)]) {
    for (text, error) in table {
        let read = read_list(alloc, text.as_bytes());
        assert!(rt;
            matches!(&read, Err(found) if found == error),
            "at {text:?}"
        );
    }
}

// Each content of a `hashlist` is refused with its error. The content begins at 24.
fn refuses_content(
    rt: &impl Abort,
    alloc: Global,
    table: &[(&str, ReadError)],
) -> Result<(), Fail> {
    for (content, error) in table {
        let text = format!(in alloc; "<hashlist version=\"1.1\">{content}</hashlist>")?;
        let read = read_list(alloc, text.as_bytes());
        assert!(rt;
            matches!(&read, Err(found) if found == error),
            "at {content:?}"
        );
    }
    Ok(())
}

#[test]
fn reads_a_list_from_elsewhere(rt: HostRuntime) -> Result<(), Fail> {
    let list = read_list(rt.alloc(), ELSEWHERE.as_bytes())?;
    assert!(rt; list.creator.name.is_none() && list.creator.started.is_none());
    assert_eq!(rt; list.entries.len(), 2);
    let (a, b) = (&list.entries[0], &list.entries[1]);
    assert_eq!(rt; a.path.as_str(), "a.mov");
    assert_eq!(rt; a.size, Some(3));
    assert_eq!(rt; a.md5, Some(MD5_ABC));
    assert!(rt; a.sha1.is_none() && a.xxh.is_none() && a.modified.is_none() && a.hashed.is_none());
    assert_eq!(rt; b.path.as_str(), "b.mov");
    assert!(rt; b.size.is_none() && b.md5.is_none() && b.sha1.is_none() && b.xxh.is_none());
    Ok(())
}

#[test]
fn reads_its_own_layout(rt: HostRuntime) -> Result<(), Fail> {
    let list = read_list(rt.alloc(), CANONICAL.as_bytes())?;
    let creator = &list.creator;
    assert_eq!(rt;
        creator.name.as_ref().map(|note| note.as_str()),
        Some("A001")
    );
    assert_eq!(rt;
        creator.tool.as_ref().map(|note| note.as_str()),
        Some("mhlstation 1")
    );
    assert_eq!(rt; creator.finished.map(|moment| moment.seconds()), Some(NOON));
    assert_eq!(rt; list.entries.len(), 1);
    let entry = &list.entries[0];
    assert_eq!(rt; entry.path.as_str(), "x & <y>.mov");
    assert_eq!(rt;
        entry.modified.map(|moment| moment.seconds()),
        Some(NOON - 43_200)
    );
    Ok(())
}

#[test]
fn takes_no_cut_but_of_white_space_at_the_end(rt: HostRuntime) {
    let bytes = ELSEWHERE.as_bytes();
    for len in 0..bytes.len() {
        let (cut, _) = bytes.split_at(len);
        let taken = read_list(rt.alloc(), cut).is_ok();
        assert_eq!(rt; taken, len == bytes.len() - 1, "at {len}");
    }
}

#[test]
fn takes_what_the_profile_allows(rt: HostRuntime) -> Result<(), Fail> {
    let table = [
        "<hashlist version=\"1.1\"/>",
        "\u{feff}<?xml?>\r\n<hashlist a='' version = '1.' version='2'\n></hashlist >\r\n<!-- -- --><?x ?>",
        "<hashlist version='1.x'><x:hash><hash/>&amp;&#9;x<!----><?a?></x:hash></hashlist>",
        "<hashlist version='1.1'><Hash>\u{e9}]]></Hash><\u{e9}t\u{e9} _a:b-c.d9=\"'>\"/></hashlist>",
    ];
    for text in table {
        let list = read_list(rt.alloc(), text.as_bytes())?;
        assert_eq!(rt; list.entries.len(), 0, "at {text:?}");
    }
    Ok(())
}

#[test]
fn replaces_references(rt: HostRuntime) -> Result<(), Fail> {
    let text =
        "<hashlist version='1.1'><hash><file>&lt;&gt;&amp;&quot;&apos;&#65;&#x42;&#0067;&#x10FFFD; </file></hash></hashlist>";
    let list = read_list(rt.alloc(), text.as_bytes())?;
    assert_eq!(rt; list.entries.len(), 1);
    assert_eq!(rt; list.entries[0].path.as_str(), "<>&\"'ABC\u{10fffd} ");
    Ok(())
}

#[test]
fn keeps_the_first_leaf_of_the_first_creator(rt: HostRuntime) -> Result<(), Fail> {
    let text = "<hashlist version='1.1'>
        <creatorinfo><name> \tA1\r\n</name><name>B<c/></name><startdate>24 Oct 2014</startdate><tool>a\u{7f}</tool><x>y</x></creatorinfo>
        <creatorinfo><username>ana</username></creatorinfo>
        <hash><hashdate> 2014-10-24T12:00:00Z </hashdate><size> 007 </size><file>a</file><lastmodificationdate/></hash>
        </hashlist>";
    let list = read_list(rt.alloc(), text.as_bytes())?;
    assert_eq!(rt; list.entries.len(), 1);
    let (creator, entry) = (&list.creator, &list.entries[0]);
    assert_eq!(rt; creator.name.as_ref().map(|note| note.as_str()), Some("A1"));
    assert!(rt; creator.username.is_none() && creator.started.is_none() && creator.tool.is_none());
    assert_eq!(rt; entry.hashed.map(|moment| moment.seconds()), Some(NOON));
    assert_eq!(rt; entry.size, Some(7));
    assert!(rt; entry.modified.is_none());
    Ok(())
}

#[test]
fn refuses_other_documents(rt: HostRuntime) {
    use ReadError::{Doctype, Malformed, Version};
    let table = [
        ("", Malformed { at: 0 }),
        (" \n ", Malformed { at: 3 }),
        ("x<hashlist version='1.1'/>", Malformed { at: 0 }),
        (
            "\u{feff}\u{feff}<hashlist version='1.1'/>",
            Malformed { at: 3 },
        ),
        ("<list version='1.1'/>", Malformed { at: 0 }),
        ("<x:hashlist version='1.1'/>", Malformed { at: 0 }),
        ("<hashlist/>", Version),
        ("<hashlist version='2.1'/>", Version),
        ("<hashlist version='1'/>", Version),
        ("<hashlist Version='1.1'/>", Version),
        ("<hashlist version='2' version='1.1'/>", Version),
        ("<hashlist version=\"1.1\">", Malformed { at: 24 }),
        ("<hashlist version=\"1.1\"></hashlis", Malformed { at: 24 }),
        ("<hashlist version=\"1.1\"/><a/>", Malformed { at: 25 }),
        ("<hashlist version=\"1.1\"/> x", Malformed { at: 26 }),
        (
            "<hashlist version=\"1.1\"></hashlist></hashlist>",
            Malformed { at: 35 },
        ),
        (
            "<!DOCTYPE hashlist><hashlist version=\"1.1\"/>",
            Doctype { at: 0 },
        ),
        ("<hashlist version=\"2\"/>\u{b}", Malformed { at: 23 }),
        ("<hashlist version=\"2\"/>\u{fffe}", Malformed { at: 23 }),
    ];
    refuses(&rt, rt.alloc(), &table);
    let read = read_list(rt.alloc(), b"\x01<hashlist version=\"2\"/>\xff");
    assert!(rt; matches!(read, Err(ReadError::NotUtf8 { at: 24 })));
}

#[test]
fn refuses_other_content(rt: HostRuntime) -> Result<(), Fail> {
    use ReadError::{BadDigest, BadPath, BadSize, Cdata, Doctype, Malformed, NoFile, Twice};
    let table = [
        ("x", Malformed { at: 24 }),
        (" \n\tx", Malformed { at: 27 }),
        ("&#32;", Malformed { at: 24 }),
        ("<a>&b;</a>", Malformed { at: 27 }),
        ("<a>&</a>", Malformed { at: 27 }),
        ("<a>&#0;</a>", Malformed { at: 27 }),
        ("<!-- -- ", Malformed { at: 24 }),
        ("<?x", Malformed { at: 24 }),
        ("<a></b>", Malformed { at: 27 }),
        ("</a>", Malformed { at: 24 }),
        ("< a/>", Malformed { at: 24 }),
        ("<a b=c/>", Malformed { at: 24 }),
        ("<a b='<'/>", Malformed { at: 24 }),
        ("<1/>", Malformed { at: 24 }),
        ("<!DOCTYPE a>", Doctype { at: 24 }),
        ("<![CDATA[x]]>", Cdata { at: 24 }),
        ("<hash></hash>", NoFile { at: 24 }),
        ("<hash/>", NoFile { at: 24 }),
        ("<hash>x</hash>", Malformed { at: 30 }),
        (
            "<hash><file>a</file></hash><hash><file>a</file></hash>",
            Twice { at: 57 },
        ),
        ("<hash><file>../x</file></hash>", BadPath { at: 30 }),
        ("<hash><file/></hash>", BadPath { at: 30 }),
        ("<hash><file>a&#127;</file></hash>", BadPath { at: 30 }),
        ("<hash><size></size></hash>", BadSize { at: 30 }),
        ("<hash><size>+5</size></hash>", BadSize { at: 30 }),
        (
            "<hash><size>18446744073709551616</size></hash>",
            BadSize { at: 30 },
        ),
        ("<hash><md5>90</md5></hash>", BadDigest { at: 30 }),
        ("<hash><sha1>90</sha1></hash>", BadDigest { at: 30 }),
        (
            "<hash><xxhash64be>ef46db3751d8e99g</xxhash64be></hash>",
            BadDigest { at: 30 },
        ),
        ("<hash><file>a<b/></file></hash>", Malformed { at: 37 }),
        ("<hash><file>a<!-- --></file></hash>", Malformed { at: 37 }),
        ("<hash><file>a<?x?></file></hash>", Malformed { at: 37 }),
        ("<hash><file>a<!DOCTYPE></file></hash>", Doctype { at: 37 }),
        ("<hash><file>a<![CDATA[]]></file></hash>", Cdata { at: 37 }),
        ("<creatorinfo>x</creatorinfo>", Malformed { at: 37 }),
        (
            "<creatorinfo><name>a<b/></name></creatorinfo>",
            Malformed { at: 44 },
        ),
    ];
    refuses_content(&rt, rt.alloc(), &table)
}

#[test]
fn refuses_each_leaf_of_a_hash_twice(rt: HostRuntime) -> Result<(), Fail> {
    let leaves = [
        "<file>a</file>",
        "<size>1</size>",
        "<lastmodificationdate/>",
        "<hashdate/>",
        "<md5>900150983cd24fb0d6963f7d28e17f72</md5>",
        "<sha1>a9993e364706816aba3e25717850c26c9cd0d89d</sha1>",
        "<xxhash64be>44bc2cf5ad770999</xxhash64be>",
    ];
    for leaf in leaves {
        let content = format!(in rt.alloc(); "<hash>{leaf}{leaf}</hash>")?;
        let at = 30 + leaf.len() as u64;
        refuses_content(
            &rt,
            rt.alloc(),
            &[(content.as_str(), ReadError::Malformed { at })],
        )?;
    }
    Ok(())
}

#[test]
fn refuses_elements_more_than_32_deep(rt: HostRuntime) -> Result<(), Fail> {
    let (open, close) = (
        "<a>".repeat(rt.alloc(), 31)?,
        "</a>".repeat(rt.alloc(), 31)?,
    );
    let text = format!(in rt.alloc(); "<hashlist version=\"1.1\">{open}{close}</hashlist>")?;
    assert!(rt; read_list(rt.alloc(), text.as_bytes()).is_ok());
    let deeper = format!(in rt.alloc(); "{open}<a>")?;
    refuses_content(
        &rt,
        rt.alloc(),
        &[(deeper.as_str(), ReadError::Malformed { at: 117 })],
    )?;
    let within = format!(in rt.alloc(); "<hash>{open}")?;
    refuses_content(
        &rt,
        rt.alloc(),
        &[(within.as_str(), ReadError::Malformed { at: 120 })],
    )
}

#[test]
fn refuses_more_entries_than_a_list_has(rt: HostRuntime) -> Result<(), Fail> {
    let mut text = "<hashlist version=\"1.1\">".to_owned(rt.alloc())?;
    for i in 0..262_144u32 {
        let n = 100_000 + i;
        text.push_str(&format!(in rt.alloc(); "<hash><file>{n}</file></hash>")?)?;
    }
    let whole = format!(in rt.alloc(); "{text}</hashlist>")?;
    let list = read_list(rt.alloc(), whole.as_bytes())?;
    assert_eq!(rt; list.entries.len(), 262_144);
    text.push_str("<hash/>")?;
    let read = read_list(rt.alloc(), text.as_bytes());
    assert!(rt; matches!(read, Err(ReadError::TooMany { at: 8_388_632 })));
    Ok(())
}
