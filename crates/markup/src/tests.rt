use super::*;

// What stands at the front; of no bytes, nothing does.
fn taken(text: &str) -> Result<(Token<'_>, &[u8]), MarkupError> {
    let bytes = text.as_bytes();
    if bytes.is_empty() {
        Err(MarkupError::Malformed)
    } else {
        next_token(bytes)
    }
}

// The kind of a token that is a tag, its name and the value of one attribute, and what follows it.
#[derive(Clone, Copy, Debug, PartialEq, Eq)]
struct Tag<'a> {
    is_empty: bool,
    name: &'a [u8],
    value: Option<&'a [u8]>,
    rest: &'a [u8],
}

fn tag_taken<'a>(text: &'a str, attribute: &str) -> Option<Tag<'a>> {
    match taken(text) {
        Ok((Token::Start(name, attributes), rest)) => {
            Some(Tag {
                is_empty: false,
                name,
                value: value_of(attributes, attribute.as_bytes()),
                rest,
            })
        }
        Ok((Token::Empty(name, attributes), rest)) => {
            Some(Tag {
                is_empty: true,
                name,
                value: value_of(attributes, attribute.as_bytes()),
                rest,
            })
        }
        _ => None,
    }
}

fn end_taken(text: &str) -> Option<(&[u8], &[u8])> {
    match taken(text) {
        Ok((Token::End(name), rest)) => Some((name, rest)),
        _ => None,
    }
}

fn aside_taken(text: &str) -> Option<&[u8]> {
    match taken(text) {
        Ok((Token::Aside, rest)) => Some(rest),
        _ => None,
    }
}

fn reference_taken(text: &str) -> Option<(char, &[u8])> {
    match taken(text) {
        Ok((Token::Reference(character), rest)) => Some((character, rest)),
        _ => None,
    }
}

fn text_taken(text: &str) -> Option<(&[u8], &[u8])> {
    match taken(text) {
        Ok((Token::Text(run), rest)) => Some((run, rest)),
        _ => None,
    }
}

fn error_met(text: &str) -> Option<MarkupError> {
    match taken(text) {
        Ok(_) => None,
        Err(error) => Some(error),
    }
}

#[test]
fn takes_tags(rt: HostRuntime) {
    // The text; whether the tag is empty, its name, the value of its attribute b, and what follows it.
    let table = [
        ("<a>x", false, "a", None, "x"),
        ("<a >", false, "a", None, ""),
        ("<a\t\n\r >", false, "a", None, ""),
        ("<a/>x", true, "a", None, "x"),
        ("<a />", true, "a", None, ""),
        ("<a b=\"c\">", false, "a", Some("c"), ""),
        ("<a b='c'/>", true, "a", Some("c"), ""),
        ("<a b = \"c\"/>", true, "a", Some("c"), ""),
        ("<a\tb\n=\r'c' >", false, "a", Some("c"), ""),
        ("<a b=\"\">", false, "a", Some(""), ""),
        (
            "<a b=\"it's > &amp; /\">",
            false,
            "a",
            Some("it's > &amp; /"),
            "",
        ),
        ("<a b='\"'>", false, "a", Some("\""), ""),
        ("<a d=\"e\" b=\"c\" f='g'>", false, "a", Some("c"), ""),
        ("<a:b-c.d_1>", false, "a:b-c.d_1", None, ""),
        ("<_>", false, "_", None, ""),
        ("<\u{e9}t\u{e9}>", false, "\u{e9}t\u{e9}", None, ""),
    ];
    for (text, is_empty, name, value, rest) in table {
        let value = match value {
            Some(value) => Some(value.as_bytes()),
            None => None,
        };
        let tag = Tag {
            is_empty,
            name: name.as_bytes(),
            value,
            rest: rest.as_bytes(),
        };
        assert!(rt; tag_taken(text, "b") == Some(tag), "at {text:?}");
    }
}

#[test]
fn takes_ends_asides_references_and_text(rt: HostRuntime) {
    for (text, name, rest) in [
        ("</a>x", "a", "x"),
        ("</a >", "a", ""),
        ("</a\r\n>", "a", ""),
        ("</a:b></c>", "a:b", "</c>"),
    ] {
        assert!(rt;
            end_taken(text) == Some((name.as_bytes(), rest.as_bytes())),
            "at {text:?}"
        );
    }
    let asides = [
        ("<!-- a -->x", "x"),
        ("<!---->", ""),
        ("<!--a--b--->", ""),
        ("<!-- <a> & -->-->", "-->"),
        ("<?xml version=\"1.0\"?>x", "x"),
        ("<??>", ""),
        ("<?a ? > ?>", ""),
    ];
    for (text, rest) in asides {
        assert!(rt; aside_taken(text) == Some(rest.as_bytes()), "at {text:?}");
    }
    let references = [
        ("&amp;x", '&', "x"),
        ("&lt;", '<', ""),
        ("&gt;", '>', ""),
        ("&quot;", '"', ""),
        ("&apos;", '\'', ""),
        ("&#65;;", 'A', ";"),
        ("&#0065;", 'A', ""),
        ("&#x1f600;", '\u{1f600}', ""),
        ("&#x1F600;", '\u{1f600}', ""),
        ("&#x10FFFF;", '\u{10ffff}', ""),
    ];
    for (text, character, rest) in references {
        assert!(rt;
            reference_taken(text) == Some((character, rest.as_bytes())),
            "at {text:?}"
        );
    }
    let texts = [
        ("a", "a", ""),
        ("a b\n<c>", "a b\n", "<c>"),
        ("a&lt;", "a", "&lt;"),
        (">]]>;\"", ">]]>;\"", ""),
        ("\u{e9}<", "\u{e9}", "<"),
    ];
    for (text, run, rest) in texts {
        assert!(rt;
            text_taken(text) == Some((run.as_bytes(), rest.as_bytes())),
            "at {text:?}"
        );
    }
}

#[test]
fn refuses_other_markup(rt: HostRuntime) {
    let malformed = [
        "<", "<>", "< a>", "<a", "<a ", "<a/", "<a/ >", "<a//>", "<a<", "<1a>", "<-a>", "<:a>",
        "<.a>", "<a&>",
    ];
    for text in malformed {
        assert_eq!(rt;
            error_met(text),
            Some(MarkupError::Malformed),
            "at {text:?}"
        );
    }
    let attributes = [
        "<a b>",
        "<a b=>",
        "<a b=c>",
        "<a b=\"c>",
        "<a b=\"c'>",
        "<a b='c\">",
        "<a b=\"c\"d=\"e\">",
        "<a b=\"<\">",
        "<a=\"c\">",
        "<a b:=\"c\" =\"e\">",
        "<a 1=\"c\">",
        "<a b=\"c\" / >",
    ];
    for text in attributes {
        assert_eq!(rt;
            error_met(text),
            Some(MarkupError::Malformed),
            "at {text:?}"
        );
    }
    let others = [
        "</",
        "</>",
        "</ a>",
        "</a",
        "</a/>",
        "</a b=\"c\">",
        "</1>",
        "<!-->",
        "<!--->",
        "<!--a--",
        "<!-",
        "<!",
        "<!- a -->",
        "<?",
        "<?>",
        "<?a>",
        "<!ELEMENT a>",
        "<!doctype a>",
        "<!DOCTYP",
        "<![cdata[",
        "<![CDATA",
        "<!>",
    ];
    for text in others {
        assert_eq!(rt;
            error_met(text),
            Some(MarkupError::Malformed),
            "at {text:?}"
        );
    }
    let references = [
        "&",
        "&;",
        "&amp",
        "&amp ;",
        "&AMP;",
        "&nbsp;",
        "& amp;",
        "&#;",
        "&#x;",
        "&#X41;",
        "&#0;",
        "&#8;",
        "&#xD800;",
        "&#xFFFE;",
        "&#1114112;",
        "&#x110000;",
        "&#6a;",
        "&a<;",
    ];
    for text in references {
        assert_eq!(rt;
            error_met(text),
            Some(MarkupError::Malformed),
            "at {text:?}"
        );
    }
    for text in ["<!DOCTYPE", "<!DOCTYPE a>", "<!DOCTYPEa"] {
        assert_eq!(rt; error_met(text), Some(MarkupError::Doctype), "at {text:?}");
    }
    for text in ["<![CDATA[", "<![CDATA[a]]>"] {
        assert_eq!(rt; error_met(text), Some(MarkupError::Cdata), "at {text:?}");
    }
}

#[test]
fn finds_values(rt: HostRuntime) {
    // The text of attributes, a name, and the value of the first attribute of that name.
    let table = [
        ("", "b", None),
        (" b=\"c\"", "a", None),
        (" b=\"c\"", "b", Some("c")),
        (" b='c'", "b", Some("c")),
        (" b=\"1\" b='2'", "b", Some("1")),
        (" a=\"1\"\tb = '2'\n", "b", Some("2")),
        (" ab=\"1\" a='2'", "a", Some("2")),
        (" B=\"1\"", "b", None),
        (" b=\"1\" c", "b", None),
        ("b=\"1\"", "b", None),
    ];
    for (attributes, name, value) in table {
        let value = match value {
            Some(value) => Some(value.as_bytes()),
            None => None,
        };
        assert!(rt;
            value_of(attributes.as_bytes(), name.as_bytes()) == value,
            "at {attributes:?}"
        );
    }
}
