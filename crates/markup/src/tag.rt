//! Tags, comments and instructions.
ghost use Rattle.std.specs.Prelude.{◌≡◌, ◌==◌, ◌++◌, codes, ◌||◌, suc, length, option_map};
ghost use Rattle.markup.specs.Taking.{quoted_at, attribute_at, attributes_at, attributes_of, ends_tag, begins_space, opening_at, closing_at, aside_at, tag_at};
ghost use Rattle.markup.specs.Token.{Finds, marks_seen};

use crate::scan::{after_word, behind, is_white_space, next_name, skip_space, split_value};
use crate::token::Token;

/// An attribute of a tag: its name, and its text without the quotes.
#[derive(Clone, Copy)]
pub struct Attribute<'a> {
    pub name: &'a [u8],
    pub value: &'a [u8],
}

/// Whether this byte is a quote of either kind.
fn is_quote(b: u8) -> bool
    ensures { result ≡ (b == 34 || b == 39) }
{
    matches!(b, b'"' | b'\'')
}

/// The attribute of this name whose text in quotes begins the bytes, and the bytes behind it.
fn quoted<'a>(name: &'a [u8], bytes: &'a [u8]) -> Option<(Attribute<'a>, &'a [u8])>
    ensures { Finds (λ x. ((x.0.name.now, x.0.value.now), x.1.now)) result (quoted_at name.now bytes.now) }
{
    let (quote, others) = bytes.split_first()?;
    if !is_quote(*quote) {
        return None;
    }
    let (value, end) = split_value(others, *quote);
    let rest = after_word(end, &[*quote])?;
    Some((Attribute { name, value }, rest))
}

/// The attribute that begins the bytes, behind white space, and the bytes behind it.
#[tactic(auto, unfolding(crate::specs::Taking::attribute_at))]
pub fn next_attribute(bytes: &[u8]) -> Option<(Attribute<'_>, &[u8])>
    ensures { Finds (λ x. ((x.0.name.now, x.0.value.now), x.1.now)) result (attribute_at bytes.now) }
{
    let (name, rest) = next_name(skip_space(bytes))?;
    let value = after_word(skip_space(rest), b"=")?;
    quoted(name, skip_space(value))
}

/// Whether the bytes begin with `>` or `/`, the ends of a tag.
fn is_tag_end(bytes: &[u8]) -> bool
    ensures { result ≡ ends_tag bytes.now }
{
    match bytes.first() {
        Some(b) => matches!(*b, b'>' | b'/'),
        None => false,
    }
}

/// Whether no more attributes follow in a text of attributes: it is over, or `>` or `/` begins the bytes.
pub fn is_closed(bytes: &[u8]) -> bool
    ensures { result ≡ ends_tag (bytes.now ++ codes ">") }
{
    match bytes.first() {
        Some(b) => matches!(*b, b'>' | b'/'),
        None => true,
    }
}

/// Whether the bytes begin with white space.
pub fn starts_with_space(bytes: &[u8]) -> bool
    ensures { result ≡ begins_space bytes.now }
{
    match bytes.first() {
        Some(b) => is_white_space(*b),
        None => false,
    }
}

/// What stands behind the attributes that begin the bytes: white space or none, and `>` or `/`.
fn behind_attributes(bytes: &[u8]) -> Option<&[u8]>
    ensures { Finds (λ x. x.now) result (option_map (λ x. x.1) (attributes_at (suc (length bytes.now)) bytes.now)) }
{
    let mut rest = bytes;
    loop {
        let inside = skip_space(rest);
        if is_tag_end(inside) {
            return Some(rest);
        }
        if !starts_with_space(rest) {
            return None;
        }
        let (_, others) = next_attribute(inside)?;
        rest = others;
    }
}

/// The text of the attributes that begin the bytes, and the bytes behind them.
fn attributes(bytes: &[u8]) -> Option<(&[u8], &[u8])>
    ensures { Finds (λ x. (attributes_of x.0.now, x.1.now)) result (attributes_at (suc (length bytes.now)) bytes.now) }
{
    let rest = behind_attributes(bytes)?;
    Some(bytes.split_at(bytes.len() - rest.len()))
}

/// A start tag or an empty tag, behind its `<`.
#[tactic(auto, unfolding(crate::specs::Taking::opening_at, crate::specs::Taking::closed_at))]
fn opening(bytes: &[u8]) -> Option<(Token<'_>, &[u8])>
    ensures { Finds (λ x. (marks_seen x.0, x.1.now)) result (opening_at bytes.now) }
{
    let (name, inside) = next_name(bytes)?;
    let (attributes, end) = attributes(inside)?;
    let end = skip_space(end);
    if let Some(rest) = after_word(end, b">") {
        return Some((Token::Start(name, attributes), rest));
    }
    let rest = after_word(end, b"/>")?;
    Some((Token::Empty(name, attributes), rest))
}

/// An end tag, behind its `</`.
#[tactic(auto, unfolding(crate::specs::Taking::closing_at))]
fn closing(bytes: &[u8]) -> Option<(Token<'_>, &[u8])>
    ensures { Finds (λ x. (marks_seen x.0, x.1.now)) result (closing_at bytes.now) }
{
    let (name, rest) = next_name(bytes)?;
    let rest = after_word(skip_space(rest), b">")?;
    Some((Token::End(name), rest))
}

/// A comment or an instruction, up to its end mark.
#[tactic(auto, unfolding(crate::specs::Taking::aside_at))]
fn aside<'a>(bytes: &'a [u8], mark: &[u8]) -> Option<(Token<'a>, &'a [u8])>
    ensures { Finds (λ x. (marks_seen x.0, x.1.now)) result (aside_at mark.now bytes.now) }
{
    let rest = behind(bytes, mark)?;
    Some((Token::Aside, rest))
}

/// A tag, a comment or an instruction, behind its `<`.
#[tactic(auto, unfolding(crate::specs::Taking::tag_at))]
pub fn tag(bytes: &[u8]) -> Option<(Token<'_>, &[u8])>
    ensures { Finds (λ x. (marks_seen x.0, x.1.now)) result (tag_at bytes.now) }
{
    if let Some(rest) = after_word(bytes, b"/") {
        return closing(rest);
    }
    if let Some(rest) = after_word(bytes, b"!--") {
        return aside(rest, b"-->");
    }
    if let Some(rest) = after_word(bytes, b"?") {
        return aside(rest, b"?>");
    }
    opening(bytes)
}
