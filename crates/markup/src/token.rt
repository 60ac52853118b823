//! Taking a token from the front of a document.
ghost use Rattle.std.specs.Prelude.{◌≡◌, ◌<◌, [], ◌∷◌, length, MatchResult, option_map};
ghost use Rattle.std.specs.Option.{option_or};
ghost use Rattle.markup.specs.Mark.{first_value};
ghost use Rattle.markup.specs.Taking.{attributes_of, reference_at};
ghost use Rattle.markup.specs.Token.{Takes, NoPiece, error_at, Finds, marks_seen};

use crate::reference::referred_character;
use crate::scan::{after_word, skip_space, split_reference, split_text};
use crate::tag::{Attribute, is_closed, next_attribute, starts_with_space, tag};

/// A tag, a comment or an instruction, a reference, or a run of text.
#[derive(Clone, Copy, Debug)]
pub enum Token<'a> {
    /// A start tag: its name, and the text of its attributes.
    Start(&'a [u8], &'a [u8]),
    /// An empty tag, likewise.
    Empty(&'a [u8], &'a [u8]),
    /// An end tag: its name.
    End(&'a [u8]),
    /// A comment or an instruction.
    Aside,
    /// A reference: the character that it stands for.
    Reference(char),
    /// Text up to the next `<` or `&`.
    Text(&'a [u8]),
}

/// What stands where no token begins.
#[derive(Clone, Copy, Debug, PartialEq, Eq)]
pub enum MarkupError {
    /// Markup that is not whole or not of its rule.
    Malformed,
    /// `<!DOCTYPE`
    Doctype,
    /// `<![CDATA[`
    Cdata,
}

/// A reference, behind its `&`.
#[tactic(auto, unfolding(crate::specs::Taking::reference_at))]
fn reference(bytes: &[u8]) -> Option<(Token<'_>, &[u8])>
    ensures { Finds (λ x. (marks_seen x.0, x.1.now)) result (reference_at bytes.now) }
{
    let (text, end) = split_reference(bytes);
    let rest = after_word(end, b";")?;
    let character = referred_character(text)?;
    Some((Token::Reference(character), rest))
}

/// What stands where no piece begins.
fn error(bytes: &[u8]) -> MarkupError
    ensures { result ≡ error_at bytes.now }
{
    if bytes.starts_with(b"<!DOCTYPE") {
        return MarkupError::Doctype;
    }
    if bytes.starts_with(b"<![CDATA[") {
        return MarkupError::Cdata;
    }
    MarkupError::Malformed
}

/// The token with which the bytes begin, and the bytes behind it.
pub fn next_token(bytes: &[u8]) -> Result<(Token<'_>, &[u8]), MarkupError>
    requires { 0 < length bytes.now }
    ensures { MatchResult result (λ x. Takes bytes.now x.0 x.1.now) (λ e. NoPiece bytes.now × (e ≡ error_at bytes.now)) }
{
    let Some((first, others)) = bytes.split_first() else {
        return Err(MarkupError::Malformed);
    };
    if *first == b'<' {
        return match tag(others) {
            Some((token, rest)) => Ok((token, rest)),
            None => Err(error(bytes)),
        };
    }
    if *first == b'&' {
        return match reference(others) {
            Some((token, rest)) => Ok((token, rest)),
            None => Err(MarkupError::Malformed),
        };
    }
    let (run, rest) = split_text(bytes);
    Ok((Token::Text(run), rest))
}

/// The value that was found already, else that of an attribute of the name.
fn first_found<'a>(
    found: Option<&'a [u8]>,
    attribute: Attribute<'a>,
    name: &[u8],
) -> Option<&'a [u8]>
    ensures { option_map (λ x. x.now) result ≡ option_or (option_map (λ x. x.now) found.entry) (first_value name.now ((attribute.entry.name.now, attribute.entry.value.now) ∷ [])) }
{
    match found {
        Some(value) => Some(value),
        None if attribute.name == name => Some(attribute.value),
        None => None,
    }
}

/// The text of the first attribute of a name.
pub fn value_of<'a>(attributes: &'a [u8], name: &[u8]) -> Option<&'a [u8]>
    ensures { Finds (λ x. x.now) result (first_value name.now (attributes_of attributes.now)) }
{
    let mut rest = attributes;
    let mut found = None;
    loop {
        let inside = skip_space(rest);
        if is_closed(inside) {
            return found;
        }
        if !starts_with_space(rest) {
            return None;
        }
        let (attribute, others) = next_attribute(inside)?;
        found = first_found(found, attribute, name);
        rest = others;
    }
}
