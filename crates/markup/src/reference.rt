//! What a reference stands for.
ghost use Rattle.std.specs.Prelude.{◌≡◌, ◌≤◌, min};
ghost use Rattle.std.specs.Char.{is_digit};
ghost use Rattle.std.specs.Option.{option_map};
ghost use Rattle.markup.specs.Characters.{is_allowed};
ghost use Rattle.markup.specs.Piece.{allowed, number_referred, numeral, referred, referred_by_number};
ghost use Rattle.markup.specs.Token.{Finds};

use std::char;

// One more than the number of the last character.
const PAST_CHARACTERS: u32 = 0x11_0000;

/// The character that a reference stands for, by what stands between `&` and `;`: one of the five names, or `#` and
/// the number of a character that XML 1.0 allows. A number may have any count of digits.
#[tactic(auto, unfolding(crate::specs::Piece::referred))]
pub(crate) fn referred_character(text: &[u8]) -> Option<char>
    ensures { Finds (λ c. c) result (referred text.now) }
{
    if text == b"amp".as_slice() {
        Some('&')
    } else if text == b"lt".as_slice() {
        Some('<')
    } else if text == b"gt".as_slice() {
        Some('>')
    } else if text == b"quot".as_slice() {
        Some('"')
    } else if text == b"apos".as_slice() {
        Some('\'')
    } else {
        numbered_character(text)
    }
}

// The character of `#` and a number.
fn numbered_character(text: &[u8]) -> Option<char>
    ensures { Finds (λ c. c) result (referred_by_number text.now) }
{
    match text {
        [b'#', number @ ..] => allowed_character(written_number(number)?),
        _ => None,
    }
}

// A number in decimal digits, or in hexadecimal ones behind `x`.
fn written_number(text: &[u8]) -> Option<u32>
    ensures { Finds (λ n. n) result (option_map (λ n. min n 0x110000) (number_referred text.now)) }
{
    match text {
        [b'x', digits @ ..] => numeral(digits, 16),
        _ => numeral(text, 10),
    }
}

// The number that digits write, one digit or more. A number above those of all characters counts as the first above
// them, so that it stays small whatever digits follow.
fn numeral(digits: &[u8], radix: u32) -> Option<u32>
    requires least { 2 ≤ radix }
    requires most { radix ≤ 16 }
    ensures { Finds (λ n. n) result (option_map (λ n. min n 0x110000) (numeral (λ c. is_digit c radix) radix digits.now)) }
{
    if digits.is_empty() {
        return None;
    }
    let mut number = 0;
    for digit in digits {
        let value = char::from(*digit).to_digit(radix)?;
        number = (number * radix + value).min(PAST_CHARACTERS);
    }
    Some(number)
}

// The character of a number, where XML 1.0 allows it.
fn allowed_character(number: u32) -> Option<char>
    ensures { Finds (λ c. c) result (allowed number) }
{
    if is_allowed(number) {
        char::from_u32(number)
    } else {
        None
    }
}

// Whether XML 1.0 allows the character of this number.
fn is_allowed(number: u32) -> bool
    ensures { result ≡ is_allowed number }
{
    matches!(number, 9 | 10 | 13 | 32..=0xD7FF | 0xE000..=0xFFFD | 0x10000..=0x10FFFF)
}

#[cfg(test)]
mod tests {
    use super::*;

    #[test]
    fn reads_references(rt: HostRuntime) {
        let table = [
            ("amp", '&'),
            ("lt", '<'),
            ("gt", '>'),
            ("quot", '"'),
            ("apos", '\''),
            ("#65", 'A'),
            ("#x41", 'A'),
            ("#x6a", 'j'),
            ("#x6A", 'j'),
            ("#0065", 'A'),
            ("#x0000000000000000000000000041", 'A'),
            ("#9", '\t'),
            ("#10", '\n'),
            ("#xd", '\r'),
            ("#32", ' '),
            ("#x7F", '\u{7f}'),
            ("#55295", '\u{d7ff}'),
            ("#xE000", '\u{e000}'),
            ("#xFeFf", '\u{feff}'),
            ("#65533", '\u{fffd}'),
            ("#x10000", '\u{10000}'),
            ("#1114111", '\u{10ffff}'),
            ("#x10FFFF", '\u{10ffff}'),
        ];
        for (text, character) in table {
            let read = referred_character(text.as_bytes());
            assert_eq!(rt; read, Some(character), "at {text:?}");
        }
    }

    #[test]
    fn refuses_other_names(rt: HostRuntime) {
        for text in ["", "am", "ampx", "amp ", "AMP", "Lt", "nbsp", "x41", "65"] {
            assert_eq!(rt; referred_character(text.as_bytes()), None, "at {text:?}");
        }
    }

    #[test]
    fn refuses_other_numbers(rt: HostRuntime) {
        let table = [
            "#",
            "#x",
            "#X41",
            "##65",
            "#+65",
            "#-65",
            "#6_5",
            "# 65",
            "#65 ",
            "#6a",
            "#x4g",
            "#x+41",
            "#xx41",
            "#\u{663}",
            "#x\u{663}",
        ];
        for text in table {
            assert_eq!(rt; referred_character(text.as_bytes()), None, "at {text:?}");
        }
    }

    #[test]
    fn refuses_numbers_of_no_allowed_character(rt: HostRuntime) {
        let table = [
            "#0",
            "#8",
            "#xB",
            "#xc",
            "#31",
            "#55296",
            "#xDFFF",
            "#xFFFE",
            "#65535",
            "#1114112",
            "#x110000",
            "#4294967361",
            "#x100000041",
            "#18446744073709551681",
            "#x10000000000000041",
            "#x110000000000000000000000000000000000041",
        ];
        for text in table {
            assert_eq!(rt; referred_character(text.as_bytes()), None, "at {text:?}");
        }
    }
}
