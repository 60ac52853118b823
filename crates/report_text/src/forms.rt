// The forms of lines: fixed words, and the values behind them.
ghost use Rattle.std.specs.Prelude.{◌≡◌, ◌+◌, ◌≤◌, ◌++◌, [], ◌∷◌, length, decimal};
ghost use Rattle.hex.specs.Hex.{encode_lower};
ghost use Rattle.report_text.specs.Fields.{fields, triple_fields};

use crate::fields::{add, add_digest, add_number, begin};
use digest_set::Triple;
use path_text::Scratch;

/// A line of its fixed words and a path.
pub fn with_path(out: &mut Scratch, words: &[u8], path: &str)
    requires words { length words.now ≤ 32 }
    requires path { length path.now ≤ 1024 }
    ensures text { out.new ≡ fields words.now (path.now ∷ []) }
    ensures len { length out.new ≤ 2048 }
{
    begin(out, words);
    add(out, path.as_bytes());
}

/// A line of its fixed words and a number.
pub fn with_number(out: &mut Scratch, words: &[u8], number: u64)
    requires { length words.now ≤ 32 }
    ensures text { out.new ≡ fields words.now (decimal number ∷ []) }
    ensures len { length out.new ≤ 64 }
{
    begin(out, words);
    add_number(out, number);
}

/// A line of its fixed words and two numbers.
pub fn with_two(out: &mut Scratch, words: &[u8], first: u64, second: u64)
    requires { length words.now ≤ 32 }
    ensures text { out.new ≡ fields words.now (decimal first ∷ decimal second ∷ []) }
    ensures len { length out.new ≤ 96 }
{
    with_number(out, words, first);
    add_number(out, second);
}

/// A line of its fixed words and three numbers.
pub fn with_three(out: &mut Scratch, words: &[u8], first: u64, second: u64, third: u64)
    requires { length words.now ≤ 32 }
    ensures text { out.new ≡ fields words.now (decimal first ∷ decimal second ∷ decimal third ∷ []) }
    ensures len { length out.new ≤ 128 }
{
    with_two(out, words, first, second);
    add_number(out, third);
}

/// A line that begins with its fixed words, a drive or a job, and what is said of it.
pub fn of_number(out: &mut Scratch, words: &[u8], number: u32, what: &[u8])
    requires words { length words.now ≤ 32 }
    requires what { length what.now ≤ 32 }
    ensures text { out.new ≡ fields words.now (decimal number ∷ what.now ∷ []) }
    ensures len { length out.new ≤ 128 }
{
    with_number(out, words, u64::from(number));
    add(out, what);
}

/// Adds a path, which is the last field.
pub fn add_path(out: &mut Scratch, path: &str)
    requires room { length out.old ≤ 1000 }
    requires path { length path.now ≤ 1024 }
    ensures text { out.new ≡ fields out.old (path.now ∷ []) }
    ensures len { length out.new ≤ 2048 }
{
    add(out, path.as_bytes());
}

/// A line of its fixed words, two digests of one kind, and the path of what has them.
pub fn with_digests(out: &mut Scratch, words: &[u8], first: &[u8], second: &[u8], path: &str)
    requires words { length words.now ≤ 32 }
    requires first { length first.now ≤ 20 }
    requires second { length second.now ≤ 20 }
    requires path { length path.now ≤ 1024 }
    ensures text { out.new ≡ fields words.now (encode_lower first.now ∷ encode_lower second.now ∷ path.now ∷ []) }
    ensures len { length out.new ≤ 2048 }
{
    begin(out, words);
    add_digests(out, first, second, path);
}

/// Adds two numbers, and the path of what has them.
pub fn add_numbers(out: &mut Scratch, first: u64, second: u64, path: &str)
    requires room { length out.old ≤ 900 }
    requires path { length path.now ≤ 1024 }
    ensures text { out.new ≡ fields out.old (decimal first ∷ decimal second ∷ path.now ∷ []) }
    ensures len { length out.new ≤ 2048 }
{
    add_number(out, first);
    add_number(out, second);
    add_path(out, path);
}

/// Adds a place, the two bytes there, and the path of what has them.
pub fn add_bytes(out: &mut Scratch, at: u64, written: u64, read: u64, path: &str)
    requires room { length out.old ≤ 800 }
    requires path { length path.now ≤ 1024 }
    ensures text { out.new ≡ fields out.old (decimal at ∷ decimal written ∷ decimal read ∷ path.now ∷ []) }
    ensures len { length out.new ≤ 2048 }
{
    add_number(out, at);
    add_numbers(out, written, read, path);
}

/// Adds two digests of one kind, and the path of what has them.
pub fn add_digests(out: &mut Scratch, first: &[u8], second: &[u8], path: &str)
    requires room { length out.old ≤ 900 }
    requires first { length first.now ≤ 20 }
    requires second { length second.now ≤ 20 }
    requires path { length path.now ≤ 1024 }
    ensures text { out.new ≡ fields out.old (encode_lower first.now ∷ encode_lower second.now ∷ path.now ∷ []) }
    ensures len { length out.new ≤ 2048 }
{
    add_digest(out, first);
    add_digest(out, second);
    add_path(out, path);
}

// Adds three digests.
fn add_triple(out: &mut Scratch, triple: &Triple)
    requires { length out.old ≤ 900 }
    ensures text { out.new ≡ fields out.old (triple_fields triple.now) }
    ensures len { length out.new ≤ length out.old + 123 }
{
    add_digest(out, &triple.md5);
    add_digest(out, &triple.sha1);
    add_digest(out, &triple.xxh);
}

/// Adds the digests of what was recorded and of what was read, and the path of it.
pub fn add_triples(out: &mut Scratch, recorded: &Triple, read: &Triple, path: &str)
    requires room { length out.old ≤ 500 }
    requires path { length path.now ≤ 1024 }
    ensures text { out.new ≡ fields out.old (triple_fields recorded.now ++ triple_fields read.now ++ path.now ∷ []) }
    ensures len { length out.new ≤ 2048 }
{
    add_triple(out, recorded);
    add_triple(out, read);
    add_path(out, path);
}

/// Adds a number, and what it counts.
pub fn add_count(out: &mut Scratch, number: u64, what: &[u8])
    requires room { length out.old ≤ 1900 }
    requires what { length what.now ≤ 32 }
    ensures text { out.new ≡ fields out.old (decimal number ∷ what.now ∷ []) }
    ensures len { length out.new ≤ length out.old + length what.now + 22 }
{
    add_number(out, number);
    add(out, what);
}
