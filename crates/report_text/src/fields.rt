// The fields of a line, one behind the other.
ghost use Rattle.std.specs.Prelude.{◌≡◌, ◌+◌, ◌*◌, ◌≤◌, ◌++◌, ◌∷◌, length, decimal};
ghost use Rattle.hex.specs.Hex.{encode_lower};

use itoa::Buffer;
use path_text::Scratch;

/// Begins a line with its first field.
pub fn begin(out: &mut Scratch, first: &[u8])
    requires { length first.now ≤ 32 }
    ensures text { out.new ≡ first.now }
    ensures len { length out.new ≤ 32 }
{
    out.clear();
    out.push(first);
}

/// Adds a field.
pub fn add(out: &mut Scratch, field: &[u8])
    requires { length out.old + length field.now ≤ 2047 }
    ensures text { out.new ≡ out.old ++ 32 ∷ field.now }
    ensures len { length out.new ≡ length out.old + length field.now + 1 }
{
    out.push(b" ");
    out.push(field);
}

/// Adds a number in decimal.
pub fn add_number(out: &mut Scratch, number: u64)
    requires { length out.old ≤ 2027 }
    ensures text { out.new ≡ out.old ++ 32 ∷ decimal number }
    ensures len { length out.new ≤ length out.old + 21 }
{
    let mut buffer = Buffer::new();
    add(out, buffer.format(number).as_bytes());
}

/// Adds a digest of at most 20 bytes in lower case digits.
pub fn add_digest(out: &mut Scratch, digest: &[u8])
    requires room { length out.old ≤ 2006 }
    requires digest { length digest.now ≤ 20 }
    ensures text { out.new ≡ out.old ++ 32 ∷ encode_lower digest.now }
    ensures len { length out.new ≤ length out.old + 41 }
{
    let mut digits = [0u8; 40];
    let digits = &mut digits[..2 * digest.len()];
    match hex::encode_to_slice(digest, digits) {
        Ok(()) => add(out, digits),
        Err(_) => unreachable!(),
    }
}
