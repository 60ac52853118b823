// Bytes as hexadecimal digits and back, in memory of the caller's.
ghost use Rattle.std.specs.Prelude.{◌≡◌, ◌*◌, ◌↔◌, length, IsTrue};
ghost use Rattle.std.specs.Bool.{OnTrue};
ghost use Rattle.std.specs.List.{AllPass};
ghost use Rattle.hex.specs.Hex.{encode_lower, is_hex_digit};
ghost use Rattle.digest_set.specs.HexText.{IsHexOf};

/// Writes two hexadecimal digits in lower case for each byte, the high half first.
pub fn hex_into(bytes: &[u8], out: &mut [u8])
    requires { length out.old ≡ 2 * length bytes.now }
    ensures { out.new ≡ encode_lower bytes.now }
{
    let _ = hex::encode_to_slice(bytes, out);
}

/// Reads two hexadecimal digits of either case for each byte. Where it answers false, nothing is
/// said of what `out` holds.
pub fn unhex_into(text: &[u8], out: &mut [u8]) -> bool
    ensures digits { IsTrue result ↔ ((length text.now ≡ 2 * length out.old) × AllPass is_hex_digit text.now) }
    ensures bytes { OnTrue result (IsHexOf text.now out.new) }
{
    hex::decode_to_slice(text, out).is_ok()
}
