ghost use Rattle.std.specs.Prelude.{◌≡◌, map};
ghost use Rattle.std.specs.List.{concat};
ghost use Rattle.sha1.specs.Sha1.{sha1};
ghost use Rattle.digest_set.specs.Triple.{triple};

use super::*;
use std::test::Fail;

// The digest of a list that comes in pieces.
fn digest_of_pieces<D: Digest>(pieces: &[&[u8]]) -> D::Out
    ensures { result ≡ D.digest_of (concat (map (λ piece. piece.now) pieces.now)) }
{
    let mut run = D::start();
    for piece in pieces {
        run.feed(piece);
    }
    run.finish()
}

// The SHA-1 alone of a list that comes in pieces, by a fan that leaves two kinds out.
fn sha1_of_pieces(pieces: &[&[u8]]) -> [u8; 20]
    ensures { result ≡ sha1 (concat (map (λ piece. piece.now) pieces.now)) }
{
    let ((), digest, ()) = digest_of_pieces::<Fan<NoRun, Sha1Run, NoRun>>(pieces);
    digest
}

// The three digests of a list that comes in pieces.
fn triple_of_pieces(pieces: &[&[u8]]) -> Triple
    ensures { result ≡ triple (concat (map (λ piece. piece.now) pieces.now)) }
{
    let mut fan = Fan::start();
    for piece in pieces {
        fan.feed(piece);
    }
    triple_of(fan)
}

#[test]
fn three_digests_of_pieces(rt: HostRuntime) -> Result<(), Fail> {
    // Pieces, and the digests of the whole as `md5sum`, `sha1sum` and `xxhsum -H64` print them.
    let empty = (
        "d41d8cd98f00b204e9800998ecf8427e",
        "da39a3ee5e6b4b0d3255bfef95601890afd80709",
        "ef46db3751d8e999",
    );
    let abc = (
        "900150983cd24fb0d6963f7d28e17f72",
        "a9993e364706816aba3e25717850c26c9cd0d89d",
        "44bc2cf5ad770999",
    );
    let fips = (
        "8215ef0796a20bcaaae116d3876c664a",
        "84983e441c3bd26ebaae4aa1f95129e5e54670f1",
        "f06103773e8585df",
    );
    let rows = [
        ("", "", "", empty),
        ("abc", "", "", abc),
        ("a", "", "bc", abc),
        (
            "abcdbcdecdefdefgefghfghighijhi",
            "jkijklj",
            "klmklmnlmnomnopnopq",
            fips,
        ),
    ];
    for (first, second, third, (md5, sha1, xxh)) in rows {
        let triple = triple_of_pieces(&[first.as_bytes(), second.as_bytes(), third.as_bytes()]);
        let mut digits = [0; 32];
        hex_into(&triple.md5, &mut digits);
        assert_eq!(rt; digits.as_slice(), md5.as_bytes());
        let mut digits = [0; 40];
        hex_into(&triple.sha1, &mut digits);
        assert_eq!(rt; digits.as_slice(), sha1.as_bytes());
        let mut digits = [0; 16];
        hex_into(&triple.xxh, &mut digits);
        assert_eq!(rt; digits.as_slice(), xxh.as_bytes());
    }
    Ok(())
}

#[test]
fn a_kind_is_left_out(rt: HostRuntime) -> Result<(), Fail> {
    let pieces = [b"a".as_slice(), b"bc".as_slice()];
    let mut digits = [0; 40];
    hex_into(&sha1_of_pieces(&pieces), &mut digits);
    assert_eq!(rt;
        digits.as_slice(),
        b"a9993e364706816aba3e25717850c26c9cd0d89d".as_slice()
    );
    Ok(())
}

#[test]
fn digits_are_read(rt: HostRuntime) -> Result<(), Fail> {
    let rows = [
        ("0fa9", true),
        ("0FA9", true),
        ("0Fa9", true),
        ("", false),
        ("0fa", false),
        ("0fa900", false),
        ("0fa ", false),
        ("/fa9", false),
        (":fa9", false),
        ("0@a9", false),
        ("0Ga9", false),
        ("0f`9", false),
        ("0fg9", false),
    ];
    for (text, good) in rows {
        let mut bytes = [0; 2];
        assert_eq!(rt; unhex_into(text.as_bytes(), &mut bytes), good);
        assert!(rt; !good || bytes == [0x0f, 0xa9]);
    }
    assert!(rt; unhex_into(b"", &mut []));
    hex_into(b"", &mut []);
    Ok(())
}
