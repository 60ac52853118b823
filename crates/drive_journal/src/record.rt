// The record of a file in a drive's journal, and the gate in front of it.
ghost use Rattle.std.specs.Prelude.{◌≡◌, ◌+◌, ◌≤◌, ◌++◌, length, take, drop};
ghost use Rattle.drive_journal.specs.Record.{record_code, closed_record};

use digest_set::Triple;
use path_text::Moment;

/// What the journal says of a file that was copied (docs/FORMATS.md, "The journal").
#[derive(Clone, Copy, Debug)]
pub struct Rec {
    /// The number of the file in the plan, from 0.
    pub index: u32,
    /// Bytes.
    pub size: u64,
    /// The digests of the file's bytes.
    pub triple: Triple,
    /// When the file was hashed.
    pub hashed: Moment,
}

/// The closed gate in front of the next record. It is used up where it is opened.
#[derive(Debug, Drop)]
pub struct Gate {
    /// The place of the gate's byte in the journal, from 0.
    pub at: u64,
    /// The number of the file whose record stands behind the gate.
    pub index: u32,
}

/// The 64 bytes of a record and the byte of a closed gate behind it.
pub(crate) fn record_bytes(rec: &Rec) -> [u8; 65]
    ensures code { result ≡ closed_record rec.now }
    ensures size { length (record_code rec.now) ≡ 64 }
{
    let mut bytes = [0; 65];
    put(&mut bytes, 0, &rec.index.to_be_bytes());
    put(&mut bytes, 4, &rec.size.to_be_bytes());
    put(&mut bytes, 12, &rec.triple.md5);
    put(&mut bytes, 28, &rec.triple.sha1);
    put(&mut bytes, 48, &rec.triple.xxh);
    put(&mut bytes, 56, &rec.hashed.seconds().to_be_bytes());
    bytes
}

// Writes a field at its place.
fn put(bytes: &mut [u8; 65], at: usize, field: &[u8])
    requires { at + length field.now ≤ 65 }
    ensures { bytes.new ≡ take at bytes.old ++ field.now ++ drop (at + length field.now) bytes.old }
{
    bytes[at..at + field.len()].copy_from_slice(field);
}
