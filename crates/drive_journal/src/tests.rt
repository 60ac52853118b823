use crate::Rec;
use crate::record::record_bytes;
use digest_set::{Fan, hex_into, triple_of};
use path_text::Moment;
use std::test::Fail;

#[test]
fn a_record_has_64_bytes(rt: HostRuntime) -> Result<(), Fail> {
    // File 0, which is empty, hashed at 2014-10-24T12:00:00Z.
    let rec = Rec {
        index: 0,
        size: 0,
        triple: triple_of(Fan::start()),
        hashed: Moment::new(1_414_152_000).ok_or("no moment")?,
    };
    let mut digits = [0; 130];
    hex_into(&record_bytes(&rec), &mut digits);
    let expected = b"000000000000000000000000\
        d41d8cd98f00b204e9800998ecf8427e\
        da39a3ee5e6b4b0d3255bfef95601890afd80709\
        ef46db3751d8e999\
        00000000544a3f4000";
    assert_eq!(rt; digits.as_slice(), expected.as_slice());
    Ok(())
}
