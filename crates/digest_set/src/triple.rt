// The three digests that the station records of a file.
ghost use Rattle.std.specs.Prelude.{◌≡◌, ℕ, List};
ghost use Rattle.digest_set.specs.Fed.{AllFed, Md5Fed, Sha1Fed, XxhFed};
ghost use Rattle.digest_set.specs.Triple.{triple};

use crate::{Fan, Md5Run, Sha1Run, XxhRun};

/// The three digests of one list: of MD5 and SHA-1 the bytes in the order of their standards, of
/// XXH64 the most significant byte first.
#[derive(Clone, Copy, Debug, PartialEq, Eq)]
pub struct Triple {
    pub md5: [u8; 16],
    pub sha1: [u8; 20],
    pub xxh: [u8; 8],
}

/// The values of a fan of all three kinds.
pub fn triple_of(fan: Fan<Md5Run, Sha1Run, XxhRun>) -> Triple
    ensures { (list : List ℕ) → AllFed Md5Fed Sha1Fed XxhFed fan list → result ≡ triple list }
{
    let (md5, sha1, xxh) = fan.finish();
    Triple { md5, sha1, xxh }
}
