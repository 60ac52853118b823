// The kinds of digest, and the run that computes none.
ghost use Rattle.std.specs.Prelude.{⊤};
ghost use Rattle.md5.specs.Md5.{md5};
ghost use Rattle.sha1.specs.Sha1.{sha1};
ghost use Rattle.digest_set.specs.Fed.{Md5Fed, Sha1Fed, XxhFed};
ghost use Rattle.digest_set.specs.Xxh.{xxh};

use crate::Digest;
use md5::{Digest as _, Md5};
use sha1::Sha1;
use xxh64_stream::Xxh64;

/// MD5, of RFC 1321.
#[derive(Drop)]
pub struct Md5Run {
    hasher: Md5,
}

impl Digest for Md5Run {
    type Out = [u8; 16];

    ghost fed = { Md5Fed };

    ghost digest_of = { md5 };

    fn start() -> Md5Run {
        Md5Run { hasher: Md5::new() }
    }

    fn feed(&mut self, bytes: &[u8]) {
        self.hasher.update(bytes);
    }

    fn finish(self) -> [u8; 16] {
        self.hasher.finalize()
    }
}

/// SHA-1, of FIPS 180-4.
#[derive(Drop)]
pub struct Sha1Run {
    hasher: Sha1,
}

impl Digest for Sha1Run {
    type Out = [u8; 20];

    ghost fed = { Sha1Fed };

    ghost digest_of = { sha1 };

    fn start() -> Sha1Run {
        Sha1Run {
            hasher: Sha1::new(),
        }
    }

    fn feed(&mut self, bytes: &[u8]) {
        self.hasher.update(bytes);
    }

    fn finish(self) -> [u8; 20] {
        self.hasher.finalize()
    }
}

/// XXH64 with seed 0, as eight bytes, the most significant first (docs/FORMATS.md).
#[derive(Drop)]
pub struct XxhRun {
    hasher: Xxh64,
}

impl Digest for XxhRun {
    type Out = [u8; 8];

    ghost fed = { XxhFed };

    ghost digest_of = { xxh };

    fn start() -> XxhRun {
        XxhRun {
            hasher: Xxh64::new(0),
        }
    }

    fn feed(&mut self, bytes: &[u8]) {
        self.hasher.update(bytes);
    }

    fn finish(self) -> [u8; 8] {
        self.hasher.be_bytes()
    }
}

/// A run of no digest, which leaves a kind out of a [`Fan`](crate::Fan).
#[derive(Drop)]
pub struct NoRun;

impl Digest for NoRun {
    type Out = ();

    ghost fed = { λ _ _. ⊤ };

    ghost digest_of = { λ _. tt };

    fn start() -> NoRun {
        NoRun
    }

    fn feed(&mut self, _bytes: &[u8]) {}

    fn finish(self) {}
}
