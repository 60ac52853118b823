// The digests of a file, each of which may be wanted or not.
ghost use Rattle.std.specs.Prelude.{⊤, Some, None};

use digest_set::Digest;

/// A digest that is wanted.
#[derive(Drop)]
pub struct Wanted<D: Digest> {
    run: D,
}

impl<D: Digest> Digest for Wanted<D> {
    type Out = Option<D::Out>;

    ghost fed = { λ wanted list. D.fed wanted.run list };

    ghost digest_of = { λ list. Some (D.digest_of list) };

    fn start() -> Wanted<D> {
        Wanted { run: D::start() }
    }

    fn feed(&mut self, bytes: &[u8]) {
        self.run.feed(bytes);
    }

    fn finish(self) -> Option<D::Out> {
        Some(self.run.finish())
    }
}

/// A digest of N bytes that is not wanted, and not computed.
#[derive(Drop)]
pub struct Unwanted<const N: usize>;

impl<const N: usize> Digest for Unwanted<N> {
    type Out = Option<[u8; N]>;

    ghost fed = { λ _ _. ⊤ };

    ghost digest_of = { λ _. None };

    fn start() -> Unwanted<N> {
        Unwanted
    }

    fn feed(&mut self, _bytes: &[u8]) {}

    fn finish(self) -> Option<[u8; N]> {
        None
    }
}
