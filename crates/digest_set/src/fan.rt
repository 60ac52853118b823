// Three digests of one list.
ghost use Rattle.std.specs.Prelude.{◌≡◌, ℕ, List, [], ◌++◌};
ghost use Rattle.digest_set.specs.Fed.{AllFed};

use crate::Digest;

/// Three digests that are fed one list. A kind that is not wanted is a [`NoRun`](crate::NoRun).
#[derive(Drop)]
pub struct Fan<A, B, C> {
    first: A,
    second: B,
    third: C,
}

impl<A: Digest, B: Digest, C: Digest> Fan<A, B, C> {
    /// A fan that has been fed nothing.
    pub fn start() -> Fan<A, B, C>
        ensures { AllFed A.fed B.fed C.fed result [] }
    {
        Fan {
            first: A::start(),
            second: B::start(),
            third: C::start(),
        }
    }

    /// Feeds the next bytes of the list to all three.
    pub fn feed(&mut self, bytes: &[u8])
        ensures { (list : List ℕ) → AllFed A.fed B.fed C.fed self.old list → AllFed A.fed B.fed C.fed self.new (list ++ bytes.now) }
    {
        self.first.feed(bytes);
        self.second.feed(bytes);
        self.third.feed(bytes);
    }

    /// The values of the three digests for the whole list that was fed.
    pub fn finish(self) -> (A::Out, B::Out, C::Out)
        ensures { (list : List ℕ) → AllFed A.fed B.fed C.fed self list → result ≡ (A.digest_of list, B.digest_of list, C.digest_of list) }
    {
        (
            self.first.finish(),
            self.second.finish(),
            self.third.finish(),
        )
    }
}

impl<A: Digest, B: Digest, C: Digest> Digest for Fan<A, B, C> {
    type Out = (A::Out, B::Out, C::Out);

    ghost fed = { λ fan list. AllFed A.fed B.fed C.fed fan list };

    ghost digest_of = { λ list. (A.digest_of list, B.digest_of list, C.digest_of list) };

    fn start() -> Fan<A, B, C> {
        Fan::<A, B, C>::start()
    }

    fn feed(&mut self, bytes: &[u8]) {
        self.feed(bytes);
    }

    fn finish(self) -> (A::Out, B::Out, C::Out) {
        self.finish()
    }
}
