// A digest of one list of bytes, whatever its kind.
ghost use Rattle.std.specs.Prelude.{◌≡◌, ℕ, List, [], ◌++◌};

/// A run of a digest, which is fed a list of bytes in pieces. How the list is cut makes no
/// difference, and no call takes memory.
pub trait Digest: Drop {
    /// The value of the digest.
    type Out: Drop;

    // This run has been fed this list.
    ghost fed: { Self → List ℕ → Type 0 };

    // The value that the kind's definition gives a whole list.
    ghost digest_of: { List ℕ → Self.Out };

    /// A run that has been fed nothing.
    fn start() -> Self
        ensures { fed result [] };

    /// Feeds the next bytes of the list.
    fn feed(&mut self, bytes: &[u8])
        ensures { (list : List ℕ) → fed self.old list → fed self.new (list ++ bytes.now) };

    /// The value of the digest for the whole list that was fed.
    fn finish(self) -> Self::Out
        ensures { (list : List ℕ) → fed self list → result ≡ digest_of list };
}
