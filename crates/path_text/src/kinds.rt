//! Kinds of digest.

ghost use Rattle.std.specs.Prelude.{◌≡◌};
ghost use Rattle.path_text.specs.Kinds.{has_kind};

/// The kinds of digest that a list shows: MD5, SHA-1, and XXH64 as `xxhash64be` (docs/FORMATS.md, "Digests").
#[derive(Clone, Copy, Debug, PartialEq, Eq)]
pub struct Kinds {
    pub md5: bool,
    pub sha1: bool,
    pub xxh: bool,
}

impl Kinds {
    /// Whether there is a kind at all.
    pub fn any(self) -> bool
        ensures { result ≡ has_kind self }
    {
        self.md5 || self.sha1 || self.xxh
    }
}

#[cfg(test)]
mod tests {
    use super::*;

    #[test]
    fn tells_whether_there_is_a_kind(rt: HostRuntime) {
        let table = [
            (false, false, false, false),
            (true, false, false, true),
            (false, true, false, true),
            (false, false, true, true),
            (true, true, true, true),
        ];
        for (md5, sha1, xxh, any) in table {
            let kinds = Kinds { md5, sha1, xxh };
            assert_eq!(rt; kinds.any(), any, "at {kinds:?}");
        }
    }
}
