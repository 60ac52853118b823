ghost use Rattle.std.specs.Prelude.{◌≡◌, ◌+◌, ◌≤◌, ◌++◌, [], IfOk, length};

use std::alloc::{AllocError, Global};
use std::marker::Model;

/// The bytes that a scratch holds at most.
pub const SCRATCH_BYTES: usize = 8192;

/// A buffer that is made once and holds one line or one part of a text at a time, seen as what was pushed.
#[derive(Drop)]
pub struct Scratch {
    bytes: Vec<u8>,
}

impl Model for Scratch {
    ghost use Rattle.std.specs.Prelude.{◌≤◌, List, ℕ, vec_len, vec_capacity};

    ghost Value = { List ℕ };

    ghost view = { λ a. a.bytes.items };

    ghost invariant = { λ a. 8192 ≤ vec_capacity a.bytes };
}

impl Scratch {
    /// An empty scratch.
    pub fn new(alloc: Global) -> Result<Scratch, AllocError>
        ensures { IfOk result (λ scratch. scratch ≡ []) }
    {
        Ok(Scratch {
            bytes: Vec::with_capacity(alloc, SCRATCH_BYTES)?,
        })
    }

    /// Forgets what was pushed; its memory is kept.
    pub fn clear(&mut self)
        ensures { self.new ≡ [] }
    {
        self.bytes.clear();
    }

    /// Adds bytes at the end, which takes no memory.
    pub fn push(&mut self, bytes: &[u8])
        requires { length self.old + length bytes.now ≤ 8192 }
        ensures { self.new ≡ self.old ++ bytes.now }
    {
        match self.bytes.extend_from_slice(bytes) {
            Ok(()) => {}
            Err(_) => unreachable!(),
        }
    }

    /// What was pushed since the scratch was made or last cleared.
    pub fn bytes(&self) -> &[u8]
        ensures { result.now ≡ self.now }
    {
        &self.bytes
    }
}

#[cfg(test)]
mod tests {
    use super::*;
    use std::test::Fail;

    #[test]
    fn holds_what_was_pushed_since_it_was_cleared(rt: HostRuntime) -> Result<(), Fail> {
        let mut scratch = Scratch::new(rt.alloc())?;
        scratch.push(b"one");
        scratch.push(b"");
        scratch.push(b" line");
        assert_eq!(rt; scratch.bytes(), b"one line".as_slice());
        scratch.clear();
        assert_eq!(rt; scratch.bytes(), b"".as_slice());
        scratch.push(&[7; SCRATCH_BYTES]);
        assert_eq!(rt; scratch.bytes(), [7; SCRATCH_BYTES].as_slice());
        Ok(())
    }
}
