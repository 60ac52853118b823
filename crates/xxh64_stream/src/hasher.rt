ghost use Rattle.std.specs.Prelude.{◌≡◌, ℕ, List, [], ◌++◌};
ghost use Rattle.xxh64_stream.specs.Xxh64.{xxh64, xxh64_bytes};
ghost use Rattle.xxh64_stream.specs.State.{state_of};

use crate::rest::{add_rest, avalanche};
use crate::stripe::{PRIME_5, STRIPE_LEN, absorb, absorb_all, converged, start};
use std::marker::Model;

/// The XXH64 value of a list of bytes that is fed in pieces of any size.
///
/// The algorithm is that of the xxHash sources, doc/xxhash_spec.md. It is no cryptographic hash.
#[derive(Drop)]
pub struct Xxh64 {
    seed: u64,
    // After all whole stripes.
    accs: [u64; 4],
    // Begins with the bytes after the whole stripes, of which there are `total % 32`.
    buffer: [u8; STRIPE_LEN],
    // Whether there was a whole stripe: `total` cannot tell, since it wraps.
    striped: bool,
    // The number of bytes, modulo 2^64.
    total: u64,
}

impl Model for Xxh64 {
    ghost use Rattle.std.specs.Prelude.{◌%◌, take};
    ghost use Rattle.xxh64_stream.specs.State.{State};

    ghost Value = { State };

    ghost view = { λ a. record { seed = a.seed; accs = a.accs; rest = take (a.total % 32) a.buffer; striped = a.striped; total = a.total } };
}

impl Xxh64 {
    /// A hasher with this seed, to which nothing was fed yet.
    pub fn new(seed: u64) -> Xxh64
        ensures { result ≡ state_of seed [] }
    {
        Xxh64 {
            seed,
            accs: start(seed),
            buffer: [0; STRIPE_LEN],
            striped: false,
            total: 0,
        }
    }

    /// Feeds the next bytes.
    pub fn update(&mut self, bytes: &[u8])
        ensures { (seed : ℕ) (fed : List ℕ) → self.old ≡ state_of seed fed → self.new ≡ state_of seed (fed ++ bytes.now) }
    {
        let held = (self.total % STRIPE_LEN as u64) as usize;
        self.total = self.total.wrapping_add(bytes.len() as u64);
        if bytes.len() < STRIPE_LEN - held {
            self.buffer[held..held + bytes.len()].copy_from_slice(bytes);
            return;
        }
        let mut rest = bytes;
        if held > 0 {
            let (front, after) = bytes.split_at(STRIPE_LEN - held);
            self.buffer[held..].copy_from_slice(front);
            self.accs = absorb(self.accs, &self.buffer);
            rest = after;
        }
        let (stripes, tail) = rest.as_chunks::<STRIPE_LEN>();
        self.accs = absorb_all(self.accs, stripes);
        self.buffer[..tail.len()].copy_from_slice(tail);
        self.striped = true;
    }

    /// The value of all bytes fed so far.
    pub fn value(&self) -> u64
        ensures { (seed : ℕ) (fed : List ℕ) → self.now ≡ state_of seed fed → result ≡ xxh64 seed fed }
    {
        let acc = if self.striped {
            converged(self.accs)
        } else {
            self.seed.wrapping_add(PRIME_5)
        };
        let held = (self.total % STRIPE_LEN as u64) as usize;
        avalanche(add_rest(acc.wrapping_add(self.total), &self.buffer[..held]))
    }

    /// The same as eight bytes, the most significant first.
    pub fn be_bytes(&self) -> [u8; 8]
        ensures { (seed : ℕ) (fed : List ℕ) → self.now ≡ state_of seed fed → result ≡ xxh64_bytes seed fed }
    {
        self.value().to_be_bytes()
    }
}
