ghost use Rattle.std.specs.Prelude.{◌≡◌};
ghost use Rattle.xxh64_stream.specs.Xxh64.{add_word, add_half, add_byte, add_rest, avalanche};

use crate::stripe::{PRIME_1, PRIME_2, PRIME_3, PRIME_4, PRIME_5, round};

/// The word after the bytes that follow the stripes.
pub fn add_rest(acc: u64, rest: &[u8]) -> u64
    ensures { result ≡ add_rest acc rest.now }
{
    let (words, few) = rest.as_chunks::<8>();
    let (halves, bytes) = few.as_chunks::<4>();
    let acc = words.iter().fold(acc, add_word);
    let acc = halves.iter().fold(acc, add_half);
    bytes.iter().fold(acc, add_byte)
}

// Eight bytes more.
fn add_word(acc: u64, word: &[u8; 8]) -> u64
    ensures { result ≡ add_word acc word.now }
{
    (acc ^ round(0, u64::from_le_bytes(*word)))
        .rotate_left(27)
        .wrapping_mul(PRIME_1)
        .wrapping_add(PRIME_4)
}

// Four bytes more.
fn add_half(acc: u64, half: &[u8; 4]) -> u64
    ensures { result ≡ add_half acc half.now }
{
    let half = u64::from(u32::from_le_bytes(*half));
    (acc ^ half.wrapping_mul(PRIME_1))
        .rotate_left(23)
        .wrapping_mul(PRIME_2)
        .wrapping_add(PRIME_3)
}

// One byte more.
#[tactic(auto, unfolding(crate::specs::Xxh64::add_byte))]
fn add_byte(acc: u64, byte: &u8) -> u64
    ensures { result ≡ add_byte acc byte.now }
{
    (acc ^ u64::from(*byte).wrapping_mul(PRIME_5))
        .rotate_left(11)
        .wrapping_mul(PRIME_1)
}

/// The final mix.
#[tactic(auto, unfolding(crate::specs::Xxh64::avalanche))]
pub fn avalanche(acc: u64) -> u64
    ensures { result ≡ avalanche acc }
{
    let acc = (acc ^ (acc >> 33)).wrapping_mul(PRIME_2);
    let acc = (acc ^ (acc >> 29)).wrapping_mul(PRIME_3);
    acc ^ (acc >> 32)
}
