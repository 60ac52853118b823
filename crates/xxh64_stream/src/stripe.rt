ghost use Rattle.std.specs.Prelude.{◌≡◌};
ghost use Rattle.std.specs.List.{fold};
ghost use Rattle.xxh64_stream.specs.Xxh64.{start, round, absorb, merge, converged};

/// The length of a stripe in bytes.
pub const STRIPE_LEN: usize = 32;

/// The first of the five primes of the algorithm.
pub const PRIME_1: u64 = 0x9E37_79B1_85EB_CA87;

/// The second prime.
pub const PRIME_2: u64 = 0xC2B2_AE3D_27D4_EB4F;

/// The third prime.
pub const PRIME_3: u64 = 0x1656_67B1_9E37_79F9;

/// The fourth prime.
pub const PRIME_4: u64 = 0x85EB_CA77_C2B2_AE63;

/// The fifth prime.
pub const PRIME_5: u64 = 0x27D4_EB2F_1656_67C5;

/// The accumulators at the start.
#[tactic(auto, unfolding(crate::specs::Xxh64::start))]
pub fn start(seed: u64) -> [u64; 4]
    ensures { result ≡ start seed }
{
    [
        seed.wrapping_add(PRIME_1).wrapping_add(PRIME_2),
        seed.wrapping_add(PRIME_2),
        seed,
        seed.wrapping_sub(PRIME_1),
    ]
}

/// An accumulator after a lane.
#[tactic(auto, unfolding(crate::specs::Xxh64::round))]
pub fn round(acc: u64, lane: u64) -> u64
    ensures { result ≡ round acc lane }
{
    acc.wrapping_add(lane.wrapping_mul(PRIME_2))
        .rotate_left(31)
        .wrapping_mul(PRIME_1)
}

/// The accumulators after a stripe.
pub fn absorb(accs: [u64; 4], stripe: &[u8; STRIPE_LEN]) -> [u64; 4]
    ensures { result ≡ absorb accs stripe.now }
{
    let (lanes, _) = stripe.as_chunks::<8>();
    [
        round(accs[0], u64::from_le_bytes(lanes[0])),
        round(accs[1], u64::from_le_bytes(lanes[1])),
        round(accs[2], u64::from_le_bytes(lanes[2])),
        round(accs[3], u64::from_le_bytes(lanes[3])),
    ]
}

/// The accumulators after several stripes.
pub fn absorb_all(accs: [u64; 4], stripes: &[[u8; STRIPE_LEN]]) -> [u64; 4]
    ensures { result ≡ fold absorb accs stripes.now }
{
    stripes.iter().fold(accs, absorb)
}

/// The accumulators turned, added and merged into one word.
pub fn converged(accs: [u64; 4]) -> u64
    ensures { result ≡ converged accs }
{
    let turned = accs[0]
        .rotate_left(1)
        .wrapping_add(accs[1].rotate_left(7))
        .wrapping_add(accs[2].rotate_left(12))
        .wrapping_add(accs[3].rotate_left(18));
    accs.iter().fold(turned, merge)
}

// An accumulator merged into the word.
#[tactic(auto, unfolding(crate::specs::Xxh64::merge))]
fn merge(acc: u64, one: &u64) -> u64
    ensures { result ≡ merge acc one.now }
{
    (acc ^ round(0, *one))
        .wrapping_mul(PRIME_1)
        .wrapping_add(PRIME_4)
}
