//! The sum of a page: XXH64 (Yann Collet, "XXH64 algorithm description", doc/xxhash_spec.md of xxHash 0.8), of bytes
//! whose number is a multiple of 32.
//!
//! Promise: it is the sum that `specs/Sums.antt` defines.
ghost use Rattle.std.specs.Prelude.{◌≡◌, ◌+◌, ◌≤◌, length};
ghost use Rattle.nofs_pages.specs.Sums.{begin_of, end_of, merge_of, mixed, round_of, stripe_of, sum_in};

use nofs_disk::read_u64_at;

const PRIME_1: u64 = 0x9e37_79b1_85eb_ca87;

const PRIME_2: u64 = 0xc2b2_ae3d_27d4_eb4f;

const PRIME_3: u64 = 0x1656_67b1_9e37_79f9;

const PRIME_4: u64 = 0x85eb_ca77_c2b2_ae63;

/// How many bytes a stripe has.
const STRIPE: usize = 32;

/// The four accumulators.
#[derive(Clone, Copy)]
pub struct Lanes {
    one: u64,
    two: u64,
    three: u64,
    four: u64,
}

// An accumulator takes a word.
#[tactic(auto, unfolding(crate::specs::Sums::round_of))]
fn round(lane: u64, word: u64) -> u64
    ensures { result ≡ round_of lane word }
{
    lane.wrapping_add(word.wrapping_mul(PRIME_2))
        .rotate_left(31)
        .wrapping_mul(PRIME_1)
}

// The accumulators at first.
#[tactic(auto, unfolding(crate::specs::Sums::begin_of))]
fn begin(seed: u64) -> Lanes
    ensures { result ≡ begin_of seed }
{
    Lanes {
        one: seed.wrapping_add(PRIME_1).wrapping_add(PRIME_2),
        two: seed.wrapping_add(PRIME_2),
        three: seed,
        four: seed.wrapping_sub(PRIME_1),
    }
}

// Each accumulator takes a word of a stripe. Of a stripe by itself LLVM knows the length, and checks no place in it.
#[tactic(auto, unfolding(crate::specs::Sums::stripe_of))]
fn take_stripe(lanes: Lanes, stripe: &[u8]) -> Lanes
    requires { length stripe.now ≡ 32 }
    ensures { result ≡ stripe_of lanes stripe.now }
{
    Lanes {
        one: round(lanes.one, read_u64_at(stripe, 0)),
        two: round(lanes.two, read_u64_at(stripe, 8)),
        three: round(lanes.three, read_u64_at(stripe, 16)),
        four: round(lanes.four, read_u64_at(stripe, 24)),
    }
}

// The sum so far takes an accumulator.
#[tactic(auto, unfolding(crate::specs::Sums::merge_of))]
fn merge(sum: u64, lane: u64) -> u64
    ensures { result ≡ merge_of sum lane }
{
    (sum ^ round(0, lane))
        .wrapping_mul(PRIME_1)
        .wrapping_add(PRIME_4)
}

// Each bit of the sum takes part in each other.
#[tactic(auto, unfolding(crate::specs::Sums::mixed))]
fn mix(sum: u64) -> u64
    ensures { result ≡ mixed sum }
{
    let one = (sum ^ (sum >> 33)).wrapping_mul(PRIME_2);
    let two = (one ^ (one >> 29)).wrapping_mul(PRIME_3);
    two ^ (two >> 32)
}

// The sum of so many bytes that these accumulators took.
#[tactic(auto, unfolding(crate::specs::Sums::end_of))]
fn end(lanes: Lanes, count: u64) -> u64
    ensures { result ≡ end_of lanes count }
{
    let all = lanes
        .one
        .rotate_left(1)
        .wrapping_add(lanes.two.rotate_left(7))
        .wrapping_add(lanes.three.rotate_left(12))
        .wrapping_add(lanes.four.rotate_left(18));
    let merged = merge(
        merge(merge(merge(all, lanes.one), lanes.two), lanes.three),
        lanes.four,
    );
    mix(merged.wrapping_add(count))
}

/// The sum of some bytes.
pub fn sum_of(bytes: &[u8], seed: u64) -> u64
    ensures { result ≡ sum_in seed bytes.now }
{
    let mut lanes = begin(seed);
    for at in 0..bytes.len() / STRIPE {
        lanes = take_stripe(lanes, &bytes[STRIPE * at..STRIPE * at + STRIPE]);
    }
    end(lanes, bytes.len() as u64)
}
