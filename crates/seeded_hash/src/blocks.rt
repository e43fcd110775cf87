//! The hash of a block of 32 bytes, by eight secret factors.
//!
//! A block is eight words of 32 bits. Its hash is the upper half, modulo 2^64,
//! of a secret number and the eight words, each times a secret factor of its own:
//! the multiply-shift scheme for vectors (Dietzfelbinger 1996; Thorup, "High speed hashing
//! for integers and strings", 2015, section 3). Over the secrets, all drawn at random,
//! the hashes of two different blocks are as two numbers of 32 bits that are drawn at random:
//! so they are the same for one choice of the secrets in 2^32. It costs a fifth of SipHash-1-3.
ghost use Rattle.std.specs.Prelude.{◌≡◌, ◌+◌, ◌≤◌, ◌<◌, ◌^◌, ◌%◌};
ghost use Rattle.seeded_hash.specs.Blocks as spec;

use super::seed::HashSeed;
use std::fmt;
use std::fmt::{Debug, Formatter};
use std::hash::{BuildHasher, DefaultHasher, Hasher};

/// The secret numbers, and the sum so far. Only the first 32 bytes of a text are hashed;
/// a shorter one is filled up with zeros.
#[derive(Clone, Copy)]
pub struct BlockHasher {
    factors: [u64; 8],
    sum: u64,
}

/// The number that a seed gives at an index.
#[tactic(auto, unfolding(crate::specs::Blocks::secret_at))]
fn secret_at(start: &DefaultHasher, index: u64) -> u64
    ensures { result ≡ spec.secret_at start.now index }
{
    let mut state = *start;
    state.write_u64(index);
    state.finish()
}

impl BlockHasher {
    /// The secret numbers of a seed.
    pub(crate) fn of(start: &DefaultHasher) -> BlockHasher
        ensures { result ≡ spec.secrets_of start.now }
    {
        let factors = [
            secret_at(start, 0),
            secret_at(start, 1),
            secret_at(start, 2),
            secret_at(start, 3),
            secret_at(start, 4),
            secret_at(start, 5),
            secret_at(start, 6),
            secret_at(start, 7),
        ];
        BlockHasher {
            factors,
            sum: secret_at(start, 8),
        }
    }
}

/// The four bytes of a block from a place on as a number, the lowest first.
#[tactic(auto, unfolding(crate::specs::Blocks::block_word_at))]
fn word_at(block: &[u8; 32], at: usize) -> u64
    requires { at + 4 ≤ 32 }
    ensures { result ≡ spec.block_word_at block.now at }
{
    let word = u32::from_le_bytes([block[at], block[at + 1], block[at + 2], block[at + 3]]);
    u64::from(word)
}

/// The word of a block at an index, times its factor, modulo 2^64.
fn term_at(factors: &[u64; 8], block: &[u8; 32], index: usize) -> u64
    requires { index < 8 }
    ensures { result ≡ spec.term_at factors.now block.now index % 2 ^ 64 }
{
    factors[index].wrapping_mul(word_at(block, 4 * index))
}

/// Four of the eight terms, from an index on, modulo 2^64.
fn half_sum(factors: &[u64; 8], block: &[u8; 32], from: usize) -> u64
    requires { from + 4 ≤ 8 }
    ensures { result ≡ spec.half_sum factors.now block.now from % 2 ^ 64 }
{
    term_at(factors, block, from)
        .wrapping_add(term_at(factors, block, from + 1))
        .wrapping_add(term_at(factors, block, from + 2))
        .wrapping_add(term_at(factors, block, from + 3))
}

/// All eight, modulo 2^64.
fn block_sum(factors: &[u64; 8], block: &[u8; 32]) -> u64
    ensures { result ≡ spec.block_sum factors.now block.now % 2 ^ 64 }
{
    half_sum(factors, block, 0).wrapping_add(half_sum(factors, block, 4))
}

/// The first 32 bytes of a text, padded with zeros.
fn block_of(text: &[u8]) -> [u8; 32]
    ensures { result ≡ spec.block_of text.now }
{
    let mut block = [0; 32];
    let size = text.len().min(32);
    block[..size].copy_from_slice(&text[..size]);
    block
}

impl Hasher for BlockHasher {
    ghost use Rattle.std.specs.Prelude.{◌/◌, ◌^◌};
    ghost use Rattle.seeded_hash.specs.Blocks.{write, finish};

    ghost write = { write };

    ghost finish = { finish };

    fn finish(&self) -> u64 {
        self.sum >> 32
    }

    fn write(&mut self, text: &[u8]) {
        let more = block_sum(&self.factors, &block_of(text));
        self.sum = self.sum.wrapping_add(more);
    }
}

/// What the hashes of a map begin with whose keys are blocks: the secret numbers.
/// No answer of a map depends on them.
#[derive(Clone, Copy)]
pub struct BlockSeed {
    start: BlockHasher,
}

impl BlockSeed {
    /// The seed of blocks that goes with a seed of other keys.
    pub fn of(seed: HashSeed) -> BlockSeed
        ensures { result.start ≡ spec.secrets_of seed.start }
    {
        BlockSeed {
            start: BlockHasher::of(seed.start()),
        }
    }
}

impl BuildHasher for BlockSeed {
    type Hasher = BlockHasher;

    ghost build_hasher = { λ seed. seed.start };

    fn build_hasher(&self) -> BlockHasher {
        self.start
    }
}

/// Shows nothing of the seed.
impl Debug for BlockSeed {
    fn fmt<W: fmt::Write>(&self, f: &mut Formatter<W>) -> fmt::Result {
        f.debug_struct("BlockSeed").finish_non_exhaustive()
    }
}
