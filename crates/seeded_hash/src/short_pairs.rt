//! Pairs of short texts as keys of a map, each in one block of 32 bytes.
//!
//! A name has room for 64 bytes, and most names are far shorter. So a map by names does best
//! to keep a pair of texts of at most 30 bytes together as a block, which is hashed as four words,
//! and only a longer pair as it is. The blocks of many pairs fit near the processor,
//! where their names do not.
ghost use Rattle.std.specs.Prelude.{◌≡◌, ◌+◌, ◌≤◌, length};
ghost use Rattle.seeded_hash.specs.ShortPairs.{put_at, short_block, short_pair_of, first_text, second_text};

use std::hash::{Hash, Hasher};

/// Two texts of at most 30 bytes together: the sizes of both, their bytes, and zeros.
/// No other two texts have the same block.
#[derive(Clone, Copy, PartialEq, Eq)]
pub struct ShortPair {
    block: [u8; 32],
}

/// Writes a text over the bytes of a block from a place on.
fn put(block: &mut [u8], at: usize, text: &[u8])
    requires { at + length text.now ≤ length block.old }
    ensures { block.new ≡ put_at block.old at text.now }
{
    block[at..at + text.len()].copy_from_slice(text);
}

/// The block of two texts.
fn block_of(first: &[u8], second: &[u8]) -> [u8; 32]
    requires { length first.now + length second.now ≤ 30 }
    ensures { result ≡ short_block first.now second.now }
{
    let mut block = [0; 32];
    block[0] = first.len() as u8;
    block[1] = second.len() as u8;
    put(&mut block, 2, first);
    put(&mut block, 2 + first.len(), second);
    block
}

impl ShortPair {
    /// The pair of two texts, where they have at most 30 bytes together.
    pub fn of(first: &[u8], second: &[u8]) -> Option<ShortPair>
        ensures { result ≡ short_pair_of first.now second.now }
    {
        if first.len() + second.len() <= 30 {
            Some(ShortPair {
                block: block_of(first, second),
            })
        } else {
            None
        }
    }

    /// The first text.
    pub fn first(&self) -> &[u8]
        ensures { result.now ≡ first_text self.now.block }
    {
        let size = (self.block[0] as usize).min(30);
        &self.block[2..2 + size]
    }

    /// The second text.
    pub fn second(&self) -> &[u8]
        ensures { result.now ≡ second_text self.now.block }
    {
        let start = 2 + (self.block[0] as usize).min(30);
        let size = (self.block[1] as usize).min(32 - start);
        &self.block[start..start + size]
    }
}

impl Hash for ShortPair {
    ghost use Rattle.std.specs.Prelude.{[], ◌∷◌};
    ghost use Rattle.std.specs.Cmp.Rules.{hashing};
    ghost use Rattle.std.proofs.Common.{rules};

    ghost hash_input = { λ pair. pair.block ∷ [] };

    ghost respects_eq = { Prim.search (hashing, rules) };

    fn hash<H: Hasher>(&self, state: &mut H) {
        state.write(&self.block);
    }
}
