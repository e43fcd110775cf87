//! What a program is started with: a seed for its hashes.
ghost use Rattle.seeded_hash.specs.Seeds.{IsOfTwoNumbers};

use seeded_hash::seed::HashSeed;
use std::random::RandomSource;

/// A seed that whoever made the logs did not know. Where the system gives no random bytes it is
/// the fixed one: the answer is the same, and only logs that were made for that seed are slow.
pub fn seed_of(source: &impl RandomSource) -> HashSeed
    ensures { IsOfTwoNumbers result }
{
    match HashSeed::random(source) {
        Ok(seed) => seed,
        Err(_) => HashSeed::fixed(),
    }
}
