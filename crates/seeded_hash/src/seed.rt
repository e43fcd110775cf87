//! Seeds of hashes: drawn, or made of two numbers.
ghost use Rattle.std.specs.Prelude.{◌≡◌, IfOk};
ghost use Rattle.seeded_hash.specs.Seeds.{seeded_hasher, IsOfTwoNumbers};

use std::fmt::{Debug, Formatter};
use std::hash::{BuildHasher, DefaultHasher, Hasher};
use std::random::RandomSource;
use std::{fmt, io};

/// What the hashes of a map begin with: SipHash-1-3, with the seed in front of each key.
/// No answer of a map depends on it.
#[derive(Clone, Copy)]
pub struct HashSeed {
    start: DefaultHasher,
}

impl HashSeed {
    /// The seed of two numbers.
    pub fn of(first: u64, second: u64) -> HashSeed
        ensures { result.start ≡ seeded_hasher first second }
    {
        let mut start = DefaultHasher::new();
        start.write_u64(first);
        start.write_u64(second);
        HashSeed { start }
    }

    /// The seed that is the same at each run. Who knows it can choose keys that hash alike.
    pub fn fixed() -> HashSeed
        ensures { result.start ≡ seeded_hasher 0 0 }
    {
        HashSeed::of(0, 0)
    }

    /// The hasher that each hash begins with.
    pub(crate) fn start(&self) -> &DefaultHasher
        ensures { result.now ≡ self.now.start }
    {
        &self.start
    }

    /// A seed that nobody knows beforehand: 16 bytes of the source.
    /// An error comes exactly where the source gives one.
    pub fn random(source: &impl RandomSource) -> io::Result<HashSeed>
        ensures { IfOk result IsOfTwoNumbers }
    {
        let mut bytes = [0; 16];
        source.fill_bytes(&mut bytes)?;
        let both = u128::from_le_bytes(bytes);
        let first = (both & 0xFFFF_FFFF_FFFF_FFFF) as u64;
        let second = (both >> 64) as u64;
        Ok(HashSeed::of(first, second))
    }
}

impl BuildHasher for HashSeed {
    type Hasher = DefaultHasher;

    ghost build_hasher = { λ seed. seed.start };

    fn build_hasher(&self) -> DefaultHasher {
        self.start
    }
}

/// Shows nothing of the seed.
impl Debug for HashSeed {
    fn fmt<W: fmt::Write>(&self, f: &mut Formatter<W>) -> fmt::Result {
        f.debug_struct("HashSeed").finish_non_exhaustive()
    }
}
