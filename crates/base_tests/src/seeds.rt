//! Seeds of hashes: drawn from a source, and of two numbers.
use seeded_hash::seed::HashSeed;
use std::hash::BuildHasher;
use std::io;
use std::io::{Error, ErrorKind};
use std::random::RandomSource;

/// Gives the bytes 1 to 16, or an error.
struct FakeSource {
    fails: bool,
}

impl RandomSource for FakeSource {
    fn fill_bytes(&self, buf: &mut [u8]) -> io::Result<()> {
        if self.fails {
            return Err(Error::from(ErrorKind::Other));
        }
        let mut next: u8 = 1;
        for byte in buf.iter_mut() {
            *byte = next;
            next = next.wrapping_add(1);
        }
        Ok(())
    }
}

#[test]
fn a_random_seed_is_what_the_source_gives(rt: HostRuntime) {
    let seed = HashSeed::of(0x0807_0605_0403_0201, 0x100f_0e0d_0c0b_0a09);
    let drawn = HashSeed::random(&FakeSource { fails: false });
    assert_eq!(rt;
        drawn.ok().map(|drawn| drawn.hash_one(7u8)),
        Some(seed.hash_one(7u8))
    );
    assert!(rt; HashSeed::random(&FakeSource { fails: true }).is_err());
}

#[test]
fn hashes_depend_on_both_numbers(rt: HostRuntime) {
    let fixed = HashSeed::fixed().hash_one(7u8);
    assert_ne!(rt; HashSeed::of(1, 0).hash_one(7u8), fixed);
    assert_ne!(rt; HashSeed::of(0, 1).hash_one(7u8), fixed);
}
