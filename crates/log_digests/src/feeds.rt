//! Feeds that keep the hash of what they are handed.
ghost use Rattle.std.specs.Prelude.{◌≡◌, ◌++◌, ℕ, List, []};
ghost use Rattle.log_digests.specs.Digests.{digest_of};

use crate::digests::LogDigest;
use audit_base::faults::NoMemory;
use log_source::feed::Feed;
use sha2::{Digest, Sha256};

/// A feed that keeps the hash of what it is handed, and nothing of its bytes. It takes no memory.
#[derive(Drop)]
pub struct DigestFeed {
    hasher: Sha256,
}

impl DigestFeed {
    /// A feed that has been handed no bytes.
    pub fn new() -> DigestFeed
        ensures { ⟦<DigestFeed as Feed>⟧.stands_for result [] }
    {
        DigestFeed {
            hasher: Sha256::new(),
        }
    }

    /// Hands it the next bytes, however many they are.
    pub(crate) fn take(&mut self, piece: &[u8])
        ensures { (bytes : List ℕ) → ⟦<DigestFeed as Feed>⟧.stands_for self.old bytes
            → ⟦<DigestFeed as Feed>⟧.stands_for self.new (bytes ++ piece.now) }
    {
        self.hasher.update(piece);
    }

    /// The digest of all that it was handed so far.
    pub(crate) fn digest_so_far(&self) -> LogDigest
        ensures { (bytes : List ℕ) → ⟦<DigestFeed as Feed>⟧.stands_for self.now bytes
            → result ≡ digest_of bytes }
    {
        let Ok(hasher) = self.hasher.clone() else {
            unreachable!()
        };
        LogDigest::of(hasher.finalize())
    }

    /// The digest of all that it was handed.
    pub fn digest(self) -> LogDigest
        ensures { (bytes : List ℕ) → ⟦<DigestFeed as Feed>⟧.stands_for self bytes
            → result ≡ digest_of bytes }
    {
        LogDigest::of(self.hasher.finalize())
    }
}

impl Feed for DigestFeed {
    ghost use Rattle.sha2.specs.Hashers.{Holds256};

    ghost stands_for = { λ feed bytes. Holds256 feed.hasher bytes };

    fn feed(&mut self, piece: &[u8]) -> Result<(), NoMemory> {
        self.take(piece);
        Ok(())
    }
}

/// A feed that keeps the hash of what it is handed beside what another feed keeps of it: each
/// piece is handed to both.
#[derive(Drop)]
pub struct DigestingFeed<D> {
    digest: DigestFeed,
    feed: D,
}

impl<D: Feed> DigestingFeed<D> {
    /// A feed that has been handed no bytes, over one that has been handed none.
    pub fn over(feed: D) -> Self
        requires { D.stands_for feed [] }
        ensures { ⟦<DigestingFeed<D> as Feed>⟧.stands_for result [] }
    {
        DigestingFeed {
            digest: DigestFeed::new(),
            feed,
        }
    }
}

impl<D: Feed + Drop> DigestingFeed<D> {
    /// The digest of all that it was handed, and the other feed, which was handed the same.
    pub fn end(self) -> (LogDigest, D)
        ensures digest { (bytes : List ℕ) → ⟦<DigestingFeed<D> as Feed>⟧.stands_for self bytes
            → result.0 ≡ digest_of bytes }
        ensures feed { (bytes : List ℕ) → ⟦<DigestingFeed<D> as Feed>⟧.stands_for self bytes
            → D.stands_for result.1 bytes }
    {
        (self.digest.digest(), self.feed)
    }
}

impl<D: Feed> Feed for DigestingFeed<D> {
    ghost use Rattle.log_digests.specs.Digests.{StandsForBoth};

    ghost stands_for = { λ both bytes.
        StandsForBoth ⟦<DigestFeed as Feed>⟧.stands_for D.stands_for both.digest both.feed bytes };

    fn feed(&mut self, piece: &[u8]) -> Result<(), NoMemory> {
        self.digest.feed(piece)?;
        self.feed.feed(piece)
    }
}
