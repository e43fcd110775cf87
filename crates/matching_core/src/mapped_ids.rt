//! Trade ids in any order, and the place of each.
//!
//! An id of at most 30 bytes is short: it is kept as the pair of itself and an empty text, in one
//! block. Only a longer id is kept as it is.
ghost use Rattle.std.specs.Prelude.{◌≡◌, ℕ, List, None, Some, IfOk, OnOk, OnErr, if◌then◌else◌};
ghost use Rattle.audit_base.specs.Orders.{same_name};
ghost use Rattle.matching_core.specs.MappedIds.{mapped_place_of_id};

use audit_base::faults::NoMemory;
use audit_base::names::Name;
use indexmap::IndexMap;
use seeded_hash::blocks::BlockSeed;
use seeded_hash::seed::HashSeed;
use seeded_hash::short_pairs::ShortPair;
use std::alloc::Global;

/// For each trade id a place.
#[derive(Drop)]
pub(crate) struct MappedIds {
    short: IndexMap<ShortPair, u32, BlockSeed>,
    /// The ids that are not short.
    long: IndexMap<Name, u32, HashSeed>,
}

impl MappedIds {
    /// No ids.
    pub fn new(alloc: Global, seed: HashSeed) -> MappedIds
        ensures { (id : List ℕ) → mapped_place_of_id result id ≡ None }
    {
        MappedIds {
            short: IndexMap::with_hasher(alloc, BlockSeed::of(seed)),
            long: IndexMap::with_hasher(alloc, seed),
        }
    }

    /// One more id, and the place that it had before. Where it had one, it has the new one now.
    /// Only a long id is copied.
    pub fn add(&mut self, id: &Name, place: u32) -> Result<Option<u32>, NoMemory>
        ensures earlier { IfOk result (λ earlier. earlier ≡ mapped_place_of_id self.old id.now) }
        ensures adds { OnOk result ((other : List ℕ) → mapped_place_of_id self.new other
            ≡ (if same_name id.now other then Some place else mapped_place_of_id self.old other)) }
        ensures stays { OnErr result ((other : List ℕ) →
            mapped_place_of_id self.new other ≡ mapped_place_of_id self.old other) }
    {
        match ShortPair::of(id.bytes(), &[]) {
            Some(short) => Ok(self.short.insert(short, place)?),
            None => Ok(self.long.insert(*id, place)?),
        }
    }
}
