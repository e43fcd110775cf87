//! The ids of the trades so far, and where each of them was added last.
//!
//! Ids that rise are kept in a row without a map; an id that is not greater than all of these is
//! looked up among them, and kept in a map.
ghost use Rattle.std.specs.Prelude.{◌≡◌, ℕ, List, true, None};
ghost use Rattle.matching_core.specs.IdOrder.{is_above_ids};
ghost use Rattle.matching_core.specs.MappedIds.{mapped_place_of_id};

use super::mapped_ids::MappedIds;
use super::rising_ids::RisingIds;
use audit_base::faults::NoMemory;
use audit_base::names::Name;
use seeded_hash::seed::HashSeed;
use std::alloc::Global;

/// For each trade id the place of the trade that was added last with it.
#[derive(Drop)]
pub(crate) struct TradeIds {
    rising: RisingIds,
    /// The ids that were not greater than all of the rising ones.
    mapped: MappedIds,
    // So an id that is greater than all of the rising ones is new.
    ghost apart: { (id : List ℕ) → is_above_ids rising id ≡ true → mapped_place_of_id mapped id ≡ None },
}

impl TradeIds {
    ghost use Rattle.std.specs.Prelude.{◌≡◌, ℕ, List, None, IfOk, OnOk};
    ghost use Rattle.matching_core.specs.DealsSoFar.{kept_place_of_id, AddsId};

    /// No ids.
    pub fn new(alloc: Global, seed: HashSeed) -> TradeIds
        ensures { (id : List ℕ) → kept_place_of_id result id ≡ None }
    {
        TradeIds {
            rising: RisingIds::new(alloc),
            mapped: MappedIds::new(alloc, seed),
        }
    }

    /// One more id, and the place that it had before. Where it had one, it has the new one now.
    pub fn add(&mut self, id: &Name, place: u32) -> Result<Option<u32>, NoMemory>
        ensures earlier { IfOk result (λ earlier. earlier ≡ kept_place_of_id self.old id.now) }
        ensures adds { OnOk result (AddsId self.old self.new id.now place) }
    {
        if self.rising.are_below(id) {
            self.rising.push(id, place)?;
            return Ok(None);
        }
        match self.mapped.add(id, place)? {
            Some(earlier) => Ok(Some(earlier)),
            None => Ok(self.rising.find(id)),
        }
    }
}
