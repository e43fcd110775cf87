//! Unit by unit, the lots of the bids meet those of the asks: one pass along both lists, in
//! which the trade is the smaller of what is left of both lots, and each lot that is used up
//! gives way to the next.
ghost use Rattle.std.specs.Prelude.{◌≡◌, ◌<◌, ◌≤◌, ◌+◌, ◌-◌, ◌^◌, OnOk, IfOk, AllPairs, length};
ghost use Rattle.unit_pairs.specs.Lots.{AreLots, lot_at};
ghost use Rattle.unit_pairs.specs.Meeting.{AreUnitPairs, AreLotSides, IsProgress, UnitPairBefore, UnitPairsDiffer, units_met};

use super::lots::Lot;
use audit_base::faults::NoMemory;
use std::alloc::Global;

/// A bid and an ask, and how many of their units meet.
#[derive(Clone, Copy, Debug, PartialEq, Eq, PartialOrd, Ord)]
pub struct UnitPair {
    /// The index of the bid.
    pub bid: usize,
    /// The index of the ask.
    pub ask: usize,
    /// From 1 to 1,000,000,000,000.
    pub quantity: u64,
}

/// How far the lots of a side have met: the next lot, and how much of it has met already.
#[derive(Clone, Copy)]
struct Progress {
    lot: usize,
    met: u64,
}

/// What has not met yet of the next lot.
fn left_at(lots: &[Lot], progress: Progress) -> u64
    requires inside { progress.lot < length lots.now }
    requires progress { IsProgress lots.now progress }
    ensures { result ≡ (lot_at lots.now progress.lot).quantity - progress.met }
{
    lots[progress.lot].quantity - progress.met
}

/// The progress once this much more has met.
fn progress_after(lots: &[Lot], progress: Progress, quantity: u64) -> Progress
    requires inside { progress.lot < length lots.now }
    requires left { progress.met + quantity ≤ (lot_at lots.now progress.lot).quantity }
    requires progress { IsProgress lots.now progress }
    requires lots { AreLots lots.now }
    ensures progress { IsProgress lots.now result }
    ensures met { units_met lots.now result ≡ units_met lots.now progress + quantity }
{
    if progress.met + quantity < lots[progress.lot].quantity {
        Progress {
            lot: progress.lot,
            met: progress.met + quantity,
        }
    } else {
        Progress {
            lot: progress.lot + 1,
            met: 0,
        }
    }
}

/// The pairs of two lots that have units in common, where unit n of the bids meets
/// unit n of the asks.
fn meet(alloc: Global, bids: &[Lot], asks: &[Lot]) -> Result<Vec<UnitPair>, NoMemory>
    requires { AreLotSides bids.now asks.now }
    ensures pairs { IfOk result (λ pairs. AreUnitPairs bids.now asks.now pairs.items) }
    ensures differ { IfOk result (λ pairs. AllPairs UnitPairsDiffer pairs.items) }
    ensures bounded { IfOk result
        (λ pairs. length pairs.items ≤ length bids.now + length asks.now) }
{
    let mut pairs = Vec::with_capacity(alloc, bids.len() + asks.len())?;
    let mut bid_progress = Progress { lot: 0, met: 0 };
    let mut ask_progress = Progress { lot: 0, met: 0 };
    while bid_progress.lot < bids.len() && ask_progress.lot < asks.len() {
        let quantity = left_at(bids, bid_progress).min(left_at(asks, ask_progress));
        let pair = UnitPair {
            bid: bids[bid_progress.lot].order,
            ask: asks[ask_progress.lot].order,
            quantity,
        };
        pairs.push(pair)?;
        bid_progress = progress_after(bids, bid_progress, quantity);
        ask_progress = progress_after(asks, ask_progress, quantity);
    }
    Ok(pairs)
}

/// The pairs of two lots that have units in common, where unit n of the bids meets unit n of the
/// asks, in order of the bid's index and then of the ask's. Err only out of memory.
pub fn pairs_in_order(alloc: Global, bids: &[Lot], asks: &[Lot]) -> Result<Vec<UnitPair>, NoMemory>
    requires { AreLotSides bids.now asks.now }
    ensures pairs { IfOk result (λ pairs. AreUnitPairs bids.now asks.now pairs.items) }
    ensures in_order { IfOk result (λ pairs. AllPairs UnitPairBefore pairs.items) }
    ensures bounded { IfOk result
        (λ pairs. length pairs.items ≤ length bids.now + length asks.now) }
{
    let mut pairs = meet(alloc, bids, asks)?;
    pairs.sort()?;
    Ok(pairs)
}
