//! Lots: the volume filled along the orders of a side in rank order (price-time priority).
//!
//! `maximum` takes the bids' lots from last to first. That reversal and the price are all in which
//! the two rules differ.
ghost use Rattle.std.specs.Prelude.{◌≡◌, ◌<◌, ◌≤◌, IfOk, All, length, min, sum_by};
ghost use Rattle.audit_base.specs.Numbers.{greatest_quantity};
ghost use Rattle.audit_base.specs.Orders.{IsOrderList, quantity_at};
ghost use Rattle.rank_order.specs.Sides.{AreRanked};
ghost use Rattle.unit_pairs.specs.Lots.{AreLotsOf, lots_total};
ghost use Rattle.unit_pairs.specs.Sides.{AreSideLots};
ghost use Rattle.unit_pairs.specs.Volumes.{HaveUnits};

use audit_base::faults::NoMemory;
use order_list::listed::ListedOrder;
use order_list::lists::OrderList;
use rank_order::ranking::RankedSides;
use std::alloc::Global;

/// What an order trades of a volume.
#[derive(Clone, Copy, Debug, PartialEq, Eq)]
pub struct Lot {
    /// The index of the order.
    pub order: usize,
    /// From 1 to 1,000,000,000,000.
    pub quantity: u64,
}

/// The order's quantity, or what is left of the volume if that is less.
fn quantity_within(order: &ListedOrder<'_>, left: u128) -> u64
    requires { 0 < left }
    ensures lesser { result ≡ min order.now.quantity left }
    ensures some { 0 < result }
    ensures most { result ≤ greatest_quantity }
{
    let quantity = order.quantity().value();
    if (quantity as u128) < left {
        quantity
    } else {
        left as u64
    }
}

/// The lots of the first of these orders, best first, which together are the volume: each is the
/// order's whole quantity, but for the last, which may be a part of it. Err only out of memory.
fn lots_of(
    alloc: Global,
    orders: &OrderList<'_>,
    ranks: &[usize],
    volume: u128,
) -> Result<Vec<Lot>, NoMemory>
    requires inside { All (λ i. i < length orders.now) ranks.now }
    requires enough { volume ≤ sum_by (quantity_at orders.now) ranks.now }
    ensures lots { IfOk result (λ lots. AreLotsOf orders.now ranks.now volume lots.items) }
    ensures whole { IfOk result (λ lots. lots_total lots.items ≡ volume) }
{
    let mut lots = Vec::with_capacity(alloc, ranks.len())?;
    let mut left = volume;
    for rank in ranks {
        if left == 0 {
            break;
        }
        let quantity = quantity_within(&orders.at(*rank), left);
        let lot = Lot {
            order: *rank,
            quantity,
        };
        lots.push(lot)?;
        left -= quantity as u128;
    }
    Ok(lots)
}

/// The lots of both sides.
#[derive(Debug, Drop)]
pub struct SideLots {
    pub bids: Vec<Lot>,
    pub asks: Vec<Lot>,
}

/// The lots of both sides that each together are the volume, the best orders first. Err only out of
/// memory.
pub fn side_lots(
    alloc: Global,
    orders: &OrderList<'_>,
    sides: &RankedSides,
    volume: u128,
) -> Result<SideLots, NoMemory>
    requires order_list { IsOrderList orders.now }
    requires ranked { AreRanked orders.now sides.now }
    requires enough { HaveUnits orders.now volume }
    ensures { IfOk result (AreSideLots orders.now sides.now volume) }
{
    Ok(SideLots {
        bids: lots_of(alloc, orders, &sides.bids, volume)?,
        asks: lots_of(alloc, orders, &sides.asks, volume)?,
    })
}
