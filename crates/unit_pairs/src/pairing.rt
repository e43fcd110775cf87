//! The Expected trades of a call. Unit j of a side belongs to one order, in rank order: the better
//! limit before the worse, and of the same limit the smaller place (price-time priority).
ghost use Rattle.std.specs.Prelude.{◌≡◌, ◌<◌, ◌≤◌, ◌+◌, ◌^◌, IfOk, All, length};
ghost use Rattle.audit_base.specs.Orders.{IsOrderList};
ghost use Rattle.audit_base.specs.Deals.{IsDealList};
ghost use Rattle.audit_base.specs.Expected.{uniform_deals, maximum_deals};
ghost use Rattle.rank_order.specs.Sides.{AreRanked};
ghost use Rattle.unit_pairs.specs.Meeting.{AreLotSides};
ghost use Rattle.unit_pairs.specs.Numbering.{AreLotDeals};
ghost use Rattle.unit_pairs.specs.Volumes.{HaveUnits};

use super::lots::{SideLots, side_lots};
use super::meeting::pairs_in_order;
use super::numbering::{DealPrice, number_pairs};
use audit_base::faults::NoMemory;
use audit_base::numbers::Price;
use audit_base::orders::Deal;
use order_list::lists::OrderList;
use rank_order::ranking::RankedSides;
use std::alloc::Global;

/// The deals of the lots of both sides, unit n of the bids with unit n of the asks.
fn deals_of(
    alloc: Global,
    orders: &OrderList<'_>,
    lots: SideLots,
    price: &DealPrice,
) -> Result<Vec<Deal>, NoMemory>
    requires inside { All (λ l. l.order < length orders.now) lots.asks.items }
    requires sides { AreLotSides lots.bids.items lots.asks.items }
    ensures { let are_deals = AreLotDeals orders.now price.now lots.bids.items lots.asks.items in
        IfOk result (λ deals. are_deals deals.items) }
{
    let pairs = pairs_in_order(alloc, &lots.bids, &lots.asks)?;
    number_pairs(alloc, orders, &pairs, price)
}

/// The Expected trades under `uniform` where this volume trades at this price: unit j of the bids
/// meets unit j of the asks, for each j from 1 to the volume. `sides` are the orders that no record
/// cancels, best first. One deal for each bid and ask that have such units, in order of the bid's
/// index and then of the ask's, numbered from 1. Err only out of memory.
pub fn uniform_pairs(
    alloc: Global,
    orders: &OrderList<'_>,
    sides: &RankedSides,
    volume: u128,
    price: Price,
) -> Result<Vec<Deal>, NoMemory>
    requires order_list { IsOrderList orders.now }
    requires ranked { AreRanked orders.now sides.now }
    requires enough { HaveUnits orders.now volume }
    ensures expected { let deals = uniform_deals orders.now volume price in
        IfOk result (λ made. made.items ≡ deals) }
    ensures deals { IfOk result (λ deals. IsDealList orders.now deals.items) }
{
    let lots = side_lots(alloc, orders, sides, volume)?;
    deals_of(alloc, orders, lots, &DealPrice::Same(price))
}

/// The Expected trades under `maximum` where this volume trades: unit volume + 1 - j of the bids
/// meets unit j of the asks at the ask's limit, for each j from 1 to the volume. `sides` are the
/// orders that no record cancels, best first. One deal for each bid and ask that have such units,
/// in order of the bid's index and then of the ask's, numbered from 1. Err only out of memory.
pub fn maximum_pairs(
    alloc: Global,
    orders: &OrderList<'_>,
    sides: &RankedSides,
    volume: u128,
) -> Result<Vec<Deal>, NoMemory>
    requires order_list { IsOrderList orders.now }
    requires ranked { AreRanked orders.now sides.now }
    requires enough { HaveUnits orders.now volume }
    ensures expected { IfOk result (λ deals. deals.items ≡ maximum_deals orders.now volume) }
    ensures deals { IfOk result (λ deals. IsDealList orders.now deals.items) }
{
    let mut lots = side_lots(alloc, orders, sides, volume)?;
    lots.bids.reverse();
    deals_of(alloc, orders, lots, &DealPrice::AskLimit)
}
