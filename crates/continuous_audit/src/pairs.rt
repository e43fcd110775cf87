//! The pairs of a bid and an ask that trade, in their order, and their deals.
ghost use Rattle.std.specs.Prelude.{◌≡◌, ◌<◌, ◌≤◌, ◌++◌, ◌^◌, IfOk, OnOk, All, IsPermutation, IsSorted, length, map};
ghost use Rattle.audit_base.specs.Numbers.{greatest_quantity};
ghost use Rattle.audit_base.specs.Orders.{order_at};
ghost use Rattle.audit_base.specs.Deals.{DealsInRange};
ghost use Rattle.audit_base.specs.Expected.{resting_limit};
ghost use Rattle.continuous_audit.specs.Pairs.{AreFillPairDeals, IsFillPairInRange, fill_pair_cmp, fill_pair};

use super::fills::Fill;
use audit_base::faults::NoMemory;
use audit_base::numbers::{Price, Quantity};
use audit_base::orders::Deal;
use audit_base::ranges::deals_in_range;
use audit_base::terms::Side;
use order_list::lists::OrderList;
use std::alloc::Global;

/// A bid and an ask, by their indices, and what they trade with each other.
#[derive(Clone, Copy, Debug, PartialEq, Eq, PartialOrd, Ord)]
pub struct FillPair {
    pub bid: usize,
    pub ask: usize,
    /// From 1 to 1,000,000,000,000.
    pub quantity: u64,
}

/// The pair of an incoming order of a side and one that it trades with.
fn fill_pair(side: Side, order: usize, fill: &Fill) -> FillPair
    ensures { result ≡ fill_pair side order fill.now }
{
    let (bid, ask) = match side {
        Side::Buy => (order, fill.index),
        Side::Sell => (fill.index, order),
    };
    FillPair {
        bid,
        ask,
        quantity: fill.quantity,
    }
}

/// Adds the pairs of an incoming order of a side and those that it trades with.
pub fn push_pairs(
    side: Side,
    order: usize,
    fills: &[Fill],
    pairs: &mut Vec<FillPair>,
) -> Result<(), NoMemory>
    ensures { OnOk result
        (pairs.new.items ≡ pairs.old.items ++ map (fill_pair side order) fills.now) }
{
    for (index, fill) in fills.iter().enumerate() {
        pairs.push(fill_pair(side, order, fill))?;
    }
    Ok(())
}

/// Puts pairs in order of the bid's index, then of the ask's.
pub fn sort_pairs(pairs: &mut Vec<FillPair>) -> Result<(), NoMemory>
    ensures moved { OnOk result (IsPermutation pairs.old.items pairs.new.items) }
    ensures sorted { OnOk result (IsSorted fill_pair_cmp pairs.new.items) }
{
    pairs.sort()?;
    Ok(())
}

/// The limit of the earlier of two orders.
fn resting_limit(orders: &OrderList<'_>, bid: usize, ask: usize) -> Price
    requires bid { bid < length orders.now }
    requires ask { ask < length orders.now }
    ensures { result ≡ resting_limit orders.now bid ask }
{
    let (bid, ask) = (orders.at(bid), orders.at(ask));
    if bid.place() < ask.place() {
        bid.limit()
    } else {
        ask.limit()
    }
}

/// The quantity of a pair.
fn quantity_of(pair: &FillPair) -> Quantity
    requires some { 0 < pair.now.quantity }
    requires most { pair.now.quantity ≤ greatest_quantity }
    ensures { result ≡ pair.now.quantity }
{
    match Quantity::of(pair.quantity) {
        Some(quantity) => quantity,
        None => unreachable!(),
    }
}

/// One deal for each pair, numbered from 1 in their order, at the limit of the earlier order.
pub fn number_pairs(
    alloc: Global,
    orders: &OrderList<'_>,
    pairs: &[FillPair],
) -> Result<Vec<Deal>, NoMemory>
    requires fits_indices { length pairs.now < 2 ^ 32 }
    requires dealt { All (IsFillPairInRange (length orders.now)) pairs.now }
    ensures numbered { IfOk result (λ deals. AreFillPairDeals orders.now pairs.now deals.items) }
    ensures ranges { IfOk result (λ deals. DealsInRange deals.items) }
{
    let mut deals = Vec::with_capacity(alloc, pairs.len())?;
    for (i, pair) in pairs.iter().enumerate() {
        let deal = Deal {
            place: i as u32 + 1,
            bid: pair.bid,
            ask: pair.ask,
            quantity: quantity_of(pair),
            price: resting_limit(orders, pair.bid, pair.ask),
        };
        deals.push(deal)?;
    }
    deals_in_range(&deals);
    Ok(deals)
}
