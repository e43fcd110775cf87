//! The least cut and the greatest executable volume, over all prices from 0 to 10^18.
//!
//! The cut falls only where a bid drops out, which is one unit above its limit; so the least cut,
//! and the least price that reaches it, are found among 0 and each bid limit plus 1. The
//! executable volume at a price, the smaller of demand and supply, rises only where an ask comes
//! in, which is at its limit; so the greatest, and the least price that reaches it, are found
//! among 0 and each ask limit.
ghost use Rattle.std.specs.Prelude.{◌≡◌, ◌≤◌, ◌<◌, ◌^◌, List, IfOk, OnOk, length};
ghost use Rattle.audit_base.specs.Numbers.{price_end};
ghost use Rattle.audit_base.specs.Bounds.{IsLeastCut, IsGreatestExecutableVolume};
ghost use Rattle.audit_base.specs.Orders.{OrdersInRange};
ghost use Rattle.audit_base.specs.declared.orders.Order.{Order};
ghost use Rattle.volume_bound.specs.Extremes as extreme;
ghost use Rattle.volume_bound.specs.Counting.{AreCountedSides};
ghost use Rattle.volume_bound.specs.Sides.{ForOrdersOf, cut_of, executable_of};

use super::sums::{CountedSides, Sums};
use audit_base::faults::NoMemory;
use audit_base::orders::Cut;
use order_list::lists::OrderList;
use std::alloc::Global;

/// The one with the smaller volume, and of equal volumes the one with the lower price.
fn smaller_cut(best: Cut, other: Cut) -> Cut
    ensures { result ≡ extreme.smaller_cut best other }
{
    if other.volume < best.volume || (other.volume == best.volume && other.price < best.price) {
        other
    } else {
        best
    }
}

/// The one with the greater volume, and of equal volumes the one with the lower price.
fn greater_cut(best: Cut, other: Cut) -> Cut
    ensures { result ≡ extreme.greater_cut best other }
{
    if best.volume < other.volume || (other.volume == best.volume && other.price < best.price) {
        other
    } else {
        best
    }
}

/// The cut at a price, given what was counted last: limits that follow each other
/// are mostly the same.
fn cut_after(sums: &Sums, last: CountedSides, price: u64) -> CountedSides
    requires counted { AreCountedSides sums.now last }
    requires volume { last.cut.volume ≡ cut_of sums.now last.cut.price }
    ensures same { result.cut ≡ record { price = price; volume = cut_of sums.now price } }
    ensures counted { AreCountedSides sums.now result }
{
    if price == last.cut.price {
        last
    } else {
        sums.cut_after(last, price)
    }
}

/// The executable volume at a price, given what was counted last.
fn executable_after(sums: &Sums, last: CountedSides, price: u64) -> CountedSides
    requires counted { AreCountedSides sums.now last }
    requires volume { last.cut.volume ≡ executable_of sums.now last.cut.price }
    ensures same { result.cut ≡ record { price = price; volume = executable_of sums.now price } }
    ensures counted { AreCountedSides sums.now result }
{
    if price == last.cut.price {
        last
    } else {
        sums.executable_after(last, price)
    }
}

/// The least cut of the orders that have these sums, over all prices from 0 to 10^18, and the least
/// price that reaches it.
pub fn least_cut_of(sums: &Sums) -> Cut
    ensures least { ForOrdersOf sums.now (λ orders. IsLeastCut orders result) }
    ensures in_range { result.price ≤ price_end }
{
    let mut last = sums.cut_after(CountedSides::NONE, 0);
    let mut best = last.cut;
    for bid in sums.bids() {
        last = cut_after(sums, last, bid.limit.units() + 1);
        best = smaller_cut(best, last.cut);
    }
    best
}

/// The greatest executable volume of these orders, over the same prices, and the least
/// price that reaches it.
pub fn best_uniform_of(sums: &Sums) -> Cut
    ensures best { ForOrdersOf sums.now (λ orders. IsGreatestExecutableVolume orders result) }
    ensures in_range { result.price ≤ price_end }
{
    let mut last = sums.executable_after(CountedSides::NONE, 0);
    let mut best = last.cut;
    for ask in sums.asks() {
        last = executable_after(sums, last, ask.limit.units());
        best = greater_cut(best, last.cut);
    }
    best
}

/// The least cut over all prices from 0 to 10^18, and the least price that reaches it. Err
/// only out of memory.
pub fn least_cut(alloc: Global, orders: &OrderList<'_>) -> Result<Cut, NoMemory>
    requires fits_indices { length orders.now < 2 ^ 32 }
    ensures least { IfOk result (IsLeastCut orders.now) }
    ensures in_range { IfOk result (λ cut. cut.price ≤ price_end) }
    ensures numbers { OnOk result (OrdersInRange orders.now) }
{
    let sums = Sums::build(alloc, orders)?;
    Ok(least_cut_of(&sums))
}

/// The greatest executable volume over these prices, and the least price that reaches it. Err
/// only out of memory.
pub fn best_uniform(alloc: Global, orders: &OrderList<'_>) -> Result<Cut, NoMemory>
    requires fits_indices { length orders.now < 2 ^ 32 }
    ensures best { IfOk result (IsGreatestExecutableVolume orders.now) }
    ensures in_range { IfOk result (λ cut. cut.price ≤ price_end) }
    ensures numbers { OnOk result (OrdersInRange orders.now) }
{
    let sums = Sums::build(alloc, orders)?;
    Ok(best_uniform_of(&sums))
}
