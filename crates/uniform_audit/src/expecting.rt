//! The Expected trades of the rule `uniform`.
ghost use Rattle.std.specs.Prelude.{◌≡◌, IfOk};
ghost use Rattle.audit_base.specs.Orders.{IsOrderList, OrdersInRange};
ghost use Rattle.audit_base.specs.Bounds.{IsGreatestExecutableVolume};
ghost use Rattle.audit_base.specs.Deals.{IsDealList};
ghost use Rattle.audit_base.specs.Calls.{ConformsUniform};
ghost use Rattle.audit_base.specs.Expected.{IsExpectedUniform};

use audit_base::faults::NoMemory;
use audit_base::numbers::Price;
use audit_base::orders::{Cut, Deal};
use call_laws::optimum::{uniform_optimum, uniform_trades_are_expected, units_suffice};
use order_list::lists::OrderList;
use rank_order::ranking::ranked_sides;
use std::alloc::Global;
use unit_pairs::pairing::uniform_pairs;
use volume_bound::extremes::best_uniform;

/// The price of a bound. It is below 10^18 units, since at that price nobody bids.
fn price_of(orders: &OrderList<'_>, most: Cut) -> Price
    requires numbers { OrdersInRange orders.now }
    requires best { IsGreatestExecutableVolume orders.now most }
    ensures { result ≡ most.price }
{
    units_suffice();
    match Price::of(most.price) {
        Some(price) => price,
        None => unreachable!(),
    }
}

/// The Expected trades of `uniform`: unit j of the bids meets unit j of the asks, both in rank
/// order, up to the greatest volume of a matching of one price, at the rule's bound. They conform
/// to the rule. In n log n steps for n orders. Err only out of memory.
pub fn expected_uniform(alloc: Global, orders: &OrderList<'_>) -> Result<Vec<Deal>, NoMemory>
    requires { IsOrderList orders.now }
    ensures expected { IfOk result (λ deals. IsExpectedUniform orders.now deals.items) }
    ensures conforms { IfOk result (λ deals. ConformsUniform orders.now deals.items) }
    ensures deal_list { IfOk result (λ deals. IsDealList orders.now deals.items) }
{
    uniform_optimum();
    uniform_trades_are_expected();
    units_suffice();
    let most = best_uniform(alloc, orders)?;
    let sides = ranked_sides(alloc, orders)?;
    uniform_pairs(alloc, orders, &sides, most.volume, price_of(orders, most))
}
