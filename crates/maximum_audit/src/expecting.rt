//! The Expected trades of the rule `maximum`.
ghost use Rattle.std.specs.Prelude.{IfOk};
ghost use Rattle.audit_base.specs.Orders.{IsOrderList};
ghost use Rattle.audit_base.specs.Deals.{IsDealList};
ghost use Rattle.audit_base.specs.Calls.{ConformsMaximum};
ghost use Rattle.audit_base.specs.Expected.{IsExpectedMaximum};

use audit_base::faults::NoMemory;
use audit_base::orders::Deal;
use call_laws::optimum::{
    greatest_matching_reaches_the_least_cut, maximum_trades_are_expected, units_suffice,
};
use order_list::lists::OrderList;
use rank_order::ranking::ranked_sides;
use std::alloc::Global;
use unit_pairs::pairing::maximum_pairs;
use volume_bound::extremes::least_cut;

/// The Expected trades of `maximum`, which are a matching of the greatest volume V: unit V + 1 - j
/// of the bids meets unit j of the asks, both in rank order, at the ask's limit. They conform to
/// the rule. In n log n steps for n orders. Err only out of memory.
pub fn greatest_matching(alloc: Global, orders: &OrderList<'_>) -> Result<Vec<Deal>, NoMemory>
    requires { IsOrderList orders.now }
    ensures expected { IfOk result (λ deals. IsExpectedMaximum orders.now deals.items) }
    ensures conforms { IfOk result (λ deals. ConformsMaximum orders.now deals.items) }
    ensures deal_list { IfOk result (λ deals. IsDealList orders.now deals.items) }
{
    greatest_matching_reaches_the_least_cut();
    maximum_trades_are_expected();
    units_suffice();
    let most = least_cut(alloc, orders)?;
    let sides = ranked_sides(alloc, orders)?;
    maximum_pairs(alloc, orders, &sides, most.volume)
}
