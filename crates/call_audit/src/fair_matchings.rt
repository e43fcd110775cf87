//! Whether deals are a fair matching: the first two parts of every rule of a call but `matching`.
ghost use Rattle.std.specs.Prelude.{IfOk};
ghost use Rattle.audit_base.specs.Orders.{IsOrderList};
ghost use Rattle.audit_base.specs.Deals.{IsDealList, DealsInRange};
ghost use Rattle.call_audit.specs.FairMatchings.{IsFairMatching, IsFairMatchingOffence};
ghost use Rattle.matching_core.specs.Answers.{IfCheckFinding};

use audit_base::orders::Deal;
use audit_base::ranges::deals_in_range;
use fairness::checking::check_fair_unranked;
use matching_core::checking::check_matching;
use matching_core::outcomes::CheckFault;
use matching_core::totals::Totals;
use order_list::lists::OrderList;
use std::alloc::Global;

/// The totals of deals that are a fair matching (under `uniform` one of one price); else the first
/// of the findings 7 to 13: those that no matching has, and after them the least deal whose bid or
/// ask is outranked by an order that is not fully traded. Ok exactly where the deals are such a
/// matching and Found exactly where they are not, out of memory aside.
pub fn fair_matching(
    alloc: Global,
    orders: &OrderList<'_>,
    deals: &[Deal],
    uniform: bool,
) -> Result<Totals, CheckFault>
    requires order_list { IsOrderList orders.now }
    requires deal_list { IsDealList orders.now deals.now }
    ensures fair { IfOk result (IsFairMatching uniform orders.now deals.now) }
    ensures found { IfCheckFinding result (IsFairMatchingOffence uniform orders.now deals.now) }
    ensures numbers { DealsInRange deals.now }
{
    deals_in_range(deals);
    let totals = check_matching(alloc, orders, deals, uniform)?;
    check_fair_unranked(orders, deals, totals.as_slice())?;
    Ok(totals)
}
