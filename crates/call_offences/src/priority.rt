//! Every deal that passes over a short order.
ghost use Rattle.std.specs.Prelude.{◌≡◌, IfOk};
ghost use Rattle.audit_base.specs.declared.terms.Side.TheVariants.{Buy, Sell};
ghost use Rattle.audit_base.specs.CallOffences.{best_short};
ghost use Rattle.audit_base.specs.Deals.{AreTotals, IsDealList};
ghost use Rattle.audit_base.specs.Orders.{IsOrderList};
ghost use Rattle.call_offences.specs.Inside.{AreOffencesInside};
ghost use Rattle.offence_list.specs.CallLists as list;
ghost use Rattle.offence_list.specs.ListedOffences.{findings_of_offences};

use super::passed_over::passed_over;
use super::totals::totals_of;
use audit_base::faults::NoMemory;
use audit_base::orders::Deal;
use audit_base::terms::Side;
use offence_list::answers::push_answer;
use offence_list::offences::ListedOffence;
use order_list::lists::OrderList;
use short_order::searching::best_short_on;
use std::alloc::Global;

/// The offences at the deals that pass over the best short order of a side.
fn all_passed_over(
    alloc: Global,
    orders: &OrderList<'_>,
    deals: &[Deal],
    traded: &[u128],
    short_bid: Option<usize>,
    short_ask: Option<usize>,
) -> Result<Vec<ListedOffence>, NoMemory>
    requires order_list { IsOrderList orders.now }
    requires deal_list { IsDealList orders.now deals.now }
    requires totals { AreTotals orders.now deals.now traded.now }
    requires short_bid { short_bid ≡ best_short orders.now deals.now Buy }
    requires short_ask { short_ask ≡ best_short orders.now deals.now Sell }
    ensures list { IfOk result (λ found. findings_of_offences orders.now found.items
        ≡ list.priority_offences orders.now deals.now) }
    ensures inside { IfOk result (λ found. AreOffencesInside orders.now found.items) }
{
    let mut found = Vec::new(alloc);
    'deals: for deal in deals {
        let offence = passed_over(orders, traded, short_bid, short_ask, deal);
        push_answer(&mut found, offence)?;
    }
    Ok(found)
}

/// Of each deal, in order, the first of the findings 12 and 13 that it has: its bid is outranked by
/// a short bid (price-time priority), or else its ask by a short ask. An order is short where no
/// record cancels it and it trades less than its quantity in the whole log; the best of its side is
/// shown. Two passes over the deals and one over the orders for each side. Err only out of memory.
pub fn priority_offences(
    alloc: Global,
    orders: &OrderList<'_>,
    deals: &[Deal],
) -> Result<Vec<ListedOffence>, NoMemory>
    requires order_list { IsOrderList orders.now }
    requires deal_list { IsDealList orders.now deals.now }
    ensures list { IfOk result (λ found. findings_of_offences orders.now found.items
        ≡ list.priority_offences orders.now deals.now) }
    ensures inside { IfOk result (λ found. AreOffencesInside orders.now found.items) }
{
    let traded = totals_of(alloc, orders, deals)?;
    let short_bid = best_short_on(orders, &traded, Side::Buy);
    let short_ask = best_short_on(orders, &traded, Side::Sell);
    all_passed_over(alloc, orders, deals, &traded, short_bid, short_ask)
}
