//! Every offence in continuous trading.
ghost use Rattle.std.specs.Prelude.{◌≡◌, IfOk};
ghost use Rattle.audit_base.specs.Deals.{IsDealList};
ghost use Rattle.audit_base.specs.Orders.{IsOrderList};
ghost use Rattle.call_offences.specs.Inside.{AreOffencesInside};
ghost use Rattle.offence_list.specs.ContinuousLists as list;
ghost use Rattle.offence_list.specs.ListedOffences.{findings_of_offences};

use super::state::ListingState;
use audit_base::faults::NoMemory;
use audit_base::orders::Deal;
use continuous_audit::incoming_deals::sort_incoming_deals;
use offence_list::answers::push_answer;
use offence_list::offences::ListedOffence;
use order_arrivals::arrivals::arrivals_of;
use order_arrivals::dealt_orders::DealtOrders;
use order_list::lists::OrderList;
use std::alloc::Global;

/// Of each place at which continuous trading fails, in order, the finding that would be the first
/// offence if it were the least such place. What rests, what is left and what an order's Size is
/// follow from the deals as they stand, those of places that failed too. Finding 15 is told where
/// the order of the record is one of an active bid and an active ask that meet. In n log n steps
/// for n orders and deals, whatever these are. Err only out of memory.
pub fn continuous_offences(
    alloc: Global,
    orders: &OrderList<'_>,
    deals: &[Deal],
) -> Result<Vec<ListedOffence>, NoMemory>
    requires order_list { IsOrderList orders.now }
    requires deal_list { IsDealList orders.now deals.now }
    ensures list { IfOk result (λ found. findings_of_offences orders.now found.items
        ≡ list.continuous_offences orders.now deals.now) }
    ensures inside { IfOk result (λ found. AreOffencesInside orders.now found.items) }
{
    let incoming_deals = sort_incoming_deals(alloc, orders, deals)?;
    let market = DealtOrders {
        orders,
        deals,
        incoming_deals: &incoming_deals,
    };
    let arrivals = arrivals_of(alloc, &market)?;
    let mut state = ListingState::new(alloc, &market)?;
    let mut found = Vec::new(alloc);
    for order in 0..orders.len() {
        let offence = state.next_offence(&market, &arrivals, order)?;
        push_answer(&mut found, offence)?;
    }
    Ok(found)
}
