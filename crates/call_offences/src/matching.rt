//! Every deal that a matching does not have.
ghost use Rattle.std.specs.Prelude.{◌≡◌, IfOk};
ghost use Rattle.audit_base.specs.Deals.{IsDealList};
ghost use Rattle.call_offences.specs.Inside.{AreOffencesInside};
ghost use Rattle.offence_list.specs.CallLists as list;
ghost use Rattle.offence_list.specs.ListedOffences.{findings_of_offences};

use super::deal_offence::deal_offence;
use audit_base::faults::NoMemory;
use audit_base::orders::Deal;
use matching_core::checking::add_deal;
use matching_core::totals::zeros;
use offence_list::answers::push_answer;
use offence_list::offences::ListedOffence;
use order_list::lists::OrderList;
use std::alloc::Global;

/// Of each deal, in order, the first of the findings 7 to 11 that it has: an order that a record
/// cancels; a price outside a limit; under `uniform` a price that is not that of the first deal; a
/// bid, or an ask, that trades more than its quantity. A deal that offends counts in what its
/// orders trade up to later ones. One pass over the deals. Err only out of memory.
pub fn matching_offences(
    alloc: Global,
    orders: &OrderList<'_>,
    deals: &[Deal],
    uniform: bool,
) -> Result<Vec<ListedOffence>, NoMemory>
    requires { IsDealList orders.now deals.now }
    ensures list { IfOk result (λ found. findings_of_offences orders.now found.items
        ≡ list.matching_offences uniform orders.now deals.now) }
    ensures inside { IfOk result (λ found. AreOffencesInside orders.now found.items) }
{
    let mut traded = zeros(alloc, orders.len())?;
    let mut found = Vec::new(alloc);
    'deals: for deal in deals {
        let quantity = deal.quantity.value() as u128;
        let (bid_traded, ask_traded) = add_deal(&mut traded, deal.bid, deal.ask, quantity);
        let first = &deals[0];
        let offence = deal_offence(uniform, orders, deal, first, bid_traded, ask_traded);
        push_answer(&mut found, offence)?;
    }
    Ok(found)
}
