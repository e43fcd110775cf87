//! What each order trades, whatever is wrong with the deals.
ghost use Rattle.std.specs.Prelude.{IfOk};
ghost use Rattle.audit_base.specs.Deals.{AreTotals, IsDealList};

use audit_base::faults::NoMemory;
use audit_base::orders::Deal;
use matching_core::checking::add_deal;
use matching_core::totals::zeros;
use order_list::lists::OrderList;
use std::alloc::Global;

/// What each order trades in all deals, by its index. Err only out of memory.
pub fn totals_of(
    alloc: Global,
    orders: &OrderList<'_>,
    deals: &[Deal],
) -> Result<Vec<u128>, NoMemory>
    requires { IsDealList orders.now deals.now }
    ensures { IfOk result (λ traded. AreTotals orders.now deals.now traded.items) }
{
    let mut traded = zeros(alloc, orders.len())?;
    'deals: for deal in deals {
        let quantity = deal.quantity.value() as u128;
        add_deal(&mut traded, deal.bid, deal.ask, quantity);
    }
    Ok(traded)
}
