//! What the chain of each order has traded: its target, the target's target, and so on.
ghost use Rattle.std.specs.Prelude.{◌≡◌, ◌<◌, ◌≤◌, ◌*◌, ◌^◌, IfOk, length};
ghost use Rattle.audit_base.specs.Orders.{IsOrderList};
ghost use Rattle.session_audit.specs.Numbers.{AreChainTotals, AreBoundedTotals, target_total, IsTargetInside, TargetTotalFits};

use audit_base::faults::NoMemory;
use order_list::lists::OrderList;
use std::alloc::Global;

/// What the target of an order has traded, and the target's own chain, from the totals of the
/// orders before it.
fn target_total(target: Option<usize>, traded: &[u128], totals: &[u128]) -> u128
    requires inside { IsTargetInside target (length traded.now) (length totals.now) }
    requires small { TargetTotalFits target traded.now totals.now }
    ensures { result ≡ target_total target traded.now totals.now }
{
    match target {
        Some(index) => traded[index] + totals[index],
        None => 0,
    }
}

/// What the chain of each order has traded, by what each order has traded. One pass, since a
/// target is a lower index. Err only out of memory.
pub fn chain_totals(
    alloc: Global,
    orders: &OrderList<'_>,
    traded: &[u128],
) -> Result<Vec<u128>, NoMemory>
    requires order_list { IsOrderList orders.now }
    requires count { length orders.now ≤ length traded.now }
    requires small { AreBoundedTotals traded.now }
    ensures { IfOk result (λ totals.
        AreChainTotals orders.now traded.now (length orders.now) totals.items) }
{
    let mut totals = Vec::with_capacity(alloc, orders.len())?;
    for index in 0..orders.len() {
        totals.push(target_total(orders.at(index).target(), traded, &totals))?;
    }
    Ok(totals)
}
