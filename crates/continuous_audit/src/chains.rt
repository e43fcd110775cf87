//! What the chain of an order has traded.
//!
//! What a chain traded is kept, not summed anew. Order lists that no history gives are still
//! judged, by going along the chain.
ghost use Rattle.std.specs.Prelude.{◌≡◌, ◌<◌, ◌≤◌, ◌*◌, ◌^◌, ℕ, List, true, length, sum_by};
ghost use Rattle.audit_base.specs.declared.orders.Deal.{Deal as DealSpec};
ghost use Rattle.audit_base.specs.Orders.{IsOrderList};
ghost use Rattle.audit_base.specs.Continuous.{chain_traded_quantity, chain};
ghost use Rattle.audit_base.specs.Deals.{number_at};
ghost use Rattle.continuous_audit.specs.Chains.{HasChainEnded, AreNumbersInBounds, IsKnownBeforeArrival, ends_by};
ghost use Rattle.continuous_audit.specs.Scans.{AreTotalsSmall};

use super::order_numbers::OrderNumbers;
use order_list::lists::OrderList;

/// What the orders of the chain of an order have traded: its target, the target's
/// target, and so on.
fn chain_total(orders: &OrderList<'_>, traded: &[u64], order: usize) -> u128
    requires order_list { IsOrderList orders.now }
    requires order { order < length orders.now }
    requires traded { AreTotalsSmall orders.now traded.now }
    ensures total { result ≡ sum_by (number_at traded.now) (chain orders.now order) }
    ensures bounded { result ≤ order * 2 ^ 72 }
{
    let mut total: u128 = 0;
    let mut target = orders.at(order).target();
    while let Some(index) = target {
        total += traded[index] as u128;
        target = orders.at(index).target();
    }
    total
}

/// Before of an order: what its chain has traded. Where the chain of its target is known to be
/// ended, as in every history, this is what the target has traded, and the target's own Before.
pub fn traded_by_chain(
    orders: &OrderList<'_>,
    traded: &[u64],
    order_numbers: &OrderNumbers,
    order: usize,
) -> u128
    requires order_list { IsOrderList orders.now }
    requires order { order < length orders.now }
    requires traded { AreTotalsSmall orders.now traded.now }
    requires order_numbers { AreNumbersInBounds orders.now order order_numbers.now }
    ensures chain_traded { (deals : List DealSpec)
        → IsKnownBeforeArrival orders.now deals order traded.now order_numbers.now
        → result ≡ chain_traded_quantity orders.now deals order }
    ensures bounded { result ≤ order * 2 ^ 72 }
{
    if let Some(target) = orders.at(order).target() {
        if order_numbers.is_chain_ended(target) {
            return traded[target] as u128 + order_numbers.chain_traded_of(target);
        }
    }
    chain_total(orders, traded, order)
}

/// Whether a record up to a place ends an order.
fn ends_by(cancelled: Option<u32>, place: u32) -> bool
    ensures { result ≡ ends_by cancelled place }
{
    match cancelled {
        Some(end) => end <= place,
        None => false,
    }
}

/// Whether the record of an order, or an earlier one, ends each order of its chain: false also
/// where that is not known.
pub fn is_chain_ended(orders: &OrderList<'_>, order_numbers: &OrderNumbers, order: usize) -> bool
    requires order_list { IsOrderList orders.now }
    requires order { order < length orders.now }
    requires order_numbers { AreNumbersInBounds orders.now order order_numbers.now }
    ensures { result ≡ true → HasChainEnded orders.now order }
{
    let own = orders.at(order);
    match own.target() {
        Some(target) => {
            let replaced = orders.at(target);
            order_numbers.is_chain_ended(target) && ends_by(replaced.cancelled(), own.place())
        }
        None => true,
    }
}
