//! The arrival of an order at its own record.
ghost use Rattle.std.specs.Prelude.{◌≡◌, ◌<◌, ◌≤◌, ℕ, List, None, Some, true, length};
ghost use Rattle.audit_base.specs.Numbers.{greatest_quantity};
ghost use Rattle.audit_base.specs.Orders.{IsOrderList};
ghost use Rattle.audit_base.specs.declared.orders.Deal.{Deal as DealSpec};
ghost use Rattle.continuous_audit.specs.Chains.{IsKnownBeforeArrival, AreNumbersInBounds};
ghost use Rattle.continuous_audit.specs.DealFindings.{enters, size_left, waits_in};
ghost use Rattle.continuous_audit.specs.OrderNumbers.{IsArrivalBounded, IsArrivalOfOrder};
ghost use Rattle.continuous_audit.specs.Scans.{AreTotalsSmall};

use super::chains::{is_chain_ended, traded_by_chain};
use super::checking::waits;
use super::order_numbers::OrderNumbers;
use audit_base::numbers::Quantity;
use order_list::listed::ListedOrder;
use order_list::lists::OrderList;

/// Whether an order enters: it is placed, and its target rests if it has one.
fn enters(order: &ListedOrder<'_>, target_rests: bool) -> bool
    ensures { result ≡ enters order.now target_rests }
{
    match order.cancelled() {
        Some(end) => end != order.place() && target_rests,
        None => target_rests,
    }
}

/// Whether the target of an order rests before its place, or there is none.
fn target_rests(
    orders: &OrderList<'_>,
    order_numbers: &OrderNumbers,
    order: &ListedOrder<'_>,
) -> bool
    requires inside { (t : ℕ) → order.now.target ≡ Some t → t < length orders.now }
    requires count { length order_numbers.now.left.items ≡ length orders.now }
    ensures none { order.now.target ≡ None → result ≡ true }
    ensures some { (t : ℕ) → order.now.target ≡ Some t
        → result ≡ waits_in orders.now order_numbers.now.left.items order.now.place t }
{
    match order.target() {
        Some(index) => waits(&orders.at(index), order.place(), order_numbers.left[index]),
        None => true,
    }
}

/// What is left of a quantity of which this much is taken, and 0 where the order didn't enter.
fn size_left(entered: bool, quantity: Quantity, chain_traded: u128) -> u64
    ensures same { result ≡ size_left entered quantity chain_traded }
    ensures most { result ≤ greatest_quantity }
{
    let quantity = quantity.value();
    if entered && chain_traded < quantity as u128 {
        quantity - chain_traded as u64
    } else {
        0
    }
}

/// The arrival of an order: whether it enters, its Before (what its chain has traded), whether it
/// is known that its record, or an earlier one, ends each order of its chain, and its Size.
#[derive(Clone, Copy, Debug, Drop)]
pub struct Arrival {
    pub entered: bool,
    pub chain_traded: u128,
    pub chain_ended: bool,
    pub size: u64,
}

/// The arrival of an order at its own record, from what the earlier ones have traded and have left.
pub fn arrive_order(
    orders: &OrderList<'_>,
    traded: &[u64],
    order_numbers: &OrderNumbers,
    order: usize,
) -> Arrival
    requires order_list { IsOrderList orders.now }
    requires order { order < length orders.now }
    requires traded { AreTotalsSmall orders.now traded.now }
    requires order_numbers { AreNumbersInBounds orders.now order order_numbers.now }
    ensures arrived { (deals : List DealSpec)
        → IsKnownBeforeArrival orders.now deals order traded.now order_numbers.now
        → IsArrivalOfOrder orders.now deals order result }
    ensures fits { IsArrivalBounded orders.now order result }
{
    let chain_traded = traded_by_chain(orders, traded, order_numbers, order);
    let arrived = orders.at(order);
    let entered = enters(&arrived, target_rests(orders, order_numbers, &arrived));
    Arrival {
        entered,
        chain_traded,
        chain_ended: is_chain_ended(orders, order_numbers, order),
        size: size_left(entered, arrived.quantity(), chain_traded),
    }
}
