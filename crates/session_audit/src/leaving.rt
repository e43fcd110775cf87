//! What a phase leaves of each order, from its order list and what each order traded in it.
//!
//! What a continuous phase leaves is read off the totals of its audit. Where the phase conforms,
//! what a chain traded before an order's place is what it trades in the whole phase.
ghost use Rattle.std.specs.Prelude.{◌≡◌, ◌<◌, ◌≤◌, ◌+◌, ◌^◌, ◌&&◌, ℕ, List, IfOk, length, nat_lt};
ghost use Rattle.audit_base.specs.declared.orders.Deal.{Deal as DealSpec};
ghost use Rattle.audit_base.specs.Continuous.{uncancelled_before};
ghost use Rattle.audit_base.specs.Histories.{Regular};
ghost use Rattle.audit_base.specs.Orders.{IsOrderList};
ghost use Rattle.session_audit.specs.Leaving as spec;
ghost use Rattle.session_audit.specs.Numbers.{AreBoundedTotals, total_of_chain};
ghost use Rattle.session_audit.specs.PhaseOrders.{list_below};

use super::chains::chain_totals;
use super::entering::size_if_target_rests;
use audit_base::faults::NoMemory;
use matching_core::totals::left_of;
use order_list::listed::ListedOrder;
use order_list::lists::OrderList;
use std::alloc::Global;

/// What a call leaves of an order that has traded this much: nothing if a record cancels it.
fn call_leaves(order: &ListedOrder<'_>, traded: u128) -> u64
    ensures { result ≡ spec.call_leaves order.now traded }
{
    if order.cancelled().is_some() {
        0
    } else {
        left_of(order.quantity().value(), traded)
    }
}

/// What a call leaves of each order. Err only out of memory.
pub fn leave_call(
    alloc: Global,
    orders: &OrderList<'_>,
    traded: &[u128],
) -> Result<Vec<u64>, NoMemory>
    requires { length traded.now ≡ length orders.now }
    ensures { IfOk result (λ left.
        left.items ≡ spec.left_numbers_after_call orders.now traded.now (length orders.now)) }
{
    let mut left = Vec::with_capacity(alloc, orders.len())?;
    for index in 0..orders.len() {
        left.push(call_leaves(&orders.at(index), traded[index]))?;
    }
    Ok(left)
}

/// Whether no record below the place cancels the order.
fn uncancelled_before(order: &ListedOrder<'_>, place: u64) -> bool
    ensures { result ≡ uncancelled_before order.now.cancelled place }
{
    match order.cancelled() {
        Some(end) => place <= u64::from(end),
        None => true,
    }
}

/// Whether the order was there before the place and its life is to rest.
fn waits_before(order: &ListedOrder<'_>, place: u64) -> bool
    ensures { result ≡ spec.waits_before order.now place }
{
    order.life().rests() && u64::from(order.place()) < place
}

/// Whether the order rests before the place, if it has this size and has traded this much.
fn rests_before_with(order: &ListedOrder<'_>, place: u64, size: u64, traded: u128) -> bool
    ensures { result ≡ spec.rests_before_with order.now place size traded }
{
    waits_before(order, place) && (uncancelled_before(order, place) && traded < u128::from(size))
}

/// Whether an order has no target, or one that rests before the order's own place, by the sizes
/// of the orders before it.
fn has_resting_target(orders: &OrderList<'_>, traded: &[u128], sizes: &[u64], index: usize) -> bool
    requires order_list { IsOrderList orders.now }
    requires inside { index < length orders.now }
    requires counted { length traded.now ≡ length orders.now }
    requires before { length sizes.now ≡ index }
    ensures { result ≡ spec.has_resting_target orders.now traded.now sizes.now index }
{
    let order = orders.at(index);
    match order.target() {
        Some(target) => {
            let replaced = orders.at(target);
            let place = u64::from(order.place());
            rests_before_with(&replaced, place, sizes[target], traded[target])
        }
        None => true,
    }
}

/// The size of each order in a continuous phase that conforms. Err only out of memory.
fn sizes_of(
    alloc: Global,
    orders: &OrderList<'_>,
    traded: &[u128],
    before: &[u128],
) -> Result<Vec<u64>, NoMemory>
    requires order_list { IsOrderList orders.now }
    requires regular { Regular orders.now }
    requires counted { length traded.now ≡ length orders.now }
    requires before { before.now
        ≡ list_below (total_of_chain orders.now traded.now) (length orders.now) }
    ensures count { IfOk result (λ sizes. length sizes.items ≡ length orders.now) }
    ensures sizes { IfOk result (λ sizes. (deals : List DealSpec)
        → spec.HasContinuousTotals orders.now deals traded.now
        → sizes.items ≡ spec.sizes_below orders.now deals (length orders.now)) }
{
    let mut sizes = Vec::with_capacity(alloc, orders.len())?;
    for index in 0..orders.len() {
        let target_rests = has_resting_target(orders, traded, &sizes, index);
        sizes.push(size_if_target_rests(&orders.at(index), target_rests, before[index]))?;
    }
    Ok(sizes)
}

/// What a continuous phase that ends at `last` leaves of an order, if it has this size and has
/// traded this much.
fn continuous_leaves(order: &ListedOrder<'_>, last: u32, size: u64, traded: u128) -> u64
    ensures { result ≡ spec.continuous_leaves order.now last size traded }
{
    if rests_before_with(order, u64::from(last) + 1, size, traded) {
        left_of(size, traded)
    } else {
        0
    }
}

/// What a continuous phase that conforms and ends at `last` leaves of each order. Err only out
/// of memory.
pub fn leave_continuous(
    alloc: Global,
    orders: &OrderList<'_>,
    traded: &[u128],
    last: u32,
) -> Result<Vec<u64>, NoMemory>
    requires order_list { IsOrderList orders.now }
    requires regular { Regular orders.now }
    requires counted { length traded.now ≡ length orders.now }
    requires small { AreBoundedTotals traded.now }
    ensures { IfOk result (λ left. (deals : List DealSpec)
        → spec.HasContinuousTotals orders.now deals traded.now
        → spec.EndsBy orders.now deals last
        → left.items
        ≡ spec.left_numbers_after_continuous orders.now deals last (length orders.now)) }
{
    let before = chain_totals(alloc, orders, traded)?;
    let sizes = sizes_of(alloc, orders, traded, &before)?;
    let mut left = Vec::with_capacity(alloc, orders.len())?;
    for index in 0..orders.len() {
        left.push(continuous_leaves(&orders.at(index), last, sizes[index], traded[index]))?;
    }
    Ok(left)
}
