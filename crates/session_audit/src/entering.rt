//! The order list of a phase: how much of each order comes into it, and the order as the list
//! has it. An order that is gone is kept as the number 0.
ghost use Rattle.std.specs.Prelude.{◌≡◌, ◌<◌, ◌≤◌, ◌-◌, ◌&&◌, not, nat_lt, if◌then◌else◌, IfOk, IfSome, length};
ghost use Rattle.audit_base.specs.Continuous.{is_cancelled_at_place};
ghost use Rattle.audit_base.specs.Orders.{IsOrderList, order_at};
ghost use Rattle.audit_base.specs.Deals.{number_at};
ghost use Rattle.order_list.specs.Changed.{with_terms};
ghost use Rattle.session_audit.specs.Entering as entering;
ghost use Rattle.session_audit.specs.Leaving.{size_if_target_rests};
ghost use Rattle.session_audit.specs.Numbers.{WithinQuantities};
ghost use Rattle.session_audit.specs.PhaseOrders as spec;

use audit_base::faults::NoMemory;
use audit_base::numbers::Quantity;
use matching_core::totals::left_of;
use order_list::changed::ChangedOrders;
use order_list::listed::ListedOrder;
use order_list::lists::OrderList;
use order_list::stored::ChangedTerms;
use std::alloc::Global;

/// Whether the order was placed: it is not cancelled at its own place.
pub fn was_placed(order: &ListedOrder<'_>) -> bool
    ensures { result ≡ not (is_cancelled_at_place order.now.cancelled order.now.place) }
{
    match order.cancelled() {
        Some(end) => end != order.place(),
        None => true,
    }
}

/// How many orders, from the first on, have a place of at most `last`.
pub fn order_count_through(orders: &OrderList<'_>, last: u32) -> usize
    ensures { result ≡ spec.order_count_through orders.now last }
{
    let mut count = 0;
    while count < orders.len() && orders.at(count).place() <= last {
        count += 1;
    }
    count
}

/// The size of an order: its written quantity less what its chain traded, if it was placed and its
/// target rests; else nothing.
pub fn size_if_target_rests(order: &ListedOrder<'_>, target_rests: bool, chain_traded: u128) -> u64
    ensures { result ≡ size_if_target_rests order.now target_rests chain_traded }
{
    if was_placed(order) && target_rests {
        left_of(order.quantity().value(), chain_traded)
    } else {
        0
    }
}

/// The number at an index, or 0 past the end.
fn number_at(numbers: &[u64], index: usize) -> u64
    ensures { result ≡ number_at numbers.now index }
{
    match numbers.get(index) {
        Some(number) => *number,
        None => 0,
    }
}

/// Whether an order has no target, or one that is not gone.
fn target_has_amount(target: Option<usize>, amounts: &[u64]) -> bool
    ensures { result ≡ entering.target_has_amount target amounts.now }
{
    match target {
        Some(index) => 0 < number_at(amounts, index),
        None => true,
    }
}

/// How much of the order at an index comes into the phase that begins at `first`, from how much
/// comes of the orders before it.
fn amount_by_earlier(
    orders: &OrderList<'_>,
    first: u32,
    left: &[u64],
    chain_traded: &[u128],
    amounts: &[u64],
    index: usize,
) -> u64
    requires inside { index < length orders.now }
    requires counted { index < length chain_traded.now }
    ensures { result
        ≡ entering.amount_by_earlier orders.now first left.now chain_traded.now amounts.now index }
{
    let order = orders.at(index);
    if order.place() < first {
        number_at(left, index)
    } else {
        size_if_target_rests(
            &order,
            target_has_amount(order.target(), amounts),
            chain_traded[index],
        )
    }
}

/// How much of each of the first `count` orders comes into the phase that begins at `first`,
/// from what is left of each (0 past the end) and what its chain has traded.
pub fn amounts_of(
    alloc: Global,
    orders: &OrderList<'_>,
    count: usize,
    first: u32,
    left: &[u64],
    chain_traded: &[u128],
) -> Result<Vec<u64>, NoMemory>
    requires order_list { IsOrderList orders.now }
    requires inside { count ≤ length orders.now }
    requires counted { count ≤ length chain_traded.now }
    ensures { IfOk result (λ amounts.
        amounts.items ≡ entering.amounts_below orders.now first left.now chain_traded.now count) }
{
    let mut amounts = Vec::with_capacity(alloc, count)?;
    for index in 0..count {
        amounts.push(amount_by_earlier(orders, first, left, chain_traded, &amounts, index))?;
    }
    Ok(amounts)
}

/// The place of the record that ends an order, where it is at most `last`.
fn end_through(cancelled: Option<u32>, last: u32) -> Option<u32>
    ensures { result ≡ spec.end_through last cancelled }
{
    match cancelled {
        Some(end) if end <= last => Some(end),
        _ => None,
    }
}

/// The target of an order, where its place is from `first` on.
fn own_target(order: &ListedOrder<'_>, first: u32) -> Option<usize>
    ensures same { result ≡ (if nat_lt order.now.place first then None else order.now.target) }
    ensures small { IfSome result (λ t. t < 4294967295) }
{
    if order.place() < first {
        None
    } else {
        order.target()
    }
}

/// The terms of an order in the list of a phase, by how much of it comes into the phase.
fn phase_terms(order: &ListedOrder<'_>, first: u32, last: u32, amount: u64) -> ChangedTerms
    requires { amount ≤ order.now.quantity }
    ensures order { with_terms result.quantity result.cancelled result.target order.now
        ≡ spec.phase_order last order.now (entering.role_of_amount first amount order.now) }
    ensures small { IfSome result.target (λ t. t < 4294967295) }
{
    order.numbers_are_in_range();
    match Quantity::of(amount) {
        Some(quantity) => ChangedTerms {
            quantity,
            cancelled: end_through(order.cancelled(), last),
            target: own_target(order, first),
        },
        None => ChangedTerms {
            quantity: order.quantity(),
            cancelled: Some(order.place()),
            target: None,
        },
    }
}

/// The order list of a phase, by how much of each order comes into it.
pub fn list_orders<'a>(
    alloc: Global,
    orders: &OrderList<'a>,
    first: u32,
    last: u32,
    amounts: &[u64],
) -> Result<ChangedOrders<'a>, NoMemory>
    requires inside { length amounts.now ≤ length orders.now }
    requires most { WithinQuantities orders.now amounts.now }
    ensures { IfOk result (λ list. list.orders
        ≡ entering.phase_list_by_amounts orders.now first last amounts.now (length amounts.now)) }
{
    let mut list = ChangedOrders::new(alloc, orders, amounts.len())?;
    for index in 0..amounts.len() {
        let terms = phase_terms(&orders.at(index), first, last, amounts[index]);
        list.push(index, terms)?;
    }
    Ok(list)
}
