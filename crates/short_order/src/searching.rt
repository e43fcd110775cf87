//! The best order of a side that is short, where the side has no rank at hand: one
//! pass over the orders.
ghost use Rattle.std.specs.Prelude.{◌≡◌, ◌<◌, IfSome, length};
ghost use Rattle.audit_base.specs.Orders.{side_at, IsOrderList, IsUncancelledOn};
ghost use Rattle.audit_base.specs.Priority.{best_order};
ghost use Rattle.short_order.specs.ShortOrders.{IsBestShortOn, is_short_on};
ghost use Rattle.short_order.specs.Searching as spec;

use audit_base::terms::Side;
use order_list::lists::OrderList;
use rank_order::comparing::better;

/// Whether the order at this index is of the side, no record cancels it, and it has traded less
/// than its quantity.
fn is_short_on(orders: &OrderList<'_>, traded: &[u128], side: Side, index: usize) -> bool
    requires inside { index < length orders.now }
    requires count { length traded.now ≡ length orders.now }
    ensures { result ≡ is_short_on orders.now traded.now side index }
{
    let order = orders.at(index);
    order.is_uncancelled_on(side) && traded[index] < order.quantity().value() as u128
}

/// The better of an order and the one that was the best so far, if there is one.
fn better_of(orders: &OrderList<'_>, held: Option<usize>, index: usize) -> usize
    requires inside { index < length orders.now }
    requires held { IfSome held (λ i. i < length orders.now) }
    requires sides { IfSome held (λ i. side_at orders.now index ≡ side_at orders.now i) }
    ensures { result ≡ spec.better_of orders.now held index }
{
    match held {
        Some(held) => {
            if better(&orders.at(index), &orders.at(held)) {
                index
            } else {
                held
            }
        }
        None => index,
    }
}

/// The best short order up to this one, from the best of those before it.
fn next_best(
    orders: &OrderList<'_>,
    traded: &[u128],
    side: Side,
    held: Option<usize>,
    index: usize,
) -> Option<usize>
    requires inside { index < length orders.now }
    requires count { length traded.now ≡ length orders.now }
    requires held { IfSome held (IsUncancelledOn orders.now side) }
    ensures { result
        ≡ spec.next_best orders.now (is_short_on orders.now traded.now side) held index }
{
    if is_short_on(orders, traded, side, index) {
        Some(better_of(orders, held, index))
    } else {
        held
    }
}

/// The best order of a side (price-time priority) that is short: no record cancels it, and what it
/// has traded is below its quantity. None exactly where none is short. `traded` is what each order
/// has traded, by its index. One pass over the orders. Takes no memory.
pub fn best_short_on(orders: &OrderList<'_>, traded: &[u128], side: Side) -> Option<usize>
    requires order_list { IsOrderList orders.now }
    requires count { length traded.now ≡ length orders.now }
    ensures best { result ≡ best_order orders.now (is_short_on orders.now traded.now side) }
    ensures of_deals { IsBestShortOn orders.now traded.now side result }
    ensures inside { IfSome result (λ i. i < length orders.now) }
{
    let mut held = None;
    for index in 0..orders.len() {
        held = next_best(orders, traded, side, held, index);
    }
    held
}
