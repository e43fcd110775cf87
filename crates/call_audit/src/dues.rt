//! The due of an order: what it trades in every list of deals that conforms, by its rank.
ghost use Rattle.std.specs.Prelude.{◌≡◌, ◌<◌, ◌^◌, length};
ghost use Rattle.audit_base.specs.Orders.{order_at};
ghost use Rattle.audit_base.specs.Units as units;
ghost use Rattle.call_audit.specs.Dues as spec;

use order_list::listed::ListedOrder;
use order_list::lists::OrderList;
use rank_order::comparing::better;

/// Whether no record cancels the order, and it is of the side of the other and better (price-time
/// priority).
fn is_ahead(order: &ListedOrder<'_>, other: &ListedOrder<'_>) -> bool
    ensures { result ≡ spec.is_ahead other.now.side order.now other.now }
{
    if !order.is_uncancelled_on(other.side()) {
        return false;
    }
    better(order, other)
}

/// The quantity of the order, if it is ahead of the other.
fn quantity_ahead(order: &ListedOrder<'_>, other: &ListedOrder<'_>) -> u64
    ensures { result ≡ units.quantity_if_ahead other.now.side order.now other.now }
{
    if is_ahead(order, other) {
        order.quantity().value()
    } else {
        0
    }
}

/// The quantity of all orders that are ahead of the one at this index.
fn ahead_of(orders: &OrderList<'_>, index: usize) -> u128
    requires fits_indices { length orders.now < 2 ^ 32 }
    requires inside { index < length orders.now }
    ensures { result
        ≡ units.total_quantity_ahead orders.now (order_at orders.now index).side index }
{
    let other = orders.at(index);
    let mut sum: u128 = 0;
    for order in 0..orders.len() {
        sum += u128::from(quantity_ahead(&orders.at(order), &other));
    }
    sum
}

/// What the order at this index trades where the volume fills the orders of its side by rank: the
/// smaller of its quantity and what the better ones leave of the volume.
pub(crate) fn due_of(orders: &OrderList<'_>, index: usize, volume: u128) -> u128
    requires fits_indices { length orders.now < 2 ^ 32 }
    requires inside { index < length orders.now }
    ensures { let side = (order_at orders.now index).side in
        result ≡ units.due_by_rank orders.now side volume index }
{
    let quantity = u128::from(orders.at(index).quantity().value());
    quantity.min(volume.saturating_sub(ahead_of(orders, index)))
}
