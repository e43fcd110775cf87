//! The first of ranked orders that is short: the best one, where they are the rank of a side.
ghost use Rattle.std.specs.Prelude.{◌≡◌, ◌<◌, All, IfSome, length, find};
ghost use Rattle.short_order.specs.ShortOrders.{IsBestShortOfRank, is_short_by};

use order_list::lists::OrderList;

/// Whether the order at this index has traded less than its quantity.
fn is_short_by(orders: &OrderList<'_>, traded: &[u128], index: usize) -> bool
    requires inside { index < length orders.now }
    requires count { length traded.now ≡ length orders.now }
    ensures { result ≡ is_short_by orders.now traded.now index }
{
    traded[index] < orders.at(index).quantity().value() as u128
}

/// The first member of `ranked` that is short.
fn first_short(orders: &OrderList<'_>, ranked: &[usize], traded: &[u128]) -> Option<usize>
    requires inside { All (λ i. i < length orders.now) ranked.now }
    requires count { length traded.now ≡ length orders.now }
    ensures first { result ≡ find (is_short_by orders.now traded.now) ranked.now }
    ensures inside { IfSome result (λ i. i < length orders.now) }
{
    for index in ranked {
        if is_short_by(orders, traded, *index) {
            return Some(*index);
        }
    }
    None
}

/// The first member of `ranked` that is short: what it has traded is below its quantity. None
/// exactly where none is short. `ranked` holds indices of orders, and `traded` what each order has
/// traded, by its index. Where `ranked` is the rank of a side by price-time priority and `traded`
/// has the totals of deals, this is the best short order of the side. Takes no memory.
pub fn best_short(orders: &OrderList<'_>, ranked: &[usize], traded: &[u128]) -> Option<usize>
    requires inside { All (λ i. i < length orders.now) ranked.now }
    requires count { length traded.now ≡ length orders.now }
    ensures first { result ≡ find (is_short_by orders.now traded.now) ranked.now }
    ensures best { IsBestShortOfRank orders.now ranked.now traded.now result }
    ensures inside { IfSome result (λ i. i < length orders.now) }
{
    first_short(orders, ranked, traded)
}
