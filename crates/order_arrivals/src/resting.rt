//! Whether an order rests, by its Size and what it has traded.
ghost use Rattle.std.specs.Prelude.{◌≡◌};
ghost use Rattle.audit_base.specs.Continuous.{uncancelled_before};
ghost use Rattle.order_arrivals.specs.Resting.{rests_with, has_left_with};

use order_list::listed::ListedOrder;

/// Whether no record before a place ends an order.
fn is_uncancelled(cancelled: Option<u32>, place: u64) -> bool
    ensures { result ≡ uncancelled_before cancelled place }
{
    match cancelled {
        Some(end) => place <= u64::from(end),
        None => true,
    }
}

/// Whether an order has something left, and no record before a place ends it.
pub fn has_left_before(order: &ListedOrder<'_>, place: u64, size: u64, traded: u128) -> bool
    ensures { result ≡ has_left_with order.now place size traded }
{
    is_uncancelled(order.cancelled(), place) && traded < u128::from(size)
}

/// Whether an order of an earlier record rests before a place.
pub fn rests(order: &ListedOrder<'_>, place: u64, size: u64, traded: u128) -> bool
    ensures { result ≡ rests_with order.now place size traded }
{
    order.life().rests() && has_left_before(order, place, size, traded)
}
