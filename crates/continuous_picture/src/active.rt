//! Whether an order is active after the record at a place.
ghost use Rattle.std.specs.Prelude.{◌≡◌, ◌<◌, ◌^◌, length};
ghost use Rattle.continuous_picture.specs.Active as spec;

use order_arrivals::dealt_orders::DealtOrders;
use order_arrivals::resting::has_left_before;
use order_list::listed::ListedOrder;

/// What is known after the record at a place.
#[derive(Clone, Copy)]
pub(crate) struct StateAfterRecord<'m, 's, 't> {
    pub(crate) market: &'m DealtOrders<'m>,
    pub(crate) sizes: &'s [u64],
    /// What each order has traded up to the place.
    pub(crate) traded: &'t [u128],
    pub(crate) place: u64,
}

/// Whether an order may rest, or is the order of the record at a place.
fn may_be_active(order: &ListedOrder<'_>, place: u64) -> bool
    ensures { result ≡ spec.may_be_active order.now place }
{
    order.life().rests() || u64::from(order.place()) == place
}

/// Whether an order of a record up to a place is active after the record there.
fn is_active_with(order: &ListedOrder<'_>, place: u64, size: u64, traded: u128) -> bool
    requires { place < 2 ^ 33 }
    ensures { result ≡ spec.active_with order.now place size traded }
{
    may_be_active(order, place) && has_left_before(order, place + 1, size, traded)
}

impl StateAfterRecord<'_, '_, '_> {
    /// Whether an order is active, if it has come.
    pub(crate) fn is_active(&self, order: usize) -> bool
        requires known { spec.IsKnownAt self.now }
        requires order { order < length (spec.known_orders self.now) }
        ensures { result ≡ spec.is_known_active self.now order }
    {
        let (size, traded) = (self.sizes[order], self.traded[order]);
        is_active_with(&self.market.orders.at(order), self.place, size, traded)
    }
}
