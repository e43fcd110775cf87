//! What is known after the deals of an order.
ghost use Rattle.std.specs.Prelude.{◌≡◌, ◌<◌, ◌-◌, ◌^◌, suc, length};
ghost use Rattle.audit_base.specs.Continuous.{size_of_order, traded_before};
ghost use Rattle.audit_base.specs.Orders.{order_at};
ghost use Rattle.continuous_offences.specs.Books.{waits};
ghost use Rattle.continuous_offences.specs.StateAfterDeals.{IsDealt, deals_of, orders_of, place_of, shown_after};
ghost use Rattle.continuous_offences.specs.Passing.{own_side};
ghost use Rattle.order_arrivals.specs.Resting.{has_left_with};

use super::scanning::shown;
use audit_base::flaws::TradedOrder;
use audit_base::terms::Side;
use matching_core::totals::left_of;
use order_arrivals::arrivals::Arrivals;
use order_arrivals::dealt_orders::DealtOrders;
use order_arrivals::resting::{has_left_before, rests};

/// What is known after the deals of the order at `order`.
#[derive(Clone, Copy)]
pub(crate) struct StateAfterDeals<'m, 'a, 't> {
    pub(crate) market: &'m DealtOrders<'m>,
    pub(crate) arrivals: &'a Arrivals,
    /// What each order has traded.
    pub(crate) traded: &'t [u128],
    pub(crate) order: usize,
}

impl StateAfterDeals<'_, '_, '_> {
    /// The place of the order's record.
    pub(crate) fn place(&self) -> u64
        requires { IsDealt self.now }
        ensures same { result ≡ place_of self.now }
        ensures fits { result < 2 ^ 32 }
    {
        u64::from(self.market.orders.at(self.order).place())
    }

    /// The side of the order.
    pub(crate) fn side(&self) -> Side
        requires { IsDealt self.now }
        ensures { result ≡ own_side self.now }
    {
        self.market.orders.at(self.order).side()
    }

    /// An order as an offence shows it.
    pub(crate) fn shown(&self, order: usize) -> TradedOrder
        requires dealt { IsDealt self.now }
        requires order { order < length (orders_of self.now) }
        ensures { result ≡ shown_after self.now order }
    {
        shown(self.arrivals, order, self.traded[order])
    }

    /// What is left of an order.
    pub(crate) fn left(&self, order: usize) -> u64
        requires dealt { IsDealt self.now }
        requires order { order < length (orders_of self.now) }
        ensures { result ≡ size_of_order (orders_of self.now) (deals_of self.now) order
            - traded_before (orders_of self.now) (deals_of self.now) (suc (place_of self.now))
            order }
    {
        left_of(self.arrivals.sizes[order], self.traded[order])
    }

    /// Whether no record before a place ends an order, and something is left of it.
    pub(crate) fn has_left_before(&self, order: usize, place: u64) -> bool
        requires dealt { IsDealt self.now }
        requires order { order < length (orders_of self.now) }
        ensures { result ≡ has_left_with (order_at (orders_of self.now) order) place
            (size_of_order (orders_of self.now) (deals_of self.now) order)
            (traded_before (orders_of self.now) (deals_of self.now) (suc (place_of self.now)) order) }
    {
        let (size, traded) = (self.arrivals.sizes[order], self.traded[order]);
        has_left_before(&self.market.orders.at(order), place, size, traded)
    }

    /// Whether it is also one that may rest.
    pub(crate) fn rests(&self, order: usize, place: u64) -> bool
        requires dealt { IsDealt self.now }
        requires order { order < length (orders_of self.now) }
        ensures { result ≡ waits (orders_of self.now) (deals_of self.now) place
            (suc (place_of self.now)) order }
    {
        let (size, traded) = (self.arrivals.sizes[order], self.traded[order]);
        rests(&self.market.orders.at(order), place, size, traded)
    }
}
