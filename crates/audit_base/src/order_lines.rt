//! What a finding asks of an order list: the lines of the orders that it shows.
ghost use Rattle.std.specs.Prelude.{◌≡◌, ◌<◌, ◌≤◌, [], List, None, Some, length};
ghost use Rattle.audit_base.specs.declared.orders.Order.{Order};
ghost use Rattle.audit_base.specs.Orders.{order_at};
ghost use Rattle.audit_base.specs.Shows.{with_traded_number};

use super::findings::OrderLine;

/// The lines of the orders of a list.
pub trait OrderLines {
    // The order list.
    ghost orders: { Self → List Order };

    /// The line of the order at an index, where it has traded this much.
    /// None exactly where there is no order.
    fn line_at(&self, index: usize, traded: u128) -> Option<OrderLine>
        ensures there { index < length (orders self.now)
            → result ≡ Some (with_traded_number (order_at (orders self.now) index) traded) }
        ensures none { length (orders self.now) ≤ index → result ≡ None };
}

/// The empty order list.
pub(crate) struct NoOrders;

impl OrderLines for NoOrders {
    ghost orders = { λ _. [] };

    fn line_at(&self, _index: usize, _traded: u128) -> Option<OrderLine> {
        None
    }
}
