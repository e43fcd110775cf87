//! What is judged: the orders and the deals, and which deals belong to which order.
use audit_base::orders::Deal;
use continuous_audit::incoming_deals::IncomingDeal;
use order_list::lists::OrderList;

/// The orders and the deals, which stay the same.
#[derive(Clone, Copy)]
pub struct DealtOrders<'a> {
    pub orders: &'a OrderList<'a>,
    pub deals: &'a [Deal],
    /// The deals by their incoming orders.
    pub incoming_deals: &'a [IncomingDeal],
}
