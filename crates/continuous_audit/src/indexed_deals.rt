//! What is judged: the orders and the deals, and which of them belong to which record.
use super::endings::OrderEnd;
use super::incoming_deals::IncomingDeal;
use audit_base::orders::Deal;
use order_list::lists::OrderList;

/// The orders and the deals, which stay the same for the whole audit.
#[derive(Clone, Copy)]
pub struct IndexedDeals<'a> {
    pub orders: &'a OrderList<'a>,
    pub deals: &'a [Deal],
    /// The deals by their incoming orders.
    pub incoming_deals: &'a [IncomingDeal],
    /// The orders that records end, by the places of these records.
    pub endings: &'a [OrderEnd],
}
