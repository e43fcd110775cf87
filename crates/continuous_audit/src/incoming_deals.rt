//! The deals by their incoming orders, and those of one order in the order of the log.
ghost use Rattle.std.specs.Prelude.{◌≡◌, ◌<◌, ◌^◌, All, IfOk, length};
ghost use Rattle.audit_base.specs.Orders.{order_at, place_at};
ghost use Rattle.audit_base.specs.Deals.{NamesOrders, IsDealList};
ghost use Rattle.audit_base.specs.Continuous.{incoming_order, resting_order};
ghost use Rattle.continuous_audit.specs.IncomingDeals.{AreIncomingDeals, incoming_deals_below};

use audit_base::faults::NoMemory;
use audit_base::orders::Deal;
use order_list::lists::OrderList;
use std::alloc::Global;

/// A deal by the index of its incoming order and its own index.
#[derive(Clone, Copy, Debug, PartialEq, Eq, PartialOrd, Ord)]
pub struct IncomingDeal {
    pub order: u32,
    pub deal: u32,
}

/// The incoming order of a deal: the later one of its two.
pub fn incoming(orders: &OrderList<'_>, deal: &Deal) -> usize
    requires { NamesOrders orders.now deal.now }
    ensures same { result ≡ incoming_order orders.now deal.now }
    ensures inside { result < length orders.now }
{
    if orders.at(deal.bid).place() < orders.at(deal.ask).place() {
        deal.ask
    } else {
        deal.bid
    }
}

/// The order of a deal that rested.
pub fn resting_of(orders: &OrderList<'_>, deal: &Deal) -> usize
    requires { NamesOrders orders.now deal.now }
    ensures same { result ≡ resting_order orders.now deal.now }
    ensures inside { result < length orders.now }
{
    if orders.at(deal.bid).place() < orders.at(deal.ask).place() {
        deal.bid
    } else {
        deal.ask
    }
}

/// The deals with their incoming orders, in log order.
fn collect_incoming_deals(
    alloc: Global,
    orders: &OrderList<'_>,
    deals: &[Deal],
) -> Result<Vec<IncomingDeal>, NoMemory>
    requires orders_fit_places { length orders.now < 2 ^ 32 }
    requires deals_fit_places { length deals.now < 2 ^ 32 }
    requires named { All (NamesOrders orders.now) deals.now }
    ensures { IfOk result (λ incoming_deals.
        incoming_deals.items ≡ incoming_deals_below orders.now deals.now (length deals.now)) }
{
    let mut incoming_deals = Vec::with_capacity(alloc, deals.len())?;
    for (index, deal) in deals.iter().enumerate() {
        let incoming_deal = IncomingDeal {
            order: incoming(orders, deal) as u32,
            deal: index as u32,
        };
        incoming_deals.push(incoming_deal)?;
    }
    Ok(incoming_deals)
}

/// The deals by their incoming orders, and those of one order in the order of the log.
pub fn sort_incoming_deals(
    alloc: Global,
    orders: &OrderList<'_>,
    deals: &[Deal],
) -> Result<Vec<IncomingDeal>, NoMemory>
    requires orders_fit_places { length orders.now < 2 ^ 32 }
    requires deals_fit_places { length deals.now < 2 ^ 32 }
    requires named { All (NamesOrders orders.now) deals.now }
    ensures { IfOk result (λ incoming_deals.
        AreIncomingDeals orders.now deals.now incoming_deals.items) }
{
    let mut incoming_deals = collect_incoming_deals(alloc, orders, deals)?;
    incoming_deals.sort_unstable();
    Ok(incoming_deals)
}
