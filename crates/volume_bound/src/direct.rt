//! Demand and supply at one price, in one pass over the orders.
ghost use Rattle.std.specs.Prelude.{◌≡◌, ◌<◌, ◌^◌, length};
ghost use Rattle.audit_base.specs.Bounds.{demand_of_order, supply_of_order, supply_below_of_order, demand, supply, supply_below};

use audit_base::terms::Side;
use order_list::listed::ListedOrder;
use order_list::lists::OrderList;

/// What an order asks for at a price, if it is a bid that no record cancels.
fn wanted(order: &ListedOrder<'_>, price: u64) -> u64
    ensures { result ≡ demand_of_order price order.now }
{
    if order.is_uncancelled_on(Side::Buy) && price <= order.limit().units() {
        order.quantity().value()
    } else {
        0
    }
}

/// What an order offers at a price, if it is an ask that no record cancels.
fn offered(order: &ListedOrder<'_>, price: u64) -> u64
    ensures { result ≡ supply_of_order price order.now }
{
    if order.is_uncancelled_on(Side::Sell) && order.limit().units() <= price {
        order.quantity().value()
    } else {
        0
    }
}

/// The same below the price.
fn offered_below(order: &ListedOrder<'_>, price: u64) -> u64
    ensures { result ≡ supply_below_of_order price order.now }
{
    if order.is_uncancelled_on(Side::Sell) && order.limit().units() < price {
        order.quantity().value()
    } else {
        0
    }
}

/// The quantity of the bids with limit at least the price.
pub fn demand_at(orders: &OrderList<'_>, price: u64) -> u128
    requires fits_indices { length orders.now < 2 ^ 32 }
    ensures { result ≡ demand orders.now price }
{
    let mut sum: u128 = 0;
    for index in 0..orders.len() {
        sum += u128::from(wanted(&orders.at(index), price));
    }
    sum
}

/// The quantity of the asks with limit at most the price.
pub fn supply_upto(orders: &OrderList<'_>, price: u64) -> u128
    requires fits_indices { length orders.now < 2 ^ 32 }
    ensures { result ≡ supply orders.now price }
{
    let mut sum: u128 = 0;
    for index in 0..orders.len() {
        sum += u128::from(offered(&orders.at(index), price));
    }
    sum
}

/// The quantity of the asks with limit below the price.
pub fn supply_below(orders: &OrderList<'_>, price: u64) -> u128
    requires fits_indices { length orders.now < 2 ^ 32 }
    ensures { result ≡ supply_below orders.now price }
{
    let mut sum: u128 = 0;
    for index in 0..orders.len() {
        sum += u128::from(offered_below(&orders.at(index), price));
    }
    sum
}
