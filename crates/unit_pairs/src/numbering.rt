//! The deals of pairs, numbered in their order.
ghost use Rattle.std.specs.Prelude.{◌≡◌, ◌<◌, ◌≤◌, ◌^◌, IfOk, All, length};
ghost use Rattle.audit_base.specs.Numbers.{greatest_quantity};
ghost use Rattle.unit_pairs.specs.Numbering.{AreUnitPairDeals, IsUnitPairInRange, unit_pair_price};

use super::meeting::UnitPair;
use audit_base::faults::NoMemory;
use audit_base::numbers::{Price, Quantity};
use audit_base::orders::Deal;
use order_list::lists::OrderList;
use std::alloc::Global;

/// At which price the deals of a call are made.
#[derive(Clone, Copy, Debug, PartialEq, Eq)]
pub enum DealPrice {
    /// All at this price.
    Same(Price),
    /// Each at the limit of its ask.
    AskLimit,
}

/// What an ask trades at.
fn price_at(orders: &OrderList<'_>, price: &DealPrice, ask: usize) -> Price
    requires { ask < length orders.now }
    ensures { result ≡ unit_pair_price orders.now price.now ask }
{
    match price {
        DealPrice::Same(price) => *price,
        DealPrice::AskLimit => orders.at(ask).limit(),
    }
}

/// The quantity of a pair.
fn quantity_of(pair: &UnitPair) -> Quantity
    requires some { 0 < pair.now.quantity }
    requires most { pair.now.quantity ≤ greatest_quantity }
    ensures { result ≡ pair.now.quantity }
{
    match Quantity::of(pair.quantity) {
        Some(quantity) => quantity,
        None => unreachable!(),
    }
}

/// One deal for each pair, numbered from 1 in their order. Err only out of memory.
pub fn number_pairs(
    alloc: Global,
    orders: &OrderList<'_>,
    pairs: &[UnitPair],
    price: &DealPrice,
) -> Result<Vec<Deal>, NoMemory>
    requires fits_indices { length pairs.now < 2 ^ 32 }
    requires pairs { All (IsUnitPairInRange orders.now) pairs.now }
    ensures { IfOk result (λ deals. AreUnitPairDeals orders.now price.now pairs.now deals.items) }
{
    let mut deals = Vec::with_capacity(alloc, pairs.len())?;
    for (i, pair) in pairs.iter().enumerate() {
        let deal = Deal {
            place: i as u32 + 1,
            bid: pair.bid,
            ask: pair.ask,
            quantity: quantity_of(pair),
            price: price_at(orders, price, pair.ask),
        };
        deals.push(deal)?;
    }
    Ok(deals)
}
