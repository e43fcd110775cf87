//! The trade records of deals.
ghost use Rattle.std.specs.Prelude.{◌≡◌, ◌≤◌, ◌^◌, ◌∷◌, IfOk, decimal, nat_lt, if◌then◌else◌};
ghost use Rattle.audit_base.specs.Orders.{IsOrderList};
ghost use Rattle.audit_base.specs.Deals.{NamesOrders, IsDealList};
ghost use Rattle.audit_base.specs.Expected.{trade_of_deal, trades_of_deals};
ghost use Rattle.canonical_form.specs.Trades.{ExpectedHavePlaces, TradesAreSound, TradesGiveTheirDeals, TradesHaveRanges};

use audit_base::faults::NoMemory;
use audit_base::names::{Name, read_name};
use audit_base::orders::Deal;
use audit_base::records::TradeRecord;
use audit_base::stamps::Stamp;
use audit_base::texts::write_number;
use order_list::listed::ListedOrder;
use order_list::lists::OrderList;
use std::alloc::Global;

/// The trade id with a number: `T1`, `T2` and so on. `text` is overwritten.
fn trade_id(alloc: Global, text: &mut Vec<u8>, number: u64) -> Result<Name, NoMemory>
    requires { number ≤ 2 ^ 32 }
    ensures { IfOk result (λ id. id ≡ 84 ∷ decimal number) }
{
    text.clear();
    text.push(b'T')?;
    write_number(alloc, number as u128, text)?;
    match read_name(text) {
        Some(id) => Ok(id),
        None => unreachable!(),
    }
}

/// The time of the later of a deal's two orders.
fn time_of(bid: &ListedOrder<'_>, ask: &ListedOrder<'_>) -> Stamp
    ensures { result ≡ (if nat_lt bid.now.place ask.now.place then ask.now.time else bid.now.time) }
{
    if bid.place() < ask.place() {
        ask.time()
    } else {
        bid.time()
    }
}

/// The trade record of a deal with its number.
fn trade_of_deal(id: Name, orders: &OrderList<'_>, deal: &Deal, symbol: &Name) -> TradeRecord
    requires { NamesOrders orders.now deal.now }
    ensures { result ≡ record (trade_of_deal orders.now symbol.now 0 deal.now) { trade = id } }
{
    let bid = orders.at(deal.bid);
    let ask = orders.at(deal.ask);
    TradeRecord {
        trade: id,
        time: time_of(&bid, &ask),
        symbol: *symbol,
        buy: bid.key(),
        sell: ask.key(),
        quantity: deal.quantity,
        price: deal.price,
    }
}

/// The trade records of the deals, one for each in their order: with the ids `T1`, `T2` and so on,
/// each at the time of the later of its two orders. Err only out of memory.
pub fn trades_of_deals(
    alloc: Global,
    orders: &OrderList<'_>,
    deals: &[Deal],
    symbol: &Name,
) -> Result<Vec<TradeRecord>, NoMemory>
    requires order_list { IsOrderList orders.now }
    requires deal_list { IsDealList orders.now deals.now }
    ensures { IfOk result (λ trades.
        trades.items ≡ trades_of_deals orders.now symbol.now deals.now) }
{
    let mut trades = Vec::with_capacity(alloc, deals.len())?;
    let mut text = Vec::new(alloc);
    for (index, deal) in deals.iter().enumerate() {
        let id = trade_id(alloc, &mut text, index as u64 + 1)?;
        trades.push(trade_of_deal(id, orders, deal, symbol))?;
    }
    Ok(trades)
}

/// A law: over an order list in which no two orders have one key, the trade records of deals with
/// the places 1, 2 and so on are sound trades of the symbol, and their deals are these deals; the
/// Expected trades of a rule have these places. It computes nothing.
pub fn trades_give_their_deals_back()
    ensures sound { TradesAreSound }
    ensures deals { TradesGiveTheirDeals }
    ensures ranges { TradesHaveRanges }
    ensures places { ExpectedHavePlaces }
{}
