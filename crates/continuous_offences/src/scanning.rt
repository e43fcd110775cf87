//! The deals of one order, one after another: what is wrong with one by itself.
ghost use Rattle.std.specs.Prelude.{◌≡◌, ◌<◌, ◌≤◌, ◌+◌, ◌^◌, suc, length};
ghost use Rattle.std.specs.Option.{option_or};
ghost use Rattle.audit_base.specs.Deals.{NamesOrders, number_at};
ghost use Rattle.audit_base.specs.Orders.{place_at};
ghost use Rattle.continuous_audit.specs.Records.{AreTradedBefore, conservation_at};
ghost use Rattle.order_arrivals.specs.Arrivals.{AreArrivals};
ghost use Rattle.continuous_offences.specs.DealFacts.{IsOffenceOf, account_with, facts_with, shown_with};
ghost use Rattle.order_arrivals.specs.DealtOrders.{HaveTraded, IsMarket};

use super::deal_offence::{DealFacts, ListedAccount, deal_offence};
use audit_base::flaws::TradedOrder;
use audit_base::orders::Deal;
use continuous_audit::incoming_deals::resting_of;
use matching_core::checking::add_deal;
use offence_list::offences::ListedOffence;
use order_arrivals::arrivals::Arrivals;
use order_arrivals::dealt_orders::DealtOrders;
use order_arrivals::resting::rests;
use order_arrivals::totals::TradedSoFar;
use order_list::listed::is_within;
use order_list::lists::OrderList;

/// An order as an offence shows it, where it has traded this much: with its Before added.
pub(crate) fn shown(arrivals: &Arrivals, order: usize, traded: u128) -> TradedOrder
    requires order { order < length arrivals.now.chain_traded.items }
    requires fits { traded + number_at arrivals.now.chain_traded.items order < 2 ^ 128 }
    ensures { result ≡ shown_with arrivals.now order traded }
{
    TradedOrder {
        index: order,
        traded: traded + arrivals.chain_traded[order],
    }
}

/// What is known of an order that has traded this much.
fn account(arrivals: &Arrivals, order: usize, traded: u128) -> ListedAccount
    requires order { order < length arrivals.now.chain_traded.items }
    requires size { order < length arrivals.now.sizes.items }
    requires fits { traded + number_at arrivals.now.chain_traded.items order < 2 ^ 128 }
    ensures { result ≡ account_with arrivals.now order traded }
{
    ListedAccount {
        shown: shown(arrivals, order, traded),
        traded,
        size: arrivals.sizes[order],
    }
}

/// What is known of a deal of the order at `order`, by what each order has traded before its place
/// and what the deal's two orders have traded up to the deal.
fn deal_facts(
    orders: &OrderList<'_>,
    arrivals: &Arrivals,
    before: &[u128],
    order: usize,
    deal: &Deal,
    up_to: (u128, u128),
) -> DealFacts
    requires order { order < length orders.now }
    requires named { NamesOrders orders.now deal.now }
    requires chain_count { length arrivals.now.chain_traded.items ≡ length orders.now }
    requires entered_count { length arrivals.now.entered.items ≡ length orders.now }
    requires size_count { length arrivals.now.sizes.items ≡ length orders.now }
    requires before_count { length before.now ≡ length orders.now }
    requires bid { up_to.0 + number_at arrivals.now.chain_traded.items deal.now.bid < 2 ^ 128 }
    requires ask { up_to.1 + number_at arrivals.now.chain_traded.items deal.now.ask < 2 ^ 128 }
    ensures { result ≡ facts_with orders.now arrivals.now before.now order deal.now up_to.0 up_to.1 }
{
    let resting = resting_of(orders, deal);
    let place = u64::from(orders.at(order).place());
    DealFacts {
        bid: account(arrivals, deal.bid, up_to.0),
        ask: account(arrivals, deal.ask, up_to.1),
        bid_rested: orders.at(deal.bid).place() < orders.at(deal.ask).place(),
        rests: rests(
            &orders.at(resting),
            place,
            arrivals.sizes[resting],
            before[resting],
        ),
        entered: arrivals.entered[order],
        is_within: is_within(deal, &orders.at(deal.bid), &orders.at(deal.ask)),
    }
}

/// The first offence that one of the deals of the order at `order` has by itself. Adds all of these
/// deals to what the orders have traded; `before` is what they have traded before its place.
pub(crate) fn first_deal_offence(
    market: &DealtOrders<'_>,
    arrivals: &Arrivals,
    before: &[u128],
    order: usize,
    running: &mut TradedSoFar,
) -> Option<ListedOffence>
    requires market { IsMarket market.now }
    requires order { order < length market.now.orders.now }
    requires arrivals { AreArrivals market.now.orders.now market.now.deals.now
        (length market.now.orders.now) arrivals.now }
    requires before { AreTradedBefore market.now.orders.now market.now.deals.now
        (place_at market.now.orders.now order) before.now }
    requires running { HaveTraded market.now order running.old.added running.old.traded.items }
    ensures running { HaveTraded market.now (suc order) running.new.added running.new.traded.items }
    ensures from { running.old.added ≤ running.new.added }
    ensures found { IsOffenceOf market.now.orders.now result
        (conservation_at market.now.orders.now market.now.deals.now order) }
{
    let (orders, deals, incoming_deals) = (market.orders, market.deals, market.incoming_deals);
    let mut first = None;
    while running.added < incoming_deals.len() {
        let incoming = incoming_deals[running.added];
        if incoming.order as usize != order {
            return first;
        }
        let deal = &deals[incoming.deal as usize];
        let quantity = deal.quantity.value() as u128;
        let up_to = add_deal(&mut running.traded, deal.bid, deal.ask, quantity);
        let facts = deal_facts(orders, arrivals, before, order, deal, up_to);
        first = first_of(first, deal_offence(deal, facts));
        running.added += 1;
    }
    first
}

/// The first of two offences that is there.
pub(crate) fn first_of(
    first: Option<ListedOffence>,
    second: Option<ListedOffence>,
) -> Option<ListedOffence>
    ensures { result ≡ option_or first second }
{
    match first {
        Some(offence) => Some(offence),
        None => second,
    }
}
