//! Findings 7 to 11: what is wrong with a deal by itself, by what its two orders trade up to it.
ghost use Rattle.std.specs.Prelude.{◌≡◌, ◌<◌, IfSome, length};
ghost use Rattle.call_offences.specs.DealOffences as spec;
ghost use Rattle.call_offences.specs.Inside.{IsOffenceInside};
ghost use Rattle.matching_core.specs.DealFlaws.{is_overfilled};

use audit_base::flaws::TradedOrder;
use audit_base::orders::Deal;
use audit_base::terms::Side;
use offence_list::offences::ListedOffence;
use order_list::listed::{ListedOrder, is_within};
use order_list::lists::OrderList;

/// An order trades more than its quantity.
fn is_overfilled(order: &ListedOrder<'_>, traded: u128) -> bool
    ensures { result ≡ is_overfilled order.now traded }
{
    u128::from(order.quantity().value()) < traded
}

/// The first of what is wrong with a deal, if anything is, by the first deal and by what its two
/// orders trade up to it.
pub(crate) fn deal_offence(
    uniform: bool,
    orders: &OrderList<'_>,
    deal: &Deal,
    first: &Deal,
    bid_traded: u128,
    ask_traded: u128,
) -> Option<ListedOffence>
    requires bid { deal.now.bid < length orders.now }
    requires ask { deal.now.ask < length orders.now }
    ensures first { let offence = spec.deal_offence uniform orders.now deal.now first.now in
        result ≡ offence bid_traded ask_traded }
    ensures inside { IfSome result (IsOffenceInside orders.now) }
{
    let bid = TradedOrder {
        index: deal.bid,
        traded: bid_traded,
    };
    let ask = TradedOrder {
        index: deal.ask,
        traded: ask_traded,
    };
    let place = deal.place;
    if orders.at(bid.index).cancelled().is_some() {
        Some(ListedOffence::Inactive { place, order: bid })
    } else if orders.at(ask.index).cancelled().is_some() {
        Some(ListedOffence::Inactive { place, order: ask })
    } else if !is_within(deal, &orders.at(bid.index), &orders.at(ask.index)) {
        Some(ListedOffence::Limit { place, bid, ask })
    } else if uniform && deal.price != first.price {
        let first = first.place;
        Some(ListedOffence::UniformPrice { place, first })
    } else if is_overfilled(&orders.at(bid.index), bid_traded) {
        let side = Side::Buy;
        Some(ListedOffence::Quantity {
            place,
            side,
            order: bid,
        })
    } else if is_overfilled(&orders.at(ask.index), ask_traded) {
        let side = Side::Sell;
        Some(ListedOffence::Quantity {
            place,
            side,
            order: ask,
        })
    } else {
        None
    }
}
