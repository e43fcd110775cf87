//! Findings 7 to 11: what is wrong with a deal of a matching.
ghost use Rattle.std.specs.Prelude.{◌≡◌, ◌<◌, IfSome, length};
ghost use Rattle.audit_base.specs.Flaws.{IsEvidenceInside};
ghost use Rattle.matching_core.specs.DealFlaws as at;

use audit_base::flaws::{Evidence, TradedOrder};
use audit_base::orders::Deal;
use audit_base::terms::Side;
use order_list::listed::{ListedOrder, is_within};
use order_list::lists::OrderList;

/// An order trades more than its quantity.
fn is_overfilled(order: &ListedOrder<'_>, traded: u128) -> bool
    ensures { result ≡ at.is_overfilled order.now traded }
{
    u128::from(order.quantity().value()) < traded
}

/// What is wrong with a deal, if anything is, by the first deal and by what its two
/// orders trade up to it.
pub(crate) fn matching_evidence(
    uniform: bool,
    orders: &OrderList<'_>,
    deal: &Deal,
    first: &Deal,
    bid_traded: u128,
    ask_traded: u128,
) -> Option<Evidence>
    requires bid { deal.now.bid < length orders.now }
    requires ask { deal.now.ask < length orders.now }
    ensures first { let evidence = at.matching_evidence uniform orders.now deal.now first.now in
        result ≡ evidence bid_traded ask_traded }
    ensures inside { IfSome result (IsEvidenceInside orders.now) }
{
    let bid = TradedOrder {
        index: deal.bid,
        traded: bid_traded,
    };
    let ask = TradedOrder {
        index: deal.ask,
        traded: ask_traded,
    };
    if orders.at(bid.index).cancelled().is_some() {
        Some(Evidence::Inactive(bid))
    } else if orders.at(ask.index).cancelled().is_some() {
        Some(Evidence::Inactive(ask))
    } else if !is_within(deal, &orders.at(bid.index), &orders.at(ask.index)) {
        Some(Evidence::Limit { bid, ask })
    } else if uniform && deal.price != first.price {
        Some(Evidence::UniformPrice(first.place))
    } else if is_overfilled(&orders.at(bid.index), bid_traded) {
        Some(Evidence::Quantity(Side::Buy, bid))
    } else if is_overfilled(&orders.at(ask.index), ask_traded) {
        Some(Evidence::Quantity(Side::Sell, ask))
    } else {
        None
    }
}
