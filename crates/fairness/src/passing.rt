//! Whether a deal passes over a short order.
ghost use Rattle.std.specs.Prelude.{◌≡◌, ◌<◌, IfSome, length};
ghost use Rattle.audit_base.specs.declared.terms.Side.TheVariants.{Buy, Sell};
ghost use Rattle.audit_base.specs.Flaws.{IsEvidenceInside};
ghost use Rattle.audit_base.specs.Orders.{IsUncancelledOn};
ghost use Rattle.fairness.specs.Passing as spec;

use audit_base::flaws::{Evidence, Flaw, TradedOrder};
use audit_base::orders::Deal;
use audit_base::terms::Side;
use order_list::lists::OrderList;
use rank_order::comparing::better;

/// The index of the deal's order of a side.
fn order_of_deal(side: Side, deal: &Deal) -> usize
    ensures { result ≡ spec.order_of_deal side deal.now }
{
    match side {
        Side::Buy => deal.bid,
        Side::Sell => deal.ask,
    }
}

/// The order at an index, with what it trades.
fn traded_order(traded: &[u128], index: usize) -> TradedOrder
    requires { index < length traded.now }
    ensures { result ≡ spec.traded_order traded.now index }
{
    TradedOrder {
        index,
        traded: traded[index],
    }
}

/// What is wrong with a deal whose order of this side the best short order of the side outranks.
fn outranked_flaw(
    orders: &OrderList<'_>,
    traded: &[u128],
    side: Side,
    short: Option<usize>,
    deal: &Deal,
) -> Option<Flaw>
    requires count { length traded.now ≡ length orders.now }
    requires short { IfSome short (λ i. IsUncancelledOn orders.now side i) }
    requires stands { IsUncancelledOn orders.now side (spec.order_of_deal side deal.now) }
    ensures outranked { result ≡ spec.outranked_flaw orders.now traded.now side short deal.now }
    ensures inside { IfSome result (λ flaw. IsEvidenceInside orders.now flaw.evidence) }
{
    let short = short?;
    let own = order_of_deal(side, deal);
    if better(&orders.at(short), &orders.at(own)) {
        let short = traded_order(traded, short);
        let own = traded_order(traded, own);
        Some(Flaw {
            place: deal.place,
            evidence: Evidence::Priority {
                side,
                ahead: short,
                own,
            },
        })
    } else {
        None
    }
}

/// What is wrong with a deal that passes over a short order: a bid, or else an ask.
pub(crate) fn unfair_flaw(
    orders: &OrderList<'_>,
    traded: &[u128],
    short_bid: Option<usize>,
    short_ask: Option<usize>,
    deal: &Deal,
) -> Option<Flaw>
    requires count { length traded.now ≡ length orders.now }
    requires short_bid { IfSome short_bid (λ i. IsUncancelledOn orders.now Buy i) }
    requires short_ask { IfSome short_ask (λ i. IsUncancelledOn orders.now Sell i) }
    requires bid { IsUncancelledOn orders.now Buy deal.now.bid }
    requires ask { IsUncancelledOn orders.now Sell deal.now.ask }
    ensures unfair { result ≡ spec.unfair_flaw orders.now traded.now short_bid short_ask deal.now }
    ensures inside { IfSome result (λ flaw. IsEvidenceInside orders.now flaw.evidence) }
{
    match outranked_flaw(orders, traded, Side::Buy, short_bid, deal) {
        Some(flaw) => Some(flaw),
        None => outranked_flaw(orders, traded, Side::Sell, short_ask, deal),
    }
}
