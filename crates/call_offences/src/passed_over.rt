//! Findings 12 and 13: whether a deal passes over the best short order of a side.
ghost use Rattle.std.specs.Prelude.{◌≡◌, ◌<◌, IfSome, length};
ghost use Rattle.audit_base.specs.declared.terms.Side.TheVariants.{Buy, Sell};
ghost use Rattle.audit_base.specs.Deals.{NamesOrders};
ghost use Rattle.call_offences.specs.DealOffences as spec;
ghost use Rattle.call_offences.specs.Inside.{IsOffenceInside};

use audit_base::flaws::TradedOrder;
use audit_base::orders::Deal;
use audit_base::terms::Side;
use offence_list::offences::ListedOffence;
use order_list::lists::OrderList;
use rank_order::comparing::better;

/// The index of the deal's order of a side.
fn order_on_side(side: Side, deal: &Deal) -> usize
    ensures { result ≡ spec.order_on_side side deal.now }
{
    match side {
        Side::Buy => deal.bid,
        Side::Sell => deal.ask,
    }
}

/// The offence at a deal whose order of this side the best short order of the side outranks.
fn passed_over_on_side(
    orders: &OrderList<'_>,
    traded: &[u128],
    side: Side,
    short: Option<usize>,
    deal: &Deal,
) -> Option<ListedOffence>
    requires count { length traded.now ≡ length orders.now }
    requires short { IfSome short (spec.IsOrderOnSide orders.now side) }
    requires own { spec.IsOrderOnSide orders.now side (spec.order_on_side side deal.now) }
    ensures passed { result
        ≡ spec.passed_over_on_side orders.now traded.now side short deal.now }
    ensures inside { IfSome result (IsOffenceInside orders.now) }
{
    let short = short?;
    let index = order_on_side(side, deal);
    if better(&orders.at(short), &orders.at(index)) {
        let ahead = TradedOrder {
            index: short,
            traded: traded[short],
        };
        let own = TradedOrder {
            index,
            traded: traded[index],
        };
        let place = deal.place;
        Some(ListedOffence::Priority {
            place,
            side,
            ahead,
            own,
        })
    } else {
        None
    }
}

/// The offence at a deal that passes over a short order: a bid, or else an ask.
pub(crate) fn passed_over(
    orders: &OrderList<'_>,
    traded: &[u128],
    short_bid: Option<usize>,
    short_ask: Option<usize>,
    deal: &Deal,
) -> Option<ListedOffence>
    requires count { length traded.now ≡ length orders.now }
    requires short_bid { IfSome short_bid (spec.IsOrderOnSide orders.now Buy) }
    requires short_ask { IfSome short_ask (spec.IsOrderOnSide orders.now Sell) }
    requires named { NamesOrders orders.now deal.now }
    ensures passed { result
        ≡ spec.passed_over orders.now traded.now short_bid short_ask deal.now }
    ensures inside { IfSome result (IsOffenceInside orders.now) }
{
    match passed_over_on_side(orders, traded, Side::Buy, short_bid, deal) {
        Some(offence) => Some(offence),
        None => passed_over_on_side(orders, traded, Side::Sell, short_ask, deal),
    }
}
