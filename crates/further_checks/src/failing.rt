//! Whether one deal fails a check.
ghost use Rattle.std.specs.Prelude.{◌≡◌, ◌<◌, None, if◌then◌else◌, length, slice_index};
ghost use Rattle.audit_base.specs.Continuous.{incoming_order, resting_order};
ghost use Rattle.audit_base.specs.Deals.{NamesOrders};
ghost use Rattle.further_checks.specs.FurtherRules as spec;
ghost use Rattle.further_checks.specs.Sides.{is_bid_first};

use super::findings::{FurtherChecks, FurtherFinding};
use audit_base::findings::OrderLine;
use audit_base::orders::Deal;
use audit_base::stamps::Stamp;
use order_list::lists::OrderList;

/// Whether the bid of the deal came before its ask.
fn is_bid_first(orders: &OrderList<'_>, deal: &Deal) -> bool
    requires named { NamesOrders orders.now deal.now }
    ensures { result ≡ is_bid_first orders.now deal.now }
{
    orders.at(deal.bid).place() < orders.at(deal.ask).place()
}

/// The index of the order that rested: the one of the two that came first.
fn resting_order(orders: &OrderList<'_>, deal: &Deal) -> usize
    requires named { NamesOrders orders.now deal.now }
    ensures same { result ≡ resting_order orders.now deal.now }
    ensures inside { result < length orders.now }
{
    if is_bid_first(orders, deal) {
        deal.bid
    } else {
        deal.ask
    }
}

/// The index of the other one, whose record is the later.
fn incoming_order(orders: &OrderList<'_>, deal: &Deal) -> usize
    requires named { NamesOrders orders.now deal.now }
    ensures same { result ≡ incoming_order orders.now deal.now }
    ensures inside { result < length orders.now }
{
    if is_bid_first(orders, deal) {
        deal.ask
    } else {
        deal.bid
    }
}

/// The line of the order at an index, with what it trades.
fn traded_line(orders: &OrderList<'_>, traded: &[u128], order: usize) -> OrderLine
    requires count { length traded.now ≡ length orders.now }
    requires inside { order < length orders.now }
    ensures { result ≡ spec.traded_line orders.now (slice_index traded.now) order }
{
    orders.at(order).line(traded[order])
}

/// The finding at a deal whose price is not the limit of its resting order.
fn resting_price_failure(
    orders: &OrderList<'_>,
    traded: &[u128],
    deal: &Deal,
) -> Option<FurtherFinding>
    requires count { length traded.now ≡ length orders.now }
    requires named { NamesOrders orders.now deal.now }
    ensures { result ≡ spec.resting_price_failure orders.now (slice_index traded.now) deal.now }
{
    let resting = resting_order(orders, deal);
    if deal.price == orders.at(resting).limit() {
        return None;
    }
    Some(FurtherFinding::RestingPrice {
        place: deal.place,
        resting: traded_line(orders, traded, resting),
        incoming: traded_line(orders, traded, incoming_order(orders, deal)),
    })
}

/// Whether a time is before that of the record of the deal's bid or of its ask.
fn is_before_orders(orders: &OrderList<'_>, deal: &Deal, time: Stamp) -> bool
    requires named { NamesOrders orders.now deal.now }
    ensures { result ≡ spec.is_before_orders orders.now deal.now time }
{
    time.is_before(orders.at(deal.bid).time()) || time.is_before(orders.at(deal.ask).time())
}

/// The finding at a deal whose trade is earlier than one of its orders.
fn trade_time_failure(
    orders: &OrderList<'_>,
    traded: &[u128],
    deal: &Deal,
    time: Stamp,
) -> Option<FurtherFinding>
    requires count { length traded.now ≡ length orders.now }
    requires named { NamesOrders orders.now deal.now }
    ensures { result ≡ spec.trade_time_failure orders.now (slice_index traded.now) deal.now time }
{
    if !is_before_orders(orders, deal, time) {
        return None;
    }
    Some(FurtherFinding::TradeTime {
        place: deal.place,
        order: traded_line(orders, traded, incoming_order(orders, deal)),
    })
}

/// The finding of the first check, where it is asked for.
fn price_if_asked(
    checks: FurtherChecks,
    orders: &OrderList<'_>,
    traded: &[u128],
    deal: &Deal,
) -> Option<FurtherFinding>
    requires count { length traded.now ≡ length orders.now }
    requires named { NamesOrders orders.now deal.now }
    ensures { result ≡ (if checks.resting_price
        then spec.resting_price_failure orders.now (slice_index traded.now) deal.now else None) }
{
    if checks.resting_price {
        resting_price_failure(orders, traded, deal)
    } else {
        None
    }
}

/// The finding of the second check, where it is asked for.
fn time_if_asked(
    checks: FurtherChecks,
    orders: &OrderList<'_>,
    traded: &[u128],
    deal: &Deal,
    time: Stamp,
) -> Option<FurtherFinding>
    requires count { length traded.now ≡ length orders.now }
    requires named { NamesOrders orders.now deal.now }
    ensures { result ≡ (if checks.trade_times
        then spec.trade_time_failure orders.now (slice_index traded.now) deal.now time else None) }
{
    if checks.trade_times {
        trade_time_failure(orders, traded, deal, time)
    } else {
        None
    }
}

/// Of the checks that are asked for, the first that the deal fails, at this time of its trade.
pub(crate) fn further_failure(
    checks: FurtherChecks,
    orders: &OrderList<'_>,
    traded: &[u128],
    deal: &Deal,
    time: Stamp,
) -> Option<FurtherFinding>
    requires count { length traded.now ≡ length orders.now }
    requires named { NamesOrders orders.now deal.now }
    ensures { let amount = slice_index traded.now in
        result ≡ spec.further_failure checks orders.now amount deal.now time }
{
    match price_if_asked(checks, orders, traded, deal) {
        Some(finding) => Some(finding),
        None => time_if_asked(checks, orders, traded, deal, time),
    }
}
