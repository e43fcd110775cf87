//! Finding 15: the order of a record meets one of the other side that rests.
ghost use Rattle.std.specs.Prelude.{◌≡◌, ◌<◌, IfSome, Some, length};
ghost use Rattle.audit_base.specs.Expected.{limits_meet};
ghost use Rattle.audit_base.specs.Orders.{side_at};
ghost use Rattle.call_offences.specs.DealOffences.{IsOrderOnSide};
ghost use Rattle.continuous_offences.specs.Crossing.{best_of_side, crossing_of, spread_of};
ghost use Rattle.continuous_offences.specs.StateAfterDeals.{IsDealt, orders_of};
ghost use Rattle.continuous_offences.specs.Passing.{own_side, side_against};

use super::state_after_deals::StateAfterDeals;
use audit_base::flaws::TradedOrder;
use audit_base::numbers::Price;
use audit_base::terms::Side;
use offence_list::offences::ListedOffence;
use order_list::lists::OrderList;
use rank_order::comparing::better;

/// Whether a limit of a side meets one of the other side.
fn limits_meet(side: Side, limit: Price, other: Price) -> bool
    ensures { result ≡ limits_meet side limit other }
{
    match side {
        Side::Buy => other <= limit,
        Side::Sell => limit <= other,
    }
}

/// The better one of an order and the best of its side that rests.
fn best_of_side(orders: &OrderList<'_>, order: usize, resting: Option<usize>) -> usize
    requires order { order < length orders.now }
    requires resting { IfSome resting (IsOrderOnSide orders.now (side_at orders.now order)) }
    ensures same { result ≡ best_of_side orders.now order resting }
    ensures inside { result < length orders.now }
{
    match resting {
        Some(best) => {
            if better(&orders.at(best), &orders.at(order)) {
                best
            } else {
                order
            }
        }
        None => order,
    }
}

/// An order of this side and one of the other meet at a place.
fn spread_of(side: Side, place: u32, own: TradedOrder, other: TradedOrder) -> ListedOffence
    ensures { result ≡ spread_of side place own other }
{
    match side {
        Side::Buy => ListedOffence::Spread {
            place,
            bid: own,
            ask: other,
        },
        Side::Sell => ListedOffence::Spread {
            place,
            bid: other,
            ask: own,
        },
    }
}

/// The offence where the order at hand meets the best of the other side.
fn met(
    dealt: &StateAfterDeals<'_, '_, '_>,
    same: Option<usize>,
    other: usize,
) -> Option<ListedOffence>
    requires dealt { IsDealt dealt.now }
    requires own { IfSome same (IsOrderOnSide (orders_of dealt.now) (own_side dealt.now)) }
    requires other { other < length (orders_of dealt.now) }
    ensures { result ≡ crossing_of dealt.now same (Some other) }
{
    let orders = dealt.market.orders;
    let own = orders.at(dealt.order);
    let (side, place, limit) = (own.side(), own.place(), own.limit());
    let against = orders.at(other).limit();
    if limits_meet(side, limit, against) {
        let best = best_of_side(orders, dealt.order, same);
        let best_shown = dealt.shown(best);
        let other_shown = dealt.shown(other);
        Some(spread_of(side, place, best_shown, other_shown))
    } else {
        None
    }
}

/// The offence of an order that is active after its own record, where the best of the other side
/// that rests meets it. The best of its own side that rests may be better than itself, and is
/// shown then.
pub(crate) fn crossing_offence(
    dealt: &StateAfterDeals<'_, '_, '_>,
    same: Option<usize>,
    other: Option<usize>,
) -> Option<ListedOffence>
    requires dealt { IsDealt dealt.now }
    requires own { IfSome same (IsOrderOnSide (orders_of dealt.now) (own_side dealt.now)) }
    requires other { IfSome other (IsOrderOnSide (orders_of dealt.now) (side_against dealt.now)) }
    ensures { result ≡ crossing_of dealt.now same other }
{
    match other {
        Some(other) => met(dealt, same, other),
        None => None,
    }
}
