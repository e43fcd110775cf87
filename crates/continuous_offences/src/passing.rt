//! Findings 12 and 13: a deal of an order passes over a better one that waits.
ghost use Rattle.std.specs.Prelude.{◌≡◌, ◌<◌, Some, length};
ghost use Rattle.audit_base.specs.Continuous.{resting_order};
ghost use Rattle.audit_base.specs.Deals.{NamesOrders};
ghost use Rattle.audit_base.specs.Orders.{side_at};
ghost use Rattle.continuous_audit.specs.Records.{priority_at};
ghost use Rattle.continuous_offences.specs.DealFacts.{IsOffenceOf};
ghost use Rattle.continuous_offences.specs.StateAfterDeals.{IsDealt, deals_of, orders_of, place_of};
ghost use Rattle.continuous_offences.specs.Passing.{AreDealsOf, best_waiting, passed_over, side_against};

use super::state_after_deals::StateAfterDeals;
use audit_base::orders::Deal;
use continuous_audit::incoming_deals::resting_of;
use offence_list::offences::ListedOffence;
use rank_order::comparing::better;

/// The offence of a deal whose resting order the order at `best` outranks.
fn passed_over(
    dealt: &StateAfterDeals<'_, '_, '_>,
    best: usize,
    deal: &Deal,
) -> Option<ListedOffence>
    requires dealt { IsDealt dealt.now }
    requires best { best < length (orders_of dealt.now) }
    requires named { NamesOrders (orders_of dealt.now) deal.now }
    requires side { side_at (orders_of dealt.now) best
        ≡ side_at (orders_of dealt.now) (resting_order (orders_of dealt.now) deal.now) }
    ensures { result ≡ passed_over dealt.now best deal.now }
{
    let orders = dealt.market.orders;
    let resting = resting_of(orders, deal);
    let held = orders.at(resting);
    if better(&orders.at(best), &held) {
        let place = deal.place;
        let side = held.side();
        let ahead = dealt.shown(best);
        let own = dealt.shown(resting);
        Some(ListedOffence::Priority {
            place,
            side,
            ahead,
            own,
        })
    } else {
        None
    }
}

/// The offence of the first deal of the order that passes over the order at `best`, which is the
/// best one that waits; the deals are the incoming ones from `start` to `end`.
pub(crate) fn first_passed_over(
    dealt: &StateAfterDeals<'_, '_, '_>,
    best: usize,
    start: usize,
    end: usize,
) -> Option<ListedOffence>
    requires dealt { IsDealt dealt.now }
    requires deals { AreDealsOf dealt.now start end }
    requires best { best_waiting dealt.now (side_against dealt.now) (place_of dealt.now)
        ≡ Some best }
    ensures { IsOffenceOf (orders_of dealt.now) result
        (priority_at (orders_of dealt.now) (deals_of dealt.now) dealt.now.order) }
{
    let (deals, incoming_deals) = (dealt.market.deals, dealt.market.incoming_deals);
    for at in start..end {
        let deal = &deals[incoming_deals[at].deal as usize];
        if let Some(offence) = passed_over(dealt, best, deal) {
            return Some(offence);
        }
    }
    None
}
