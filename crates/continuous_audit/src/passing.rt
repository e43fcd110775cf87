//! What the deals of a record take from the book of the other side, and whether one passes
//! over a better order.
ghost use Rattle.std.specs.Prelude.{◌≡◌, ◌<◌, List, None, Some, length};
ghost use Rattle.audit_base.specs.Orders.{order_at, place_at, side_at};
ghost use Rattle.audit_base.specs.Priority.{better};
ghost use Rattle.order_book.specs.declared.books.Resting.{Resting as RestingSpec};
ghost use Rattle.order_book.specs.Books.{best_resting};
ghost use Rattle.continuous_audit.specs.Books.{AreBooksAfterDeals, AreBooksBefore};
ghost use Rattle.continuous_audit.specs.Flaws.{HasShownNumber, IsFindingOfFlaw, priority_flaw, shown_number};
ghost use Rattle.continuous_audit.specs.IndexedDeals.{IsFilledAgainst, IsIndexedDeals, IsOpposite, incoming_deal_at, resting_order_at};
ghost use Rattle.continuous_audit.specs.Progress.{HasDealt};
ghost use Rattle.continuous_audit.specs.Records.{priority_at};

use super::books::Books;
use super::dealing_state::DealingState;
use super::incoming_deals::resting_of;
use super::indexed_deals::IndexedDeals;
use audit_base::flaws::{Evidence, Flaw};
use order_book::books::Resting;
use rank_order::comparing::better;

/// Whether an order outranks the resting order of the deal at `at` of the incoming deals.
fn outranks(market: &IndexedDeals<'_>, over: usize, at: usize) -> bool
    requires market { IsIndexedDeals market.now }
    requires over { over < length market.now.orders.now }
    requires at { at < length market.now.incoming_deals.now }
    requires side { side_at market.now.orders.now over
        ≡ side_at market.now.orders.now (resting_order_at market.now at) }
    ensures { result ≡ better (order_at market.now.orders.now over)
        (order_at market.now.orders.now (resting_order_at market.now at)) }
{
    let (orders, deals, incoming_deals) = (market.orders, market.deals, market.incoming_deals);
    let deal = &deals[incoming_deals[at].deal as usize];
    let index = resting_of(orders, deal);
    better(&orders.at(over), &orders.at(index))
}

/// The flaw of the deal at `at` of the incoming deals, which passes over the order at `over`.
fn priority_flaw(market: &IndexedDeals<'_>, numbers: &DealingState, over: usize, at: usize) -> Flaw
    requires market { IsIndexedDeals market.now }
    requires at { at < length market.now.incoming_deals.now }
    requires over { HasShownNumber numbers.now over }
    requires resting { HasShownNumber numbers.now (resting_order_at market.now at) }
    ensures { result ≡ priority_flaw market.now.orders.now (shown_number numbers.now)
        (incoming_deal_at market.now at) over }
{
    let (orders, deals, incoming_deals) = (market.orders, market.deals, market.incoming_deals);
    let deal = &deals[incoming_deals[at].deal as usize];
    let index = resting_of(orders, deal);
    let (side, first, second) = (
        orders.at(index).side(),
        numbers.shown(over),
        numbers.shown(index),
    );
    Flaw {
        place: deal.place,
        evidence: Evidence::Priority {
            side,
            ahead: first,
            own: second,
        },
    }
}

/// The first deal of the order at `order` whose resting order the best order outranks.
fn check_priority(
    market: &IndexedDeals<'_>,
    order: usize,
    numbers: &DealingState,
    best: Resting,
) -> Option<Flaw>
    requires market { IsIndexedDeals market.now }
    requires order { order < length market.now.orders.now }
    requires dealt { HasDealt market.now order numbers.now }
    requires best { IsOpposite market.now order best }
    ensures { (ys : List RestingSpec) → best_resting ys ≡ Some best
        → IsFilledAgainst market.now order ys → IsFindingOfFlaw market.now.orders.now result
        (priority_at market.now.orders.now market.now.deals.now order) }
{
    let over = best.index;
    for at in numbers.start..numbers.running.added {
        if outranks(market, over, at) {
            return Some(priority_flaw(market, numbers, over, at));
        }
    }
    None
}

/// Takes what the deals of the order at `order` took from the book of the other side, and gives the
/// first of them that passes over a better order.
pub fn pass_deals(
    market: &IndexedDeals<'_>,
    order: usize,
    numbers: &DealingState,
    books: &mut Books,
) -> Option<Flaw>
    requires market { IsIndexedDeals market.now }
    requires order { order < length market.now.orders.now }
    requires dealt { HasDealt market.now order numbers.now }
    requires books { AreBooksBefore market.now.orders.now market.now.deals.now
        (place_at market.now.orders.now order) books.old }
    ensures found { IsFindingOfFlaw market.now.orders.now result
        (priority_at market.now.orders.now market.now.deals.now order) }
    ensures holds { result ≡ None
        → AreBooksAfterDeals market.now.orders.now market.now.deals.now order books.new }
{
    let side = market.orders.at(order).side().other();
    books.fill(side, &numbers.order_numbers.left);
    match books.best(side) {
        Some(best) => check_priority(market, order, numbers, best),
        None => None,
    }
}
