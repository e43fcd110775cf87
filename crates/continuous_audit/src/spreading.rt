//! Whether the order of a record meets one that rests, and its way into the book.
ghost use Rattle.std.specs.Prelude.{◌≡◌, ◌<◌, ◌≤◌, ◌+◌, min, ◌&&◌, ℕ, List, Some, OnOk, length, option_map};
ghost use Rattle.audit_base.specs.declared.orders.Deal.{Deal as DealSpec};
ghost use Rattle.audit_base.specs.Orders.{IsOrderList, place_at};
ghost use Rattle.audit_base.specs.Continuous.{traded_before};
ghost use Rattle.audit_base.specs.Expected.{limits_meet};
ghost use Rattle.audit_base.specs.ContinuousOffences.{spread_finding};
ghost use Rattle.audit_base.specs.Flaws.{finding_of};
ghost use Rattle.continuous_audit.specs.Books.{AreBooksAfter, AreBooksBelow, resting_count};
ghost use Rattle.continuous_audit.specs.Flaws.{HasShownNumber, shown_number, spread_flaw_after, spread_evidence, spread_flaw};
ghost use Rattle.continuous_audit.specs.Holding.{IsUncrossedBefore};
ghost use Rattle.continuous_audit.specs.Spreads.{IsAfterOwn, is_active_after_with, rests_after_with};

use super::books::Books;
use super::dealing_state::DealingState;
use audit_base::faults::NoMemory;
use audit_base::flaws::{Evidence, Flaw, TradedOrder};
use audit_base::numbers::Price;
use audit_base::terms::Side;
use order_list::listed::ListedOrder;
use order_list::lists::OrderList;

/// Whether an order is active after its own record, where this much is left of it.
fn is_active(order: &ListedOrder<'_>, left: u64) -> bool
    ensures { result ≡ is_active_after_with order.now left }
{
    let uncancelled = match order.cancelled() {
        Some(end) => order.place() < end,
        None => true,
    };
    uncancelled && left > 0
}

/// Whether an order rests after its own record.
fn stays(order: &ListedOrder<'_>, left: u64) -> bool
    ensures { result ≡ rests_after_with order.now left }
{
    order.life().rests() && is_active(order, left)
}

/// Whether a limit of a side meets one of the other side.
pub fn limits_meet(side: Side, limit: Price, other: Price) -> bool
    ensures { result ≡ limits_meet side limit other }
{
    match side {
        Side::Buy => other <= limit,
        Side::Sell => limit <= other,
    }
}

/// Whether an order is active after its own record, where this much is left of it, and meets a
/// limit of the other side.
fn meets(order: &ListedOrder<'_>, left: u64, other: Price) -> bool
    ensures { result ≡ is_active_after_with order.now left && limits_meet order.now.side
        order.now.limit other }
{
    is_active(order, left) && limits_meet(order.side(), order.limit(), other)
}

/// The best order of the other side, by its index, if the order of a record is active after it
/// and meets that one.
pub fn spread_of(orders: &OrderList<'_>, order: usize, left: u64, books: &Books) -> Option<usize>
    requires order_list { IsOrderList orders.now }
    requires order { order < length orders.now }
    requires earlier { AreBooksBelow order books.now }
    ensures finding { (deals : List DealSpec) → IsAfterOwn orders.now deals order left books.now
        → IsUncrossedBefore orders.now (traded_before orders.now deals) (place_at orders.now order)
        → spread_finding orders.now deals (place_at orders.now order)
        ≡ option_map (λ other. finding_of orders.now
        (spread_flaw_after orders.now deals order other)) result }
    ensures upto { (other : ℕ) → result ≡ Some other → other ≤ order }
{
    let own = orders.at(order);
    match books.best(own.side().other()) {
        Some(best) => {
            if !meets(&own, left, best.limit) {
                return None;
            }
            Some(best.index)
        }
        None => None,
    }
}

/// What shows that an order of a side and another one meet.
fn spread_evidence(side: Side, own: TradedOrder, other: TradedOrder) -> Evidence
    ensures { result ≡ spread_evidence side own other }
{
    match side {
        Side::Buy => Evidence::Spread {
            bid: own,
            ask: other,
        },
        Side::Sell => Evidence::Spread {
            bid: other,
            ask: own,
        },
    }
}

/// The flaw of the record of the order at `order`, which meets the one at `other`.
pub fn spread_flaw(
    orders: &OrderList<'_>,
    numbers: &DealingState,
    order: usize,
    other: usize,
) -> Flaw
    requires order { order < length orders.now }
    requires own { HasShownNumber numbers.now order }
    requires other { HasShownNumber numbers.now other }
    ensures { result ≡ spread_flaw orders.now (shown_number numbers.now) order other }
{
    let own = orders.at(order);
    Flaw {
        place: own.place(),
        evidence: spread_evidence(own.side(), numbers.shown(order), numbers.shown(other)),
    }
}

/// Adds the order of a record to the book of its side, if it rests.
pub fn enter_own(
    orders: &OrderList<'_>,
    order: usize,
    left: u64,
    books: &mut Books,
) -> Result<(), NoMemory>
    requires order_list { IsOrderList orders.now }
    requires order { order < length orders.now }
    requires earlier { AreBooksBelow order books.old }
    ensures entered { OnOk result ((deals : List DealSpec)
        → IsAfterOwn orders.now deals order left books.old
        → AreBooksAfter orders.now deals order books.new) }
    ensures more { OnOk result (resting_count books.new ≤ resting_count books.old + min 1 left) }
{
    let own = orders.at(order);
    if stays(&own, left) {
        books.enter(own.side(), order, own.limit(), left)
    } else {
        Ok(())
    }
}
