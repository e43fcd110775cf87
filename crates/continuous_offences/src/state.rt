//! What is kept from one order to the next, whatever has been found.
ghost use Rattle.std.specs.Prelude.{◌<◌, suc, OnOk, IfOk, length};
ghost use Rattle.continuous_audit.specs.Records.{priority_at};
ghost use Rattle.offence_list.specs.ContinuousLists.{crossing_finding, offence_at_place};
ghost use Rattle.audit_base.specs.Orders.{place_at};
ghost use Rattle.order_arrivals.specs.Arrivals.{AreArrivals};
ghost use Rattle.continuous_offences.specs.DealFacts.{IsOffenceOf};
ghost use Rattle.continuous_offences.specs.Books.{AreBooksOf};
ghost use Rattle.continuous_offences.specs.StateAfterDeals.{IsDealt, deals_of, orders_of, place_of};
ghost use Rattle.order_arrivals.specs.DealtOrders.{IsMarket};
ghost use Rattle.continuous_offences.specs.Passing.{AreDealsOf};
ghost use Rattle.continuous_offences.specs.States.{IsReady};

use super::books::RestingBooks;
use super::crossing::crossing_offence;
use super::passing::first_passed_over;
use super::scanning::{first_deal_offence, first_of};
use super::state_after_deals::StateAfterDeals;
use audit_base::faults::NoMemory;
use offence_list::offences::ListedOffence;
use order_arrivals::arrivals::Arrivals;
use order_arrivals::dealt_orders::DealtOrders;
use order_arrivals::totals::TradedSoFar;
use std::alloc::Global;

/// What the orders have traded, and which of them may rest.
#[derive(Drop)]
pub(crate) struct ListingState {
    /// What each order has traded before the place of an order, and after its deals.
    before: TradedSoFar,
    after: TradedSoFar,
    books: RestingBooks,
}

/// The offence of the first deal of the order that passes over the best order that waits.
fn passed_over(
    dealt: &StateAfterDeals<'_, '_, '_>,
    start: usize,
    end: usize,
    books: &mut RestingBooks,
) -> Option<ListedOffence>
    requires dealt { IsDealt dealt.now }
    requires deals { AreDealsOf dealt.now start end }
    requires books { AreBooksOf (orders_of dealt.now) (deals_of dealt.now) dealt.now.order
        (place_of dealt.now) (suc (place_of dealt.now)) books.old }
    ensures found { IsOffenceOf (orders_of dealt.now) result
        (priority_at (orders_of dealt.now) (deals_of dealt.now) dealt.now.order) }
    ensures books { AreBooksOf (orders_of dealt.now) (deals_of dealt.now) dealt.now.order
        (place_of dealt.now) (suc (place_of dealt.now)) books.new }
{
    let against = dealt.side().other();
    let here = dealt.place();
    match books.best(against, dealt, here) {
        Some(best) => first_passed_over(dealt, best, start, end),
        None => None,
    }
}

/// The offence of the order's record, if the order meets one that rests.
fn crossed(dealt: &StateAfterDeals<'_, '_, '_>, books: &mut RestingBooks) -> Option<ListedOffence>
    requires dealt { IsDealt dealt.now }
    requires books { AreBooksOf (orders_of dealt.now) (deals_of dealt.now) dealt.now.order
        (suc (place_of dealt.now)) (suc (place_of dealt.now)) books.old }
    ensures found { IsOffenceOf (orders_of dealt.now) result
        (crossing_finding (orders_of dealt.now) (deals_of dealt.now) (place_of dealt.now)) }
    ensures books { AreBooksOf (orders_of dealt.now) (deals_of dealt.now) dealt.now.order
        (suc (place_of dealt.now)) (suc (place_of dealt.now)) books.new }
{
    let own = dealt.side();
    let next = dealt.place() + 1;
    if dealt.has_left_before(dealt.order, next) {
        let other = books.best(own.other(), dealt, next);
        let same = books.best(own, dealt, next);
        crossing_offence(dealt, same, other)
    } else {
        None
    }
}

/// Adds the order to the book of its side, if it rests after its own record.
fn enter(dealt: &StateAfterDeals<'_, '_, '_>, books: &mut RestingBooks) -> Result<(), NoMemory>
    requires dealt { IsDealt dealt.now }
    requires books { AreBooksOf (orders_of dealt.now) (deals_of dealt.now) dealt.now.order
        (suc (place_of dealt.now)) (suc (place_of dealt.now)) books.old }
    ensures { OnOk result (AreBooksOf (orders_of dealt.now) (deals_of dealt.now)
        (suc dealt.now.order) (suc (place_of dealt.now)) (suc (place_of dealt.now)) books.new) }
{
    let order = dealt.order;
    let next = dealt.place() + 1;
    if dealt.rests(order, next) {
        books.enter(dealt, dealt.left(order))
    } else {
        Ok(())
    }
}

impl ListingState {
    /// Before the first of this many orders.
    pub(crate) fn new(alloc: Global, market: &DealtOrders<'_>) -> Result<ListingState, NoMemory>
        requires { IsMarket market.now }
        ensures { IfOk result (IsReady market.now 0) }
    {
        let count = market.orders.len();
        Ok(ListingState {
            before: TradedSoFar::new(alloc, count)?,
            after: TradedSoFar::new(alloc, count)?,
            books: RestingBooks::new(alloc),
        })
    }

    /// The offence at the place of an order, and what is kept for the next one.
    pub(crate) fn next_offence(
        &mut self,
        market: &DealtOrders<'_>,
        arrivals: &Arrivals,
        order: usize,
    ) -> Result<Option<ListedOffence>, NoMemory>
        requires market { IsMarket market.now }
        requires order { order < length market.now.orders.now }
        requires arrivals { AreArrivals market.now.orders.now market.now.deals.now
            (length market.now.orders.now) arrivals.now }
        requires ready { IsReady market.now order self.old }
        ensures found { IfOk result (λ offence. IsOffenceOf market.now.orders.now offence
            (offence_at_place market.now.orders.now market.now.deals.now
            (place_at market.now.orders.now order))) }
        ensures ready { OnOk result (IsReady market.now (suc order) self.new) }
    {
        let (start, before) = (self.before.added, &self.before.traded);
        let by_itself = first_deal_offence(market, arrivals, before, order, &mut self.after);
        let dealt = StateAfterDeals {
            market,
            arrivals,
            traded: &self.after.traded,
            order,
        };
        let passed = passed_over(&dealt, start, self.after.added, &mut self.books);
        let crossed = crossed(&dealt, &mut self.books);
        enter(&dealt, &mut self.books)?;
        self.before.add_deals_of(market, order);
        let later = first_of(passed, crossed);
        Ok(first_of(by_itself, later))
    }
}
