//! The book right before a record: the ten best orders of a side that rest there.
ghost use Rattle.std.specs.Prelude.{◌≡◌, ◌<◌, ◌&&◌, nat_le, suc, AllPairs, IfOk, OnOk, length, take};
ghost use Rattle.audit_base.specs.Continuous.{left_before, rests_before};
ghost use Rattle.audit_base.specs.Orders.{place_at, same_side, side_at};
ghost use Rattle.continuous_audit.specs.Records.{AreTradedBefore};
ghost use Rattle.continuous_picture.specs.BooksAt.{AreLines, IsBefore, IsBookAt, deals_before, orders_before};
ghost use Rattle.continuous_picture.specs.Sizes.{AreSizesOf};
ghost use Rattle.order_arrivals.specs.DealtOrders.{IsMarket};
ghost use Rattle.order_book.specs.Books.{IsAheadInBook};

use audit_base::faults::NoMemory;
use audit_base::terms::Side;
use matching_core::totals::left_of;
use order_arrivals::dealt_orders::DealtOrders;
use order_arrivals::resting::rests;
use order_arrivals::totals::TradedSoFar;
use order_book::books::{Book, Resting};
use order_list::lists::OrderList;
use std::alloc::Global;

/// The greatest number of lines of a book.
const MOST_LINES: usize = 10;

/// What is known right before the record at a place.
#[derive(Clone, Copy)]
struct StateBeforeRecord<'m, 's, 't> {
    market: &'m DealtOrders<'m>,
    sizes: &'s [u64],
    /// What each order has traded before the place.
    traded: &'t [u128],
    place: u64,
}

/// Whether the record of an order is at a place or behind it.
fn is_from(orders: &OrderList<'_>, order: usize, place: u64) -> bool
    requires { order < length orders.now }
    ensures { result ≡ nat_le place (place_at orders.now order) }
{
    place <= u64::from(orders.at(order).place())
}

/// What each order has traded before a place.
fn totals_before(
    alloc: Global,
    market: &DealtOrders<'_>,
    place: u64,
) -> Result<TradedSoFar, NoMemory>
    requires { IsMarket market.now }
    ensures { IfOk result (λ totals. AreTradedBefore market.now.orders.now market.now.deals.now
        place totals.traded.items) }
{
    let orders = market.orders;
    let mut totals = TradedSoFar::new(alloc, orders.len())?;
    for order in 0..orders.len() {
        if is_from(orders, order, place) {
            return Ok(totals);
        }
        totals.add_deals_of(market, order);
    }
    Ok(totals)
}

impl StateBeforeRecord<'_, '_, '_> {
    /// Whether an order rests.
    fn rests(&self, order: usize) -> bool
        requires before { IsBefore self.now }
        requires order { order < length (orders_before self.now) }
        ensures { result ≡ rests_before (orders_before self.now) (deals_before self.now)
            self.now.place order }
    {
        let own = self.market.orders.at(order);
        let (size, traded) = (self.sizes[order], self.traded[order]);
        u64::from(own.place()) < self.place && rests(&own, self.place, size, traded)
    }

    /// Whether an order of a side rests.
    fn rests_on(&self, side: Side, order: usize) -> bool
        requires before { IsBefore self.now }
        requires order { order < length (orders_before self.now) }
        ensures { result ≡ (same_side side (side_at (orders_before self.now) order)
            && rests_before (orders_before self.now) (deals_before self.now) self.now.place order) }
    {
        self.market.orders.at(order).side() == side && self.rests(order)
    }

    /// What is left of an order.
    fn left(&self, order: usize) -> u64
        requires before { IsBefore self.now }
        requires order { order < length (orders_before self.now) }
        ensures { result ≡ left_before (orders_before self.now) (deals_before self.now)
            self.now.place order }
    {
        left_of(self.sizes[order], self.traded[order])
    }

    /// Adds an order to the book of a side, if it rests.
    fn add(&self, book: &mut Book, side: Side, order: usize) -> Result<(), NoMemory>
        requires before { IsBefore self.now }
        requires order { order < length (orders_before self.now) }
        requires side { book.old.side ≡ side }
        requires lines { AreLines (orders_before self.now) (deals_before self.now) side
            self.now.place order book.old.resting }
        ensures side { OnOk result (book.new.side ≡ side) }
        ensures lines { OnOk result (AreLines (orders_before self.now) (deals_before self.now) side
            self.now.place (suc order) book.new.resting) }
    {
        if self.rests_on(side, order) {
            book.add(
                order,
                self.market.orders.at(order).limit(),
                self.left(order),
            )
        } else {
            Ok(())
        }
    }

    /// All orders of a side that rest.
    fn book(&self, alloc: Global, side: Side) -> Result<Book, NoMemory>
        requires { IsBefore self.now }
        ensures side { IfOk result (λ book. book.side ≡ side) }
        ensures lines { IfOk result (λ book. AreLines (orders_before self.now)
            (deals_before self.now) side self.now.place (length (orders_before self.now))
            book.resting) }
    {
        let mut book = Book::new(alloc, side);
        for order in 0..self.market.orders.len() {
            self.add(&mut book, side, order)?;
        }
        Ok(book)
    }
}

/// The orders of a book are in rank order.
fn in_rank_order(book: &Book)
    ensures { AllPairs (IsAheadInBook book.now.side) book.now.resting }
{
    let _best = book.best();
}

/// The ten best orders of a book.
fn first_lines(alloc: Global, book: &mut Book) -> Result<Vec<Resting>, NoMemory>
    ensures { IfOk result (λ lines. lines.items ≡ take 10 book.old.resting) }
{
    let mut lines = Vec::new(alloc);
    while lines.len() < MOST_LINES {
        let Some(best) = book.best() else {
            return Ok(lines);
        };
        let (index, limit) = (best.index, best.limit);
        lines.push(best)?;
        book.cancel(index, limit);
    }
    Ok(lines)
}

/// The ten best orders of a side that rest right before the record at a place, each with what is
/// left of it. Err only out of memory.
pub fn book_at(
    alloc: Global,
    market: &DealtOrders<'_>,
    sizes: &[u64],
    side: Side,
    place: u64,
) -> Result<Vec<Resting>, NoMemory>
    requires market { IsMarket market.now }
    requires sizes { AreSizesOf market.now.orders.now market.now.deals.now sizes.now }
    ensures { IfOk result (λ lines.
        IsBookAt market.now.orders.now market.now.deals.now side place lines.items) }
{
    let totals = totals_before(alloc, market, place)?;
    let before = StateBeforeRecord {
        market,
        sizes,
        traded: &totals.traded,
        place,
    };
    let mut book = before.book(alloc, side)?;
    in_rank_order(&book);
    let lines = first_lines(alloc, &mut book)?;
    Ok(lines)
}
