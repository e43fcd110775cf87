//! The orders of both sides that rest, and those that records have ended.
ghost use Rattle.std.specs.Prelude.{◌≡◌, ◌<◌, ◌≤◌, ◌+◌, ℕ, suc, List, OnOk, OnErr, All, length};
ghost use Rattle.audit_base.specs.declared.orders.Deal.{Deal as DealSpec};
ghost use Rattle.audit_base.specs.Orders.{IsOrderList, place_at};
ghost use Rattle.audit_base.specs.Deals.{NamesOrders};
ghost use Rattle.order_book.specs.Books.{best_resting};
ghost use Rattle.continuous_audit.specs.Endings.{AreEndingsDropped, AreEndingsBelow, AreEndings, IsEnding, amount_without};
ghost use Rattle.continuous_audit.specs.Books.{AreEmptyBooks, AreBooksOfAmounts, AreBooksBelow, books_with_order, books_without_order, book_list};
ghost use Rattle.continuous_audit.specs.Books.{AreBooksAfter, AreBooksAfterDeals, AreBooksForNext, AreBooksWithoutOwn, next_order_place};
ghost use Rattle.continuous_audit.specs.Books.{resting_count, books_with_fills};
ghost use Rattle.continuous_audit.specs.Holding.{IsWithinBook};

use super::book_fills::fill_best;
use super::endings::OrderEnd;
use audit_base::faults::NoMemory;
use audit_base::numbers::Price;
use audit_base::terms::Side;
use order_book::books::{Book, Resting};
use order_list::lists::OrderList;
use std::alloc::Global;

/// The books of both sides.
#[derive(Drop)]
pub struct Books {
    pub bids: Book,
    pub asks: Book,
}

impl Books {
    /// The best order of a side that rests.
    pub fn best(&self, side: Side) -> Option<Resting>
        ensures { result ≡ best_resting (book_list side self.now) }
    {
        match side {
            Side::Buy => self.bids.best(),
            Side::Sell => self.asks.best(),
        }
    }

    /// Takes from the book of a side what its orders have traded, by what is left of them now.
    pub fn fill(&mut self, side: Side, left: &[u64])
        requires bids { All (IsWithinBook left.now) self.old.bids.resting }
        requires asks { All (IsWithinBook left.now) self.old.asks.resting }
        ensures { self.new ≡ books_with_fills side left.now self.old }
    {
        match side {
            Side::Buy => fill_best(&mut self.bids, left),
            Side::Sell => fill_best(&mut self.asks, left),
        }
    }

    /// Takes an order out of the book of its side.
    fn cancel(&mut self, side: Side, index: usize, limit: Price)
        ensures { self.new ≡ books_without_order side index limit self.old }
    {
        match side {
            Side::Buy => {
                self.bids.cancel(index, limit);
            }
            Side::Sell => {
                self.asks.cancel(index, limit);
            }
        }
    }

    /// Adds a later order to the book of its side. Where it is out of memory the
    /// books are as before.
    pub fn enter(
        &mut self,
        side: Side,
        index: usize,
        limit: Price,
        left: u64,
    ) -> Result<(), NoMemory>
        requires some { 0 < left }
        requires earlier { AreBooksBelow index self.old }
        ensures ok { OnOk result
            (self.new ≡ books_with_order side (record { index = index; limit = limit; left = left })
            self.old) }
        ensures err { OnErr result (self.new ≡ self.old) }
        ensures more { OnOk result (resting_count self.new ≡ resting_count self.old + 1) }
    {
        match side {
            Side::Buy => self.bids.add(index, limit, left),
            Side::Sell => self.asks.add(index, limit, left),
        }
    }
}

/// The books, and how many of the orders that records end have been taken out of them.
#[derive(Drop)]
pub struct BooksSoFar {
    pub books: Books,
    pub start: usize,
}

/// The place of the order after the one at `order`, or one past its place if it is the last.
fn next_place(orders: &OrderList<'_>, order: usize) -> u64
    requires { order < length orders.now }
    ensures { result ≡ next_order_place orders.now (suc order) }
{
    let count = orders.len();
    if order + 1 < count {
        orders.at(order + 1).place() as u64
    } else {
        let place = orders.at(order).place();
        place as u64 + 1
    }
}

impl BooksSoFar {
    /// Empty books, before the first order.
    pub fn new(alloc: Global) -> BooksSoFar
        ensures { AreEmptyBooks result }
    {
        BooksSoFar {
            books: Books {
                bids: Book::new(alloc, Side::Buy),
                asks: Book::new(alloc, Side::Sell),
            },
            start: 0,
        }
    }

    /// Takes the orders out of the books that records before a place end.
    fn drop_ended(&mut self, orders: &OrderList<'_>, endings: &[OrderEnd], upto: u64)
        requires inside { All (IsEnding orders.now) endings.now }
        requires from { self.old.start ≤ length endings.now }
        ensures ended { AreEndingsBelow endings.now self.old.start self.new.start upto }
        ensures holds { (amount : ℕ → ℕ) → AreBooksOfAmounts orders.now amount self.old.books
            → AreBooksOfAmounts orders.now
            (amount_without endings.now self.old.start self.new.start amount) self.new.books }
        ensures fewer { resting_count self.new.books ≤ resting_count self.old.books }
    {
        while self.start < endings.len() {
            let ending = endings[self.start];
            if upto <= ending.place as u64 {
                return;
            }
            let index = ending.index as usize;
            let order = orders.at(index);
            self.books.cancel(order.side(), index, order.limit());
            self.start += 1;
        }
    }

    /// Takes out of the books what the record of an order ends, after its deals.
    pub fn drop_own(&mut self, orders: &OrderList<'_>, endings: &[OrderEnd], order: usize)
        requires order_list { IsOrderList orders.now }
        requires order { order < length orders.now }
        requires endings { AreEndings orders.now endings.now }
        requires dropped { AreEndingsDropped endings.now self.old.start
            (place_at orders.now order) }
        ensures dropped { AreEndingsDropped endings.now self.new.start
            (suc (place_at orders.now order)) }
        ensures holds { (deals : List DealSpec) → All (NamesOrders orders.now) deals
            → AreBooksAfterDeals orders.now deals order self.old.books
            → AreBooksWithoutOwn orders.now deals order self.new.books }
        ensures fewer { resting_count self.new.books ≤ resting_count self.old.books }
    {
        let place = orders.at(order).place();
        self.drop_ended(orders, endings, place as u64 + 1);
    }

    /// Takes out of the books what is ended between the record of an order and that of the next.
    pub fn drop_before_next(&mut self, orders: &OrderList<'_>, endings: &[OrderEnd], order: usize)
        requires order_list { IsOrderList orders.now }
        requires order { order < length orders.now }
        requires endings { AreEndings orders.now endings.now }
        requires dropped { AreEndingsDropped endings.now self.old.start
            (suc (place_at orders.now order)) }
        ensures dropped { AreEndingsDropped endings.now self.new.start
            (next_order_place orders.now (suc order)) }
        ensures holds { (deals : List DealSpec) → All (NamesOrders orders.now) deals
            → AreBooksAfter orders.now deals order self.old.books
            → AreBooksForNext orders.now deals (suc order) self.new.books }
        ensures fewer { resting_count self.new.books ≤ resting_count self.old.books }
    {
        self.drop_ended(orders, endings, next_place(orders, order));
    }
}
