//! The orders of both sides that may rest, the best first.
//!
//! What an order has traded only grows, and a record that ends it ends it for good: an order that
//! does not rest never does again. So a book may keep such orders until they come to its front.
ghost use Rattle.std.specs.Prelude.{◌≡◌, ◌<◌, suc, [], All, AllPairs, OnOk, length, option_map};
ghost use Rattle.audit_base.specs.declared.terms.Side.TheVariants.{Buy, Sell};
ghost use Rattle.audit_base.specs.Priority.{best_order};
ghost use Rattle.order_book.specs.Books.{IsAheadInBook, best_resting};
ghost use Rattle.continuous_offences.specs.Books.{AreBooksOf, from_first, waits_in_book, waits_on};
ghost use Rattle.continuous_offences.specs.StateAfterDeals.{IsDealt, deals_of, orders_of, place_of};

use super::state_after_deals::StateAfterDeals;
use audit_base::faults::NoMemory;
use audit_base::terms::Side;
use order_book::books::Book;
use std::alloc::Global;

/// The books of both sides.
#[derive(Drop)]
pub(crate) struct RestingBooks {
    bids: Book,
    asks: Book,
}

/// Takes the orders out of the front of a book that do not rest before a place, and gives the best
/// that does.
fn first_resting(dealt: &StateAfterDeals<'_, '_, '_>, place: u64, book: &mut Book) -> Option<usize>
    requires dealt { IsDealt dealt.now }
    requires inside { All (λ r. r.index < length (orders_of dealt.now)) book.old.resting }
    ensures list { book.new ≡ record book.old {
      resting = from_first (waits_in_book dealt.now place) book.old.resting;
    } }
    ensures best { result ≡ option_map (λ r. r.index) (best_resting book.new.resting) }
    ensures ranked { AllPairs (IsAheadInBook book.new.side) book.new.resting }
{
    while let Some(best) = book.best() {
        if dealt.rests(best.index, place) {
            return Some(best.index);
        }
        book.cancel(best.index, best.limit);
    }
    None
}

impl RestingBooks {
    /// Empty books.
    pub(crate) fn new(alloc: Global) -> RestingBooks
        ensures bids { result.bids ≡ record { side = Buy; resting = [] } }
        ensures asks { result.asks ≡ record { side = Sell; resting = [] } }
    {
        RestingBooks {
            bids: Book::new(alloc, Side::Buy),
            asks: Book::new(alloc, Side::Sell),
        }
    }

    /// The best of the earlier orders of a side that rests before a place.
    pub(crate) fn best(
        &mut self,
        side: Side,
        dealt: &StateAfterDeals<'_, '_, '_>,
        place: u64,
    ) -> Option<usize>
        requires dealt { IsDealt dealt.now }
        requires books { AreBooksOf (orders_of dealt.now) (deals_of dealt.now) dealt.now.order
            place (suc (place_of dealt.now)) self.old }
        ensures best { result ≡ best_order (orders_of dealt.now)
            (waits_on (orders_of dealt.now) (deals_of dealt.now) side dealt.now.order place
            (suc (place_of dealt.now))) }
        ensures books { AreBooksOf (orders_of dealt.now) (deals_of dealt.now) dealt.now.order
            place (suc (place_of dealt.now)) self.new }
    {
        match side {
            Side::Buy => first_resting(dealt, place, &mut self.bids),
            Side::Sell => first_resting(dealt, place, &mut self.asks),
        }
    }

    /// Adds the order to the book of its side, with what is left of it.
    pub(crate) fn enter(
        &mut self,
        dealt: &StateAfterDeals<'_, '_, '_>,
        left: u64,
    ) -> Result<(), NoMemory>
        requires dealt { IsDealt dealt.now }
        requires some { 0 < left }
        requires books { AreBooksOf (orders_of dealt.now) (deals_of dealt.now) dealt.now.order
            (suc (place_of dealt.now)) (suc (place_of dealt.now)) self.old }
        ensures { OnOk result (AreBooksOf (orders_of dealt.now) (deals_of dealt.now)
            (suc dealt.now.order) (suc (place_of dealt.now)) (suc (place_of dealt.now)) self.new) }
    {
        let own = dealt.market.orders.at(dealt.order);
        match own.side() {
            Side::Buy => self.bids.add(dealt.order, own.limit(), left),
            Side::Sell => self.asks.add(dealt.order, own.limit(), left),
        }
    }
}
