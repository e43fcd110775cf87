//! A walk over the places, which takes each order at its own place.
ghost use Rattle.std.specs.Prelude.{◌≡◌, ◌<◌, ◌^◌, suc, All, AllPairs, IfOk, OnOk, length, option_map};
ghost use Rattle.audit_base.specs.Orders.{place_at};
ghost use Rattle.continuous_picture.specs.Active.{IsKnownAt, is_active_in_book, known_orders};
ghost use Rattle.continuous_picture.specs.Quotes.{IsQuoteAt};
ghost use Rattle.continuous_picture.specs.Sizes.{AreSizesOf};
ghost use Rattle.continuous_picture.specs.Walks.{HasNext, IsWalk, from_passing, is_next_at};
ghost use Rattle.order_arrivals.specs.DealtOrders.{IsMarket};
ghost use Rattle.order_book.specs.Books.{IsAheadInBook, best_resting};

use crate::active::StateAfterRecord;
use crate::quotes::Quote;
use audit_base::faults::NoMemory;
use audit_base::numbers::Price;
use audit_base::terms::Side;
use order_arrivals::dealt_orders::DealtOrders;
use order_arrivals::totals::TradedSoFar;
use order_book::books::Book;
use std::alloc::Global;

/// What is kept from one place to the next.
#[derive(Drop)]
pub(crate) struct Walk {
    /// The orders that may be active. What is left of them is not kept there.
    bids: Book,
    asks: Book,
    totals: TradedSoFar,
    /// The index of the first order that has not come.
    next: usize,
}

/// Takes the orders out of the front of a book that are not active, and gives the limit of the best
/// that is.
fn first_active(known: &StateAfterRecord<'_, '_, '_>, book: &mut Book) -> Option<Price>
    requires known { IsKnownAt known.now }
    requires inside { All (λ r. r.index < length (known_orders known.now)) book.old.resting }
    ensures list { book.new ≡ record book.old {
      resting = from_passing (is_active_in_book known.now) book.old.resting;
    } }
    ensures best { result ≡ option_map (λ r. r.limit) (best_resting book.new.resting) }
    ensures ranked { AllPairs (IsAheadInBook book.new.side) book.new.resting }
{
    while let Some(best) = book.best() {
        if known.is_active(best.index) {
            return Some(best.limit);
        }
        book.cancel(best.index, best.limit);
    }
    None
}

impl Walk {
    /// At the place of the first order.
    pub(crate) fn new(alloc: Global, market: &DealtOrders<'_>) -> Result<Walk, NoMemory>
        requires { IsMarket market.now }
        ensures { let place = place_at market.now.orders.now 0 in
            IfOk result (IsWalk market.now place place) }
    {
        Ok(Walk {
            bids: Book::new(alloc, Side::Buy),
            asks: Book::new(alloc, Side::Sell),
            totals: TradedSoFar::new(alloc, market.orders.len())?,
            next: 0,
        })
    }

    /// How many of the incoming deals are those of the orders that have come.
    pub(crate) fn added(&self) -> usize
        ensures { result ≡ self.now.totals.added }
    {
        self.totals.added
    }

    /// Whether the next order is that of the record at a place.
    fn has_order_at(&self, market: &DealtOrders<'_>, place: u64) -> bool
        ensures { result ≡ is_next_at market.now.orders.now self.now.next place }
    {
        if self.next < market.orders.len() {
            u64::from(market.orders.at(self.next).place()) == place
        } else {
            false
        }
    }

    /// Puts the next order into the book of its side.
    fn add_next(&mut self, market: &DealtOrders<'_>, place: u64) -> Result<(), NoMemory>
        requires market { IsMarket market.now }
        requires walk { IsWalk market.now place place self.old }
        requires next { self.old.next < length market.now.orders.now }
        requires here { place_at market.now.orders.now self.old.next ≡ place }
        ensures ok { OnOk result (HasNext market.now place self.old self.new) }
    {
        let own = market.orders.at(self.next);
        match own.side() {
            Side::Buy => self.bids.add(self.next, own.limit(), 1),
            Side::Sell => self.asks.add(self.next, own.limit(), 1),
        }
    }

    /// Takes the order of the record at a place, if it is one of the list.
    fn take(&mut self, market: &DealtOrders<'_>, place: u64) -> Result<(), NoMemory>
        requires market { IsMarket market.now }
        requires walk { IsWalk market.now place place self.old }
        ensures { OnOk result (IsWalk market.now (suc place) place self.new) }
    {
        if !self.has_order_at(market, place) {
            return Ok(());
        }
        self.add_next(market, place)?;
        self.totals.add_deals_of(market, self.next);
        self.next += 1;
        Ok(())
    }

    /// The best limits after the record at a place.
    fn quote(&mut self, market: &DealtOrders<'_>, sizes: &[u64], place: u64) -> Quote
        requires market { IsMarket market.now }
        requires sizes { AreSizesOf market.now.orders.now market.now.deals.now sizes.now }
        requires fits { place < 2 ^ 33 }
        requires walk { IsWalk market.now (suc place) place self.old }
        ensures quote { IsQuoteAt market.now.orders.now market.now.deals.now place result }
        ensures walk { IsWalk market.now (suc place) place self.new }
    {
        let known = StateAfterRecord {
            market,
            sizes,
            traded: &self.totals.traded,
            place,
        };
        let bid = first_active(&known, &mut self.bids);
        let ask = first_active(&known, &mut self.asks);
        Quote { bid, ask }
    }

    /// The best limits after the record at a place, at which the walk is, and goes on to the next.
    pub(crate) fn next_quote(
        &mut self,
        market: &DealtOrders<'_>,
        sizes: &[u64],
        place: u64,
    ) -> Result<Quote, NoMemory>
        requires market { IsMarket market.now }
        requires sizes { AreSizesOf market.now.orders.now market.now.deals.now sizes.now }
        requires fits { place < 2 ^ 33 }
        requires walk { IsWalk market.now place place self.old }
        ensures quote { IfOk result (IsQuoteAt market.now.orders.now market.now.deals.now place) }
        ensures walk { OnOk result (IsWalk market.now (suc place) (suc place) self.new) }
    {
        self.take(market, place)?;
        Ok(self.quote(market, sizes, place))
    }
}
