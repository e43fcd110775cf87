//! A book: the orders of a side that rest, with what is left of each, the best first.
ghost use Rattle.std.specs.Prelude.{◌≡◌, ◌<◌, ◌≤◌, ◌^◌, All, AllPairs, IsTrue, OnOk, OnErr, IfSome, IsSome, []};
ghost use Rattle.std.specs.BTreeMap.{get, is_at};
ghost use Rattle.std.specs.List.{list_any};
ghost use Rattle.std.specs.Map.{set_value};
ghost use Rattle.order_book.specs.Books.{IsAheadInBook, IsRestingOrder, has_index_and_limit, without_order, after_take, best_resting, book_with_order};

use audit_base::faults::NoMemory;
use audit_base::numbers::Price;
use audit_base::terms::Side;
use rank_order::ranks::Rank;
use std::alloc::Global;
use std::collections::BTreeMap;
use std::marker::Model;

/// An order that rests, by its index in the order list, with its limit and what is left of it.
#[derive(Clone, Copy, Debug, PartialEq, Eq, Drop)]
pub struct Resting {
    pub index: usize,
    pub limit: Price,
    pub left: u64,
}

/// The orders of one side that rest, in rank order.
#[derive(Drop)]
pub struct Book {
    side: Side,
    orders: BTreeMap<Rank, Resting>,
}

/// Puts an order in the place of the one that has its rank.
fn put(orders: &mut BTreeMap<Rank, Resting>, rank: Rank, order: Resting)
    requires { IsSome (get ⟦<Rank as Ord>⟧.cmp orders.old rank) }
    ensures { orders.new.entries
        ≡ set_value (is_at (⟦<Rank as Ord>⟧.cmp rank)) orders.old.entries order }
{
    if let Some(held) = orders.get_mut(&rank) {
        *held = order;
    }
}

impl Model for Book {
    ghost use Rattle.std.specs.BTreeMap.{values};
    ghost use Rattle.order_book.specs.Books.{BookSide};
    ghost use Rattle.order_book.specs.Entries.{AreBookEntries};

    ghost Value = { BookSide };

    ghost view = { λ b. record { side = b.side; resting = values b.orders } };

    ghost invariant = { λ b. AreBookEntries b.side b.orders.entries };
}

impl Book {
    /// An empty book of a side.
    pub fn new(alloc: Global, side: Side) -> Book
        ensures { result ≡ record { side = side; resting = [] } }
    {
        Book {
            side,
            orders: BTreeMap::new(alloc),
        }
    }

    /// Adds an order that is later than all that rest, behind those whose limit is not worse. Where
    /// it is out of memory the book is as before.
    pub fn add(&mut self, index: usize, limit: Price, left: u64) -> Result<(), NoMemory>
        requires some { 0 < left }
        requires latest { All (λ r. r.index < index) self.old.resting }
        ensures ok { OnOk result (self.new ≡ book_with_order self.old index limit left) }
        ensures err { OnErr result (self.new ≡ self.old) }
    {
        let rank = Rank::of(self.side, index, limit);
        let resting = Resting { index, limit, left };
        match self.orders.insert(rank, resting) {
            Ok(_) => Ok(()),
            Err(_) => Err(NoMemory),
        }
    }

    /// Takes out the order with this index and limit. True exactly where it was there.
    pub fn cancel(&mut self, index: usize, limit: Price) -> bool
        ensures there { result ≡ list_any (has_index_and_limit index limit) self.old.resting }
        ensures gone { self.new
            ≡ record self.old { resting = without_order index limit self.old.resting } }
    {
        let rank = Rank::of(self.side, index, limit);
        self.orders.remove(&rank).is_some()
    }

    /// The best order; None exactly where none rests.
    pub fn best(&self) -> Option<Resting>
        ensures best { result ≡ best_resting self.now.resting }
        ensures ranked { AllPairs (IsAheadInBook self.now.side) self.now.resting }
        ensures held { All IsRestingOrder self.now.resting }
    {
        match self.orders.first_key_value() {
            Some((_, resting)) => Some(*resting),
            None => None,
        }
    }

    /// Takes this quantity from the best order, which is taken out where nothing is left of it.
    pub fn take(&mut self, quantity: u64)
        requires some { 0 < quantity }
        requires within { IfSome (best_resting self.old.resting) (λ r. quantity ≤ r.left) }
        ensures { self.new ≡ record self.old { resting = after_take quantity self.old.resting } }
    {
        let Some((rank, best)) = self.orders.first_key_value() else {
            return;
        };
        let (rank, best) = (*rank, *best);
        if quantity < best.left {
            let rest = Resting {
                index: best.index,
                limit: best.limit,
                left: best.left - quantity,
            };
            put(&mut self.orders, rank, rest);
        } else {
            self.orders.pop_first();
        }
    }
}
