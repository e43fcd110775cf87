//! The state of an audit from one record to the next.
ghost use Rattle.std.specs.Prelude.{◌≡◌, ◌<◌, suc, None, Ok, IfOk, IfSome, length};
ghost use Rattle.audit_base.specs.ContinuousOffences.{IsContinuousOffence};
ghost use Rattle.continuous_audit.specs.Flaws.{IsFlawAt};
ghost use Rattle.continuous_audit.specs.IndexedDeals.{IsIndexedDeals};
ghost use Rattle.continuous_audit.specs.Progress.{IsAfterDeals, IsFirstState, IsReadyFor, IsReadyNext};

use super::books::BooksSoFar;
use super::dealing_state::DealingState;
use super::indexed_deals::IndexedDeals;
use super::passing::pass_deals;
use super::spreading::{enter_own, spread_flaw, spread_of};
use audit_base::faults::NoMemory;
use audit_base::findings::Finding;
use audit_base::flaws::Flaw;
use std::alloc::Global;

/// What is known before an order arrives: the numbers of the earlier ones, and what of them rests.
#[derive(Drop)]
pub struct TradingState {
    pub numbers: DealingState,
    pub books_so_far: BooksSoFar,
}

impl TradingState {
    /// The state before the first of this many orders.
    pub fn new(alloc: Global, count: usize) -> Result<TradingState, NoMemory>
        ensures { IfOk result (IsFirstState count) }
    {
        let numbers = DealingState::new(alloc, count)?;
        Ok(TradingState {
            numbers,
            books_so_far: BooksSoFar::new(alloc),
        })
    }

    /// What each order has traded. All else that the state has is given back.
    pub fn into_traded(self) -> Vec<u64>
        ensures { result.items ≡ self.numbers.running.traded.items }
    {
        self.numbers.running.traded
    }

    /// What the deals of the order at `order` do to the numbers and the books, or their first flaw.
    fn trade(&mut self, market: &IndexedDeals<'_>, order: usize) -> Option<Flaw>
        requires market { IsIndexedDeals market.now }
        requires order { order < length market.now.orders.now }
        requires ready { IsReadyFor market.now order self.old }
        ensures found { IfSome result (IsFlawAt market.now order) }
        ensures after_deals { result ≡ None → IsAfterDeals market.now order self.new }
    {
        if let Some(flaw) = self.numbers.deal_order(market, order) {
            return Some(flaw);
        }
        pass_deals(market, order, &self.numbers, &mut self.books_so_far.books)
    }

    /// The record of the order at `order`: its first flaw, if it has one, and else what is known
    /// before the next order.
    fn audit_record(
        &mut self,
        market: &IndexedDeals<'_>,
        order: usize,
    ) -> Result<Option<Flaw>, NoMemory>
        requires market { IsIndexedDeals market.now }
        requires order { order < length market.now.orders.now }
        requires ready { IsReadyFor market.now order self.old }
        ensures found { IfOk result (λ flaw. IfSome flaw (IsFlawAt market.now order)) }
        ensures ready { result ≡ Ok None → IsReadyNext market.now (suc order) self.new }
    {
        if let Some(flaw) = self.trade(market, order) {
            return Ok(Some(flaw));
        }
        let (orders, endings) = (market.orders, market.endings);
        let books_so_far = &mut self.books_so_far;
        books_so_far.drop_own(orders, endings, order);
        let left = self.numbers.order_numbers.left[order];
        if let Some(other) = spread_of(orders, order, left, &books_so_far.books) {
            return Ok(Some(spread_flaw(orders, &self.numbers, order, other)));
        }
        enter_own(orders, order, left, &mut books_so_far.books)?;
        books_so_far.drop_before_next(orders, endings, order);
        Ok(None)
    }

    /// Looks at the records of the orders, up to the first that has a flaw: the one flaw that
    /// is made a finding.
    pub fn first_offence(&mut self, market: &IndexedDeals<'_>) -> Result<Option<Finding>, NoMemory>
        requires market { IsIndexedDeals market.now }
        requires ready { IsReadyNext market.now 0 self.old }
        ensures found { IfOk result (λ finding. IfSome finding
            (IsContinuousOffence market.now.orders.now market.now.deals.now)) }
        ensures done { result ≡ Ok None
            → IsReadyNext market.now (length market.now.orders.now) self.new }
    {
        for order in 0..market.orders.len() {
            // Taken apart, since a proof does not carry a whole flaw across the call.
            if let Some(Flaw { place, evidence }) = self.audit_record(market, order)? {
                return Ok(Some(market.orders.finding(Flaw { place, evidence })));
            }
        }
        Ok(None)
    }
}
