//! What the orders have traded and have left after the deals of the records so far.
ghost use Rattle.std.specs.Prelude.{◌≡◌, ◌<◌, ◌-◌, None, IfOk, length, slice_set, vec_len};
ghost use Rattle.continuous_audit.specs.Flaws.{HasShownNumber, IsFindingOfFlaw, shown_number, order_with_shown};
ghost use Rattle.continuous_audit.specs.IndexedDeals.{ConformsBefore, IsIndexedDeals};
ghost use Rattle.continuous_audit.specs.Progress.{AreNumbersAtStart, AreNumbersFor, HasDealt};
ghost use Rattle.continuous_audit.specs.Records.{conservation_at};

use super::arrival::arrive_order;
use super::indexed_deals::IndexedDeals;
use super::leaving::{left_at, refresh_left, set_amount};
use super::order_numbers::OrderNumbers;
use super::scanning::{RunningTotals, check_deals};
use audit_base::faults::NoMemory;
use audit_base::flaws::{Flaw, TradedOrder};
use std::alloc::Global;

/// What is known of the orders, and at which of the incoming deals those of the last one begin.
#[derive(Drop)]
pub struct DealingState {
    pub order_numbers: OrderNumbers,
    pub running: RunningTotals,
    pub start: usize,
}

impl DealingState {
    /// The numbers before the first of this many orders.
    pub fn new(alloc: Global, count: usize) -> Result<DealingState, NoMemory>
        ensures { IfOk result (AreNumbersAtStart count) }
    {
        let order_numbers = OrderNumbers::new(alloc, count)?;
        let traded = vec![in alloc; 0u64; count]?;
        let running = RunningTotals { traded, added: 0 };
        Ok(DealingState {
            order_numbers,
            running,
            start: 0,
        })
    }

    /// An order as a flaw shows it: with what it has traded, and its Before added.
    pub fn shown(&self, order: usize) -> TradedOrder
        requires { HasShownNumber self.now order }
        ensures { result ≡ order_with_shown (shown_number self.now) order }
    {
        TradedOrder {
            index: order,
            traded: self.running.traded[order] as u128 + self.order_numbers.chain_traded[order],
        }
    }

    /// Adds what the deals of the order at `order` trade and leave, up to the
    /// first that has a flaw.
    pub fn deal_order(&mut self, market: &IndexedDeals<'_>, order: usize) -> Option<Flaw>
        requires market { IsIndexedDeals market.now }
        requires order { order < length market.now.orders.now }
        requires conforms { ConformsBefore market.now order }
        requires known { AreNumbersFor market.now order self.old }
        ensures found { IsFindingOfFlaw market.now.orders.now result
            (conservation_at market.now.orders.now market.now.deals.now order) }
        ensures dealt { result ≡ None → HasDealt market.now order self.new }
    {
        let arrival = arrive_order(
            market.orders,
            &self.running.traded,
            &self.order_numbers,
            order,
        );
        self.order_numbers.note(order, &arrival);
        self.start = self.running.added;
        let entered = arrival.entered;
        if let Some(flaw) = check_deals(
            market,
            &self.order_numbers,
            order,
            entered,
            &mut self.running,
        ) {
            return Some(flaw);
        }
        let order_numbers = &mut self.order_numbers;
        refresh_left(
            market,
            self.start,
            &self.running,
            &order_numbers.sizes,
            &mut order_numbers.left,
        );
        let left = left_at(&order_numbers.sizes, &self.running.traded, order);
        set_amount(&mut order_numbers.left, order, left);
        None
    }
}
