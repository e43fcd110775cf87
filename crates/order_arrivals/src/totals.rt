//! What each order has traded in the deals of the first orders.
ghost use Rattle.std.specs.Prelude.{◌≡◌, ◌<◌, suc, IfOk, length, replicate};
ghost use Rattle.order_arrivals.specs.DealtOrders.{HaveTraded, IsMarket};

use crate::dealt_orders::DealtOrders;
use audit_base::faults::NoMemory;
use matching_core::checking::add_deal;
use matching_core::totals::zeros;
use std::alloc::Global;

/// What each order has traded in the first of the incoming deals.
#[derive(Drop)]
pub struct TradedSoFar {
    pub traded: Vec<u128>,
    /// How many of the incoming deals are added.
    pub added: usize,
}

impl TradedSoFar {
    /// Nothing traded by any of this many orders.
    pub fn new(alloc: Global, count: usize) -> Result<TradedSoFar, NoMemory>
        ensures traded { IfOk result (λ t. t.traded.items ≡ replicate count 0) }
        ensures added { IfOk result (λ t. t.added ≡ 0) }
    {
        let traded = zeros(alloc, count)?;
        Ok(TradedSoFar { traded, added: 0 })
    }

    /// Adds the deals of the order at `order`, where those of the orders before it are added.
    pub fn add_deals_of(&mut self, market: &DealtOrders<'_>, order: usize)
        requires market { IsMarket market.now }
        requires order { order < length market.now.orders.now }
        requires before { HaveTraded market.now order self.old.added self.old.traded.items }
        ensures { HaveTraded market.now (suc order) self.new.added self.new.traded.items }
    {
        let (deals, incoming_deals) = (market.deals, market.incoming_deals);
        while self.added < incoming_deals.len() {
            let incoming = incoming_deals[self.added];
            if incoming.order as usize != order {
                return;
            }
            let deal = &deals[incoming.deal as usize];
            let quantity = deal.quantity.value() as u128;
            add_deal(&mut self.traded, deal.bid, deal.ask, quantity);
            self.added += 1;
        }
    }
}
