//! Both sides by limit: demand and supply at any price, and cuts and executable
//! volumes at rising prices.
ghost use Rattle.std.specs.Prelude.{◌≡◌, ◌<◌, ◌^◌, List, IfOk, OnOk, length};
ghost use Rattle.audit_base.specs.Bounds.{demand, supply, supply_below};
ghost use Rattle.audit_base.specs.Orders.{OrdersInRange};
ghost use Rattle.audit_base.specs.declared.orders.Order.{Order};
ghost use Rattle.volume_bound.specs.Counting.{AreCountedSides};
ghost use Rattle.volume_bound.specs.Sides.{ForOrdersOf, HaveSumsOf, cut_of, executable_of};

use super::active_orders::ActiveOrders;
use super::adding::{AddedLimits, Edge};
use super::limits::{LimitQuantity, SortedLimits};
use audit_base::faults::NoMemory;
use audit_base::orders::Cut;
use order_list::lists::OrderList;
use std::alloc::Global;
use std::marker::Model;

/// The bids and the asks that no record cancels, each side by rising limit. Contracts see the
/// limits and the quantities of both sides.
#[derive(Debug, Drop)]
pub struct Sums {
    bids: SortedLimits,
    asks: SortedLimits,
}

impl Model for Sums {
    ghost use Rattle.volume_bound.specs.Sides.{SideLimits};

    ghost Value = { SideLimits };

    ghost view = { λ s. record { bids = s.bids; asks = s.asks } };
}

/// A price with the volume that is counted there, and what is added of each side, from which the
/// next price is counted.
#[derive(Clone, Copy, Debug)]
pub struct CountedSides {
    pub cut: Cut,
    pub bids: AddedLimits,
    pub asks: AddedLimits,
}

impl CountedSides {
    /// Before the first price: nothing is added.
    pub const NONE: CountedSides = CountedSides {
        cut: Cut {
            price: 0,
            volume: 0,
        },
        bids: AddedLimits::NONE,
        asks: AddedLimits::NONE,
    };
}

impl Sums {
    /// The sides of these orders: each is sorted once, in n log n steps for n orders. Err
    /// only out of memory.
    pub fn build(alloc: Global, orders: &OrderList<'_>) -> Result<Sums, NoMemory>
        requires fits_indices { length orders.now < 2 ^ 32 }
        ensures stands { IfOk result (λ sums. HaveSumsOf orders.now sums) }
        ensures numbers { OnOk result (OrdersInRange orders.now) }
    {
        let ActiveOrders { bids, asks } = ActiveOrders::of(alloc, orders)?;
        Ok(Sums {
            bids: SortedLimits::of(bids),
            asks: SortedLimits::of(asks),
        })
    }

    /// The quantity of the bids with limit at least the price, in one pass over the bids below it.
    pub fn demand_at(&self, price: u64) -> u128
        ensures { ForOrdersOf self.now (λ orders. result ≡ demand orders price) }
    {
        self.bids.quantity_from(price)
    }

    /// The quantity of the asks with limit at most the price, in one pass over these.
    pub fn supply_upto(&self, price: u64) -> u128
        ensures { ForOrdersOf self.now (λ orders. result ≡ supply orders price) }
    {
        self.asks.quantity_upto(price)
    }

    /// The quantity of the asks with limit below the price, in one pass over these.
    pub fn supply_below(&self, price: u64) -> u128
        ensures { ForOrdersOf self.now (λ orders. result ≡ supply_below orders price) }
    {
        self.asks.quantity_below(price)
    }

    /// The cut at the price. Along rising prices each limit is added once.
    pub(crate) fn cut_after(&self, last: CountedSides, price: u64) -> CountedSides
        requires { AreCountedSides self.now last }
        ensures same { result.cut ≡ record { price = price; volume = cut_of self.now price } }
        ensures counted { AreCountedSides self.now result }
    {
        let bids = self.bids.add(Edge::Below(price), last.bids);
        let asks = self.asks.add(Edge::Below(price), last.asks);
        let volume = self.bids.rest_of(price, bids) + asks.sum;
        CountedSides {
            cut: Cut { price, volume },
            bids,
            asks,
        }
    }

    /// The executable volume at the price: the smaller of demand and supply. Along rising prices
    /// each limit is added once.
    pub(crate) fn executable_after(&self, last: CountedSides, price: u64) -> CountedSides
        requires { AreCountedSides self.now last }
        ensures same { result.cut
            ≡ record { price = price; volume = executable_of self.now price } }
        ensures counted { AreCountedSides self.now result }
    {
        let bids = self.bids.add(Edge::Below(price), last.bids);
        let asks = self.asks.add(Edge::Upto(price), last.asks);
        let demand = self.bids.rest_of(price, bids);
        CountedSides {
            cut: Cut {
                price,
                volume: demand.min(asks.sum),
            },
            bids,
            asks,
        }
    }

    /// The bids by rising limit.
    pub(crate) fn bids(&self) -> &[LimitQuantity]
        ensures { result.now ≡ self.now.bids }
    {
        self.bids.as_slice()
    }

    /// The asks by rising limit.
    pub(crate) fn asks(&self) -> &[LimitQuantity]
        ensures { result.now ≡ self.now.asks }
    {
        self.asks.as_slice()
    }
}
