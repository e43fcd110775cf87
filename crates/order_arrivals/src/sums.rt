//! An amount for each order, and the sum of the amounts along the chain of an order.
//!
//! An order is in the chain of another exactly where its family has that one's number. So the sum
//! along a chain is that of the families which start before this number, less that of those which
//! end before it.
ghost use Rattle.std.specs.Prelude.{◌≡◌, ◌<◌, ◌≤◌, ◌+◌, ◌^◌, IfOk, List, length, sum_by};
ghost use Rattle.audit_base.specs.declared.orders.Order.{Order};
ghost use Rattle.audit_base.specs.Continuous.{chain};
ghost use Rattle.audit_base.specs.Deals.{number_at};
ghost use Rattle.audit_base.specs.Orders.{IsOrderList};
ghost use Rattle.order_arrivals.specs.Sums.{AreNoAmounts, IsAmountAdded, amount_total};
ghost use Rattle.order_arrivals.specs.Families.{AreFamilies};

use super::families::Families;
use super::prefix_sums::PrefixSums;
use audit_base::faults::NoMemory;
use matching_core::totals::zeros;
use order_list::lists::OrderList;
use std::alloc::Global;
use std::marker::Model;

/// An amount for each order, and what a sum along a chain takes. Contracts see the amounts, and
/// the families of the orders.
#[derive(Drop)]
pub struct ChainSums {
    amounts: Vec<u128>,
    families: Families,
    /// The amounts by the starts of the orders' families, and by their ends.
    by_start: PrefixSums,
    by_end: PrefixSums,
}

impl Model for ChainSums {
    ghost use Rattle.order_arrivals.specs.Sums.{ChainAmounts};

    ghost Value = { ChainAmounts };

    ghost use Rattle.order_arrivals.specs.Ranges.{AreRangeSums};

    ghost view = { λ s. record { amounts = s.amounts.items; families = s.families } };

    ghost invariant = { AreRangeSums };
}

impl ChainSums {
    /// An amount of 0 for each order of a list.
    pub fn new(alloc: Global, orders: &OrderList<'_>) -> Result<ChainSums, NoMemory>
        requires { IsOrderList orders.now }
        ensures { IfOk result (AreNoAmounts orders.now) }
    {
        let count = orders.len();
        Ok(ChainSums {
            amounts: zeros(alloc, count)?,
            families: Families::of(alloc, orders)?,
            by_start: PrefixSums::new(alloc, count + 2)?,
            by_end: PrefixSums::new(alloc, count + 2)?,
        })
    }

    /// The amount of each order.
    pub fn amounts(&self) -> &[u128]
        ensures { result.now ≡ self.now.amounts }
    {
        &self.amounts
    }

    /// Adds to the amount of an order.
    pub fn add(&mut self, order: usize, amount: u128)
        requires order { order < length self.old.amounts }
        requires fits { amount_total self.old.amounts + amount < 2 ^ 128 }
        ensures { IsAmountAdded order amount self.old self.new }
    {
        self.amounts[order] += amount;
        self.by_start.add(self.families.start(order), amount);
        self.by_end.add(self.families.end(order), amount);
    }

    /// The sum of the amounts along the chain of an order: of its target, the target's target, and
    /// so on. In log n steps for n orders.
    pub fn along_chain(&self, order: usize) -> u128
        requires { order < length self.now.amounts }
        ensures chain { (orders : List Order) → IsOrderList orders
            → length orders ≡ length self.now.amounts → AreFamilies orders self.now.families
            → result ≡ sum_by (number_at self.now.amounts) (chain orders order) }
        ensures most { result ≤ amount_total self.now.amounts }
    {
        let start = self.families.start(order);
        self.by_start.sum_before(start) - self.by_end.sum_before(start + 1)
    }
}
