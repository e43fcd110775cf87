//! Orders of an order list, with other terms, in a list of their own, as the orders of a phase are.
ghost use Rattle.std.specs.Prelude.{◌≡◌, ◌<◌, [], IfOk, IfSome, OnOk, length};
ghost use Rattle.audit_base.specs.Orders.{order_at};
ghost use Rattle.order_list.specs.Changed.{with_changed_order, with_terms};

use super::keys::Keys;
use super::lists::OrderList;
use super::stored::{ChangedTerms, StoredOrder};
use audit_base::faults::NoMemory;
use std::alloc::Global;
use std::marker::Model;

/// Orders of an order list with other terms. Contracts see that list and these orders.
#[derive(Drop)]
pub struct ChangedOrders<'a> {
    source: &'a [StoredOrder],
    keys: &'a Keys,
    orders: Vec<StoredOrder>,
}

impl<'a> Model for ChangedOrders<'a> {
    ghost use Rattle.order_list.specs.Changed.{ChangedList};

    ghost Value = { ChangedList };

    ghost use Rattle.order_list.specs.Stored.{orders_of};

    ghost view = { λ c. record {
      source = orders_of c.keys.now c.source.now;
      orders = orders_of c.keys.now c.orders.items;
    } };
}

impl<'a> ChangedOrders<'a> {
    /// No orders so far, with room for this many.
    pub fn new(
        alloc: Global,
        source: &OrderList<'a>,
        count: usize,
    ) -> Result<ChangedOrders<'a>, NoMemory>
        ensures { IfOk result (λ changed. changed ≡ record { source = source.now; orders = [] }) }
    {
        Ok(ChangedOrders {
            source: source.stored,
            keys: source.keys,
            orders: Vec::with_capacity(alloc, count)?,
        })
    }

    /// Adds the order at an index of the list, with these terms.
    pub fn push(&mut self, index: usize, terms: ChangedTerms) -> Result<(), NoMemory>
        requires inside { index < length self.old.source }
        requires small { IfSome terms.target (λ t. t < 4294967295) }
        ensures { let o = with_terms terms.quantity terms.cancelled terms.target
            (order_at self.old.source index) in
            OnOk result (self.new ≡ with_changed_order o self.old) }
    {
        let source = self.source;
        self.orders.push(source[index].with_terms(terms))?;
        Ok(())
    }

    /// The list of these orders.
    pub fn list(&self) -> OrderList<'_>
        ensures { result ≡ self.now.orders }
    {
        OrderList::of(&self.orders, self.keys)
    }
}
