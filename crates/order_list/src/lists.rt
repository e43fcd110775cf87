//! An order list, as audits read it.
ghost use Rattle.std.specs.Prelude.{◌≡◌, ◌<◌, length, slice_get};
ghost use Rattle.audit_base.specs.Orders.{order_at, OrdersInRange};
ghost use Rattle.order_list.specs.Stored.{orders_of};

use super::keys::Keys;
use super::listed::ListedOrder;
use super::stored::StoredOrder;
use std::marker::Model;

/// An order list. Contracts see the list of its orders.
#[derive(Drop)]
pub struct OrderList<'a> {
    pub(crate) stored: &'a [StoredOrder],
    pub(crate) keys: &'a Keys,
}

impl<'a> Model for OrderList<'a> {
    ghost use Rattle.std.specs.Prelude.{List};
    ghost use Rattle.audit_base.specs.declared.orders.Order.{Order};

    ghost Value = { List Order };

    ghost use Rattle.order_list.specs.Stored.{orders_of};

    ghost view = { λ l. orders_of l.keys.now l.stored.now };
}

impl<'a> OrderList<'a> {
    /// The list of these orders, whose keys are in the table.
    pub fn of(stored: &'a [StoredOrder], keys: &'a Keys) -> OrderList<'a>
        ensures same { result ≡ orders_of keys.now stored.now }
        ensures len { length result ≡ length stored.now }
    {
        OrderList { stored, keys }
    }

    /// How many orders there are.
    #[inline(always)]
    pub fn len(&self) -> usize
        ensures { result ≡ length self.now }
    {
        self.stored.len()
    }

    /// The order at an index.
    #[inline(always)]
    pub fn at(&self, index: usize) -> ListedOrder<'a>
        requires { index < length self.now }
        ensures { result ≡ order_at self.now index }
    {
        let stored = self.stored;
        ListedOrder::of(&stored[index], self.keys)
    }

    /// The order at an index, if there is one.
    #[inline(always)]
    pub fn get(&self, index: usize) -> Option<ListedOrder<'a>>
        ensures { result ≡ slice_get self.now index }
    {
        if index < self.len() {
            Some(self.at(index))
        } else {
            None
        }
    }

    /// The numbers of all orders are in their ranges. Nothing is computed here.
    pub fn numbers_are_in_range(&self)
        ensures { OrdersInRange self.now }
    {
        for index in 0..self.len() {
            self.at(index).numbers_are_in_range();
        }
    }
}
