//! The order list of a history, once no record is to come that names one of its orders.
ghost use Rattle.std.specs.Prelude.{◌≡◌};
ghost use Rattle.audit_base.specs.Histories.{Regular};
ghost use Rattle.audit_base.specs.Orders.{IsOrderList, OrdersInRange, HaveOwnKeys};

use order_list::keys::Keys;
use order_list::lists::OrderList;
use order_list::stored::StoredOrder;
use std::marker::Model;

/// The order list of a well-formed history, which finds no order by its key. Of its keys it needs
/// their names alone. Contracts see the order list.
#[derive(Drop)]
pub struct HistoryOrders {
    orders: Vec<StoredOrder>,
    keys: Keys,
}

impl Model for HistoryOrders {
    ghost use Rattle.std.specs.Prelude.{List};
    ghost use Rattle.audit_base.specs.declared.orders.Order.{Order};

    ghost Value = { List Order };

    ghost use Rattle.instruction_history.specs.History.{IsHistoryOrders};
    ghost use Rattle.order_list.specs.Stored.{orders_of};

    ghost view = { λ h. orders_of h.keys h.orders.items };

    ghost invariant = { λ h. IsHistoryOrders (orders_of h.keys h.orders.items) };
}

impl HistoryOrders {
    ghost use Rattle.instruction_history.specs.History.{IsHistoryOrders};
    ghost use Rattle.order_list.specs.Stored.{orders_of};

    /// These orders. What finds their keys is given up, where it takes much memory.
    pub(crate) fn of(orders: Vec<StoredOrder>, keys: Keys) -> HistoryOrders
        requires { IsHistoryOrders (orders_of keys orders.items) }
        ensures { result ≡ orders_of keys orders.items }
    {
        HistoryOrders {
            orders,
            keys: keys.for_numbers(),
        }
    }

    /// The order list: the new orders and the replacements, in log order. It is regular, and no two
    /// of its orders have one key. Takes no memory.
    pub fn orders(&self) -> OrderList<'_>
        ensures same { result ≡ self.now }
        ensures order_list { IsOrderList result }
        ensures regular { Regular result }
        ensures numbers { OrdersInRange result }
        ensures keys { HaveOwnKeys result }
    {
        OrderList::of(&self.orders, &self.keys)
    }
}
