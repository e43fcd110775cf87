//! Which orders count: those of each side that no record cancels.
ghost use Rattle.std.specs.Prelude.{◌≡◌, ◌++◌, ◌∷◌, [], IfOk, OnOk};
ghost use Rattle.audit_base.specs.Orders.{OrdersInRange};
ghost use Rattle.audit_base.specs.declared.terms.Side.TheVariants as the_side;
ghost use Rattle.volume_bound.specs.Limits.{limits_on};

use super::limits::LimitQuantity;
use audit_base::faults::NoMemory;
use audit_base::terms::Side;
use order_list::listed::ListedOrder;
use order_list::lists::OrderList;
use std::alloc::Global;

/// The limits and the quantities of the orders that count, in the order of the list.
#[derive(Drop)]
pub(crate) struct ActiveOrders {
    pub bids: Vec<LimitQuantity>,
    pub asks: Vec<LimitQuantity>,
}

/// Adds the limit and the quantity of an order, if the order counts on the side.
fn add(limits: &mut Vec<LimitQuantity>, order: &ListedOrder<'_>, side: Side) -> Result<(), NoMemory>
    ensures limits { let more = limits_on side (order.now ∷ []) in
        OnOk result (limits.new.items ≡ limits.old.items ++ more) }
{
    let limit_quantity = LimitQuantity {
        limit: order.limit(),
        quantity: order.quantity(),
    };
    if order.is_uncancelled_on(side) {
        limits.push(limit_quantity)?;
    }
    Ok(())
}

impl ActiveOrders {
    /// Those of these orders. Memory is asked for once for each side, before the first order.
    pub fn of(alloc: Global, orders: &OrderList<'_>) -> Result<ActiveOrders, NoMemory>
        ensures bids { let bids = limits_on the_side.Buy orders.now in
            IfOk result (λ active. active.bids.items ≡ bids) }
        ensures asks { let asks = limits_on the_side.Sell orders.now in
            IfOk result (λ active. active.asks.items ≡ asks) }
        ensures numbers { OnOk result (OrdersInRange orders.now) }
    {
        orders.numbers_are_in_range();
        let mut bids = Vec::with_capacity(alloc, orders.len())?;
        let mut asks = Vec::with_capacity(alloc, orders.len())?;
        for index in 0..orders.len() {
            let order = orders.at(index);
            add(&mut bids, &order, Side::Buy)?;
            add(&mut asks, &order, Side::Sell)?;
        }
        Ok(ActiveOrders { bids, asks })
    }
}
