//! The orders that a record ends, by the place of this record.
ghost use Rattle.std.specs.Prelude.{◌≡◌, ◌<◌, ◌^◌, ◌++◌, OnOk, IfOk, length};
ghost use Rattle.continuous_audit.specs.Endings.{AreEndings, endings_of, endings_below};

use audit_base::faults::NoMemory;
use order_list::listed::ListedOrder;
use order_list::lists::OrderList;
use std::alloc::Global;

/// An order that a record ends, by its index, with the place of the record.
#[derive(Clone, Copy, Debug, PartialEq, Eq, PartialOrd, Ord)]
pub struct OrderEnd {
    pub place: u32,
    pub index: u32,
}

/// Adds an order, if a record ends it.
fn add_ending(
    endings: &mut Vec<OrderEnd>,
    index: u32,
    order: &ListedOrder<'_>,
) -> Result<(), NoMemory>
    ensures { OnOk result (endings.new.items ≡ endings.old.items ++ endings_of index order.now) }
{
    match order.cancelled() {
        Some(place) => {
            endings.push(OrderEnd { place, index })?;
            Ok(())
        }
        None => Ok(()),
    }
}

/// The orders that a record ends, in log order.
fn collect_endings(alloc: Global, orders: &OrderList<'_>) -> Result<Vec<OrderEnd>, NoMemory>
    requires fits_indices { length orders.now < 2 ^ 32 }
    ensures { IfOk result
        (λ endings. endings.items ≡ endings_below orders.now (length orders.now)) }
{
    let mut endings = Vec::with_capacity(alloc, orders.len())?;
    for index in 0..orders.len() {
        add_ending(&mut endings, index as u32, &orders.at(index))?;
    }
    Ok(endings)
}

/// The orders that a record ends, by the place of this record.
pub fn sort_endings(alloc: Global, orders: &OrderList<'_>) -> Result<Vec<OrderEnd>, NoMemory>
    requires fits_indices { length orders.now < 2 ^ 32 }
    ensures { IfOk result (λ endings. AreEndings orders.now endings.items) }
{
    let mut endings = collect_endings(alloc, orders)?;
    endings.sort_unstable();
    Ok(endings)
}
