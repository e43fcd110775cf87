//! A numbering of the orders in which those that come from one by replacements are one range.
//!
//! The order at index k is node k + 1 of a tree, and its parent is the node of its target; node 0
//! is the parent of the orders that replace none. The family of a node is the node and all below
//! it. It begins with the node, and the families of the node's children follow each other.
ghost use Rattle.std.specs.Prelude.{◌≡◌, ◌<◌, ◌≤◌, ◌+◌, ◌^◌, IfOk, length};
ghost use Rattle.audit_base.specs.Deals.{number_at};
ghost use Rattle.audit_base.specs.Orders.{IsOrderList};
ghost use Rattle.order_arrivals.specs.Families.{AreFamilies, AreFamilySizes, AreFamilyStarts, parent_of};

use audit_base::faults::NoMemory;
use order_list::lists::OrderList;
use std::alloc::Global;

/// The own number of each node, with which its family begins, and how many nodes the family has.
#[derive(Drop)]
pub(crate) struct Families {
    starts: Vec<usize>,
    sizes: Vec<usize>,
}

/// The parent of the node of an order.
fn parent_of(orders: &OrderList<'_>, order: usize) -> usize
    requires list { IsOrderList orders.now }
    requires order { order < length orders.now }
    ensures same { result ≡ parent_of orders.now order }
    ensures upto { result ≤ order }
{
    match orders.at(order).target() {
        Some(target) => target + 1,
        None => 0,
    }
}

/// How many nodes each family has.
fn family_sizes(alloc: Global, orders: &OrderList<'_>) -> Result<Vec<usize>, NoMemory>
    requires { IsOrderList orders.now }
    ensures { IfOk result (λ sizes. AreFamilySizes orders.now sizes.items) }
{
    let mut sizes = vec![in alloc; 1usize; orders.len() + 1]?;
    let mut order = orders.len();
    while order > 0 {
        let size = sizes[order];
        order -= 1;
        let parent = parent_of(orders, order);
        sizes[parent] += size;
    }
    Ok(sizes)
}

/// The own number of each node, by the sizes of the families.
fn family_starts(
    alloc: Global,
    orders: &OrderList<'_>,
    sizes: &[usize],
) -> Result<Vec<usize>, NoMemory>
    requires list { IsOrderList orders.now }
    requires sizes { AreFamilySizes orders.now sizes.now }
    ensures { IfOk result
        (λ starts. AreFamilyStarts orders.now sizes.now (length orders.now) starts.items) }
{
    let mut starts = vec![in alloc; 0usize; orders.len() + 1]?;
    // The first number of each family that no node has yet.
    let mut free = vec![in alloc; 1usize; orders.len() + 1]?;
    for order in 0..orders.len() {
        let parent = parent_of(orders, order);
        let start = free[parent];
        starts[order + 1] = start;
        free[parent] = start + sizes[order + 1];
        free[order + 1] = start + 1;
    }
    Ok(starts)
}

impl Families {
    /// The families of the orders of a list. In two passes over the orders.
    pub(crate) fn of(alloc: Global, orders: &OrderList<'_>) -> Result<Families, NoMemory>
        requires { IsOrderList orders.now }
        ensures { IfOk result (AreFamilies orders.now) }
    {
        let sizes = family_sizes(alloc, orders)?;
        let starts = family_starts(alloc, orders, &sizes)?;
        Ok(Families { starts, sizes })
    }

    /// The own number of an order.
    pub(crate) fn start(&self, order: usize) -> usize
        requires { order + 1 < length self.now.starts.items }
        ensures { result ≡ number_at self.now.starts.items (order + 1) }
    {
        self.starts[order + 1]
    }

    /// The number behind those of the family of an order.
    pub(crate) fn end(&self, order: usize) -> usize
        requires starts { order + 1 < length self.now.starts.items }
        requires sizes { order + 1 < length self.now.sizes.items }
        requires fits { number_at self.now.starts.items (order + 1)
            + number_at self.now.sizes.items (order + 1) < 2 ^ 64 }
        ensures { result ≡ number_at self.now.starts.items (order + 1)
            + number_at self.now.sizes.items (order + 1) }
    {
        self.starts[order + 1] + self.sizes[order + 1]
    }
}
