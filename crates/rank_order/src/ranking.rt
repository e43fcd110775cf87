//! The orders of a side from the best to the worst.
ghost use Rattle.std.specs.Prelude.{◌≡◌, ◌++◌, IfOk, OnOk, length, map};
ghost use Rattle.audit_base.specs.Numbers.{IsPrice};
ghost use Rattle.audit_base.specs.Orders.{IsOrderList};
ghost use Rattle.audit_base.specs.Priority.{IsRanked};
ghost use Rattle.audit_base.specs.declared.terms.Side.TheVariants.{Buy, Sell};
ghost use Rattle.rank_order.specs.Ranks.{AreRanks, rank_if, index_of};
ghost use Rattle.rank_order.specs.Sides.{AreRanked};

use super::ranks::Rank;
use audit_base::faults::NoMemory;
use audit_base::terms::Side;
use order_list::listed::ListedOrder;
use order_list::lists::OrderList;
use std::alloc::Global;

/// Adds the rank of an order, if it is of the side and no record cancels it.
fn add_rank(
    ranks: &mut Vec<Rank>,
    side: Side,
    index: usize,
    order: &ListedOrder<'_>,
) -> Result<(), NoMemory>
    ensures ranks { let more = rank_if side index order.now in
        OnOk result (ranks.new.items ≡ ranks.old.items ++ more) }
    ensures priced { IsPrice order.now.limit }
{
    let rank = Rank::of(order.side(), index, order.limit());
    if order.is_uncancelled_on(side) {
        ranks.push(rank)?;
    }
    Ok(())
}

/// The ranks of the orders of a side that no record cancels, by rising index.
fn ranks_of(alloc: Global, orders: &OrderList<'_>, side: Side) -> Result<Vec<Rank>, NoMemory>
    ensures { IfOk result (λ ranks. AreRanks orders.now side (length orders.now) ranks.items) }
{
    let mut ranks = Vec::with_capacity(alloc, orders.len())?;
    for index in 0..orders.len() {
        add_rank(&mut ranks, side, index, &orders.at(index))?;
    }
    Ok(ranks)
}

/// The indices of the orders of these ranks.
fn indices_of(alloc: Global, ranks: &[Rank]) -> Result<Vec<usize>, NoMemory>
    ensures { IfOk result (λ indices. indices.items ≡ map index_of ranks.now) }
{
    let mut indices = Vec::with_capacity(alloc, ranks.len())?;
    for rank in ranks {
        indices.push(rank.index)?;
    }
    Ok(indices)
}

/// The orders of a side that no record cancels, by their indices, each once, the best first: by the
/// better limit, and among equal limits by the smaller place (price-time priority). In n log n
/// steps for n orders. Err only out of memory.
pub fn ranked(alloc: Global, orders: &OrderList<'_>, side: Side) -> Result<Vec<usize>, NoMemory>
    requires { IsOrderList orders.now }
    ensures { IfOk result (λ ranks. IsRanked orders.now side ranks.items) }
{
    let mut ranks = ranks_of(alloc, orders, side)?;
    ranks.sort_unstable();
    indices_of(alloc, &ranks)
}

/// The ranks of the orders that no record cancels, each side by rising index.
#[derive(Drop)]
struct BothRanks {
    bids: Vec<Rank>,
    asks: Vec<Rank>,
}

/// The ranks of both sides, in one pass over the orders.
fn ranks_of_both(alloc: Global, orders: &OrderList<'_>) -> Result<BothRanks, NoMemory>
    ensures bids { IfOk result (λ both.
        AreRanks orders.now Buy (length orders.now) both.bids.items) }
    ensures asks { IfOk result (λ both.
        AreRanks orders.now Sell (length orders.now) both.asks.items) }
{
    let mut bids = Vec::with_capacity(alloc, orders.len())?;
    let mut asks = Vec::with_capacity(alloc, orders.len())?;
    for index in 0..orders.len() {
        let order = orders.at(index);
        add_rank(&mut bids, Side::Buy, index, &order)?;
        add_rank(&mut asks, Side::Sell, index, &order)?;
    }
    Ok(BothRanks { bids, asks })
}

/// The orders that no record cancels, by their indices, each side from the best to the worst.
#[derive(Debug, Drop)]
pub struct RankedSides {
    pub bids: Vec<usize>,
    pub asks: Vec<usize>,
}

/// Both sides of an order list, each ranked by price-time priority. Err only out of memory.
pub fn ranked_sides(alloc: Global, orders: &OrderList<'_>) -> Result<RankedSides, NoMemory>
    requires { IsOrderList orders.now }
    ensures { IfOk result (AreRanked orders.now) }
{
    let BothRanks { mut bids, mut asks } = ranks_of_both(alloc, orders)?;
    bids.sort_unstable();
    asks.sort_unstable();
    Ok(RankedSides {
        bids: indices_of(alloc, &bids)?,
        asks: indices_of(alloc, &asks)?,
    })
}
