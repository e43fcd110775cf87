//! The columns of the picture: at most 1,000, of equally many places each, the last of what is left.
ghost use Rattle.std.specs.Prelude.{◌≡◌, ◌<◌, ◌^◌, IfOk, OnOk};
ghost use Rattle.audit_base.specs.Orders.{place_at};
ghost use Rattle.continuous_picture.specs.Columns.{AreColumns, IsColumn, next_edge};
ghost use Rattle.continuous_picture.specs.Rows.{HasColumnBehind};
ghost use Rattle.continuous_picture.specs.Sizes.{AreSizesOf};
ghost use Rattle.continuous_picture.specs.Walks.{IsWalk};
ghost use Rattle.order_arrivals.specs.DealtOrders.{IsMarket};

use crate::prices::prices_of;
use crate::ranges::{LimitRange, with_limit};
use crate::walks::Walk;
use audit_base::faults::NoMemory;
use order_arrivals::dealt_orders::DealtOrders;
use std::alloc::Global;

/// The greatest number of columns.
pub const MOST_COLUMNS: u64 = 1000;

/// The places from one to before another, with the least and the greatest best limit of each side
/// there, and the least and the greatest price of the trades whose cause is there.
#[derive(Clone, Copy, Debug, PartialEq, Eq)]
pub struct PlaceColumn {
    pub first: u64,
    pub next: u64,
    pub bids: Option<LimitRange>,
    pub asks: Option<LimitRange>,
    pub trades: Option<LimitRange>,
}

/// Adds the column of these places, at the first of which the walk is, behind the others.
fn add_column(
    market: &DealtOrders<'_>,
    sizes: &[u64],
    walk: &mut Walk,
    columns: &mut Vec<PlaceColumn>,
    first: u64,
    next: u64,
) -> Result<(), NoMemory>
    requires market { IsMarket market.now }
    requires sizes { AreSizesOf market.now.orders.now market.now.deals.now sizes.now }
    requires some { first < next }
    requires fits { next < 2 ^ 33 }
    requires walk { IsWalk market.now first first walk.old }
    ensures columns { OnOk result (HasColumnBehind market.now.orders.now market.now.deals.now
        first next columns.old.items columns.new.items) }
    ensures walk { OnOk result (IsWalk market.now next next walk.new) }
{
    let before = walk.added();
    let (mut bids, mut asks) = (None, None);
    for place in first..next {
        let quote = walk.next_quote(market, sizes, place)?;
        bids = with_limit(bids, quote.bid);
        asks = with_limit(asks, quote.ask);
    }
    let after = walk.added();
    let trades = prices_of(market, before, after);
    columns.push(PlaceColumn {
        first,
        next,
        bids,
        asks,
        trades,
    })?;
    Ok(())
}

/// Where the column from a place ends.
fn next_edge(first: u64, end: u64, width: u64) -> u64
    requires some { first < end }
    ensures { result ≡ next_edge first end width }
{
    if width < end - first {
        first + width
    } else {
        end
    }
}

/// The place of the first order, or 0 where there is none.
fn first_place(market: &DealtOrders<'_>) -> u64
    ensures { result ≡ place_at market.now.orders.now 0 }
{
    match market.orders.get(0) {
        Some(order) => u64::from(order.place()),
        None => 0,
    }
}

/// The columns from the place of the first order to before another. Err only out of memory.
pub fn columns_of(
    alloc: Global,
    market: &DealtOrders<'_>,
    sizes: &[u64],
    end: u64,
) -> Result<Vec<PlaceColumn>, NoMemory>
    requires market { IsMarket market.now }
    requires sizes { AreSizesOf market.now.orders.now market.now.deals.now sizes.now }
    requires fits { end < 2 ^ 33 }
    ensures { IfOk result (λ columns.
        AreColumns market.now.orders.now market.now.deals.now end columns.items) }
{
    let from = first_place(market);
    let width = end.saturating_sub(from).div_ceil(MOST_COLUMNS);
    let mut walk = Walk::new(alloc, market)?;
    let mut columns = Vec::new(alloc);
    let mut first = from;
    while first < end {
        let next = next_edge(first, end, width);
        add_column(market, sizes, &mut walk, &mut columns, first, next)?;
        first = next;
    }
    Ok(columns)
}
