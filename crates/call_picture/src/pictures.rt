//! The picture of a call: both sides, the volume and the price.
ghost use Rattle.std.specs.Prelude.{◌≡◌, ◌<◌, ◌^◌, All, IfOk, List, length};
ghost use Rattle.audit_base.specs.declared.orders.Deal.{Deal as DealSpec};
ghost use Rattle.audit_base.specs.declared.terms.Side.{Side as SideSpec};
ghost use Rattle.audit_base.specs.Deals.{AreTotals, IsDealList};
ghost use Rattle.audit_base.specs.Orders.{IsOrderList, OrdersInRange};
ghost use Rattle.audit_base.specs.Priority.{IsRanked};
ghost use Rattle.call_picture.specs.Merging.{AreTotalsSmall};
ghost use Rattle.call_picture.specs.Pictures.{IsCallPicture, IsPictureInRange, IsSidePicture};

use super::steps::steps_of;
use super::windows::{DrawnSteps, MOST_STEPS, drawn_of};
use audit_base::faults::NoMemory;
use audit_base::orders::Deal;
use audit_base::ranges::deals_in_range;
use call_offences::totals::totals_of;
use matching_core::totals::volume_of;
use order_list::lists::OrderList;
use rank_order::ranking::ranked_sides;
use std::alloc::Global;

/// One side of the picture of a call.
#[derive(Debug, Drop)]
pub struct SidePicture {
    /// Whether a step is all orders of one limit; else it is one order.
    pub by_limit: bool,
    pub drawn: DrawnSteps,
}

/// The picture of a call.
#[derive(Debug, Drop)]
pub struct CallPicture {
    pub bids: SidePicture,
    pub asks: SidePicture,
    /// What was traded.
    pub volume: u128,
}

/// A side of the picture: its orders as steps, or its limits where it has more than 400 orders.
fn side_picture(
    alloc: Global,
    orders: &OrderList<'_>,
    traded: &[u128],
    ranks: &[usize],
    volume: u128,
) -> Result<SidePicture, NoMemory>
    requires in_range { OrdersInRange orders.now }
    requires count { length traded.now ≡ length orders.now }
    requires small { AreTotalsSmall traded.now }
    requires inside { All (λ order. order < length orders.now) ranks.now }
    requires fits { length ranks.now < 2 ^ 32 }
    ensures { (deals : List DealSpec) → (side : SideSpec) → AreTotals orders.now deals traded.now
        → IsRanked orders.now side ranks.now
        → IfOk result (IsSidePicture orders.now deals side volume) }
{
    let by_limit = MOST_STEPS < ranks.len();
    let steps = steps_of(alloc, orders, traded, ranks, by_limit)?;
    let drawn = drawn_of(alloc, &steps, volume)?;
    Ok(SidePicture { by_limit, drawn })
}

/// The picture of a call: on each side the orders that no record cancels, in rank order, and what
/// they traded in these deals, whatever is wrong with those. Err only out of memory.
pub fn call_picture(
    alloc: Global,
    orders: &OrderList<'_>,
    deals: &[Deal],
) -> Result<CallPicture, NoMemory>
    requires order_list { IsOrderList orders.now }
    requires deal_list { IsDealList orders.now deals.now }
    ensures picture { IfOk result (IsCallPicture orders.now deals.now) }
    ensures in_range { IfOk result IsPictureInRange }
{
    orders.numbers_are_in_range();
    deals_in_range(deals);
    let traded = totals_of(alloc, orders, deals)?;
    let ranks = ranked_sides(alloc, orders)?;
    let volume = volume_of(deals);
    Ok(CallPicture {
        bids: side_picture(alloc, orders, &traded, &ranks.bids, volume)?,
        asks: side_picture(alloc, orders, &traded, &ranks.asks, volume)?,
        volume,
    })
}
