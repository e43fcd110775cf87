//! The Expected trades of continuous trading.
//!
//! One pass with the audit's two order books. Each deal takes an order out of a book or uses up the
//! incoming one, so there are never more deals than orders.
ghost use Rattle.std.specs.Prelude.{◌≡◌, ◌<◌, ◌≤◌, suc, IfOk, OnOk, length};
ghost use Rattle.audit_base.specs.Orders.{IsOrderList};
ghost use Rattle.audit_base.specs.Deals.{DealsInRange, IsDealList};
ghost use Rattle.audit_base.specs.Histories.{Regular};
ghost use Rattle.audit_base.specs.ContinuousRules.{ConformsContinuous};
ghost use Rattle.audit_base.specs.Expected.{IsExpectedContinuous};
ghost use Rattle.continuous_audit.specs.Books.{next_order_place};
ghost use Rattle.continuous_audit.specs.Endings.{AreEndingsDropped, AreEndings};
ghost use Rattle.continuous_audit.specs.Matching.{AreTradesAtStart, AreTradesSoFar, MatchedBefore};

use super::books::BooksSoFar;
use super::endings::{OrderEnd, sort_endings};
use super::expected_trades::{TradesSoFar, expect_record};
use super::order_numbers::OrderNumbers;
use super::pairs::{number_pairs, sort_pairs};
use audit_base::faults::NoMemory;
use audit_base::orders::Deal;
use order_list::lists::OrderList;
use std::alloc::Global;

/// Nothing has traded before the first of this many orders.
fn no_trades(alloc: Global, count: usize) -> Result<TradesSoFar, NoMemory>
    ensures { IfOk result (AreTradesAtStart count) }
{
    let traded = vec![in alloc; 0u64; count]?;
    let order_numbers = OrderNumbers::new(alloc, count)?;
    Ok(TradesSoFar {
        traded,
        order_numbers,
        books_so_far: BooksSoFar::new(alloc),
        fills: Vec::new(alloc),
        pairs: Vec::new(alloc),
    })
}

/// Goes over the records of the orders.
fn expect_records(
    orders: &OrderList<'_>,
    endings: &[OrderEnd],
    so_far: &mut TradesSoFar,
) -> Result<(), NoMemory>
    requires order_list { IsOrderList orders.now }
    requires regular { Regular orders.now }
    requires endings { AreEndings orders.now endings.now }
    requires dropped { AreEndingsDropped endings.now so_far.old.books_so_far.start
        (next_order_place orders.now 0) }
    requires counted { AreTradesSoFar orders.now 0 0 so_far.old }
    requires matched { MatchedBefore orders.now 0 (next_order_place orders.now 0) so_far.old }
    ensures counted { OnOk result (AreTradesSoFar orders.now (length orders.now) 0 so_far.new) }
    ensures matched { OnOk result (MatchedBefore orders.now (length orders.now)
        (next_order_place orders.now (length orders.now)) so_far.new) }
{
    for order in 0..orders.len() {
        expect_record(orders, endings, order, so_far)?;
    }
    Ok(())
}

/// The Expected trades of continuous trading over a regular order list, as deals with the places 1,
/// 2 and so on: at its own record each order trades with the best orders that rest on the other
/// side, as long as their limits meet, at their limits. One deal for each bid and ask that trade,
/// in order of the bid's place, then of the ask's. They conform to the rule. In n log n steps for n
/// orders. Err only out of memory.
pub fn continuous_matching(alloc: Global, orders: &OrderList<'_>) -> Result<Vec<Deal>, NoMemory>
    requires order_list { IsOrderList orders.now }
    requires regular { Regular orders.now }
    ensures expected { IfOk result (λ deals. IsExpectedContinuous orders.now deals.items) }
    ensures conforms { IfOk result (λ deals. ConformsContinuous orders.now deals.items) }
    ensures deal_list { IfOk result (λ deals. IsDealList orders.now deals.items) }
    ensures ranges { IfOk result (λ deals. DealsInRange deals.items) }
{
    let endings = sort_endings(alloc, orders)?;
    let mut so_far = no_trades(alloc, orders.len())?;
    expect_records(orders, &endings, &mut so_far)?;
    sort_pairs(&mut so_far.pairs)?;
    number_pairs(alloc, orders, &so_far.pairs)
}
