//! One record of an order: what it trades under the rule, and what is known after it.
ghost use Rattle.std.specs.Prelude.{◌≡◌, ◌<◌, ◌≤◌, ◌+◌, ◌-◌, ◌*◌, ◌^◌, ◌∷◌, [], ℕ, suc, min, All, IfOk, OnOk, length, slice_set, vec_len};
ghost use Rattle.audit_base.specs.Orders.{IsOrderList, limit_at, other_side, place_at, side_at};
ghost use Rattle.audit_base.specs.Histories.{Regular};
ghost use Rattle.audit_base.specs.Deals.{number_at};
ghost use Rattle.continuous_audit.specs.Books.{book_list, next_order_place, books_with_list};
ghost use Rattle.continuous_audit.specs.Endings.{AreEndingsDropped, AreEndings};
ghost use Rattle.continuous_audit.specs.Fills.{fills_of, resting_after_fills, total_filled};
ghost use Rattle.continuous_audit.specs.Matching.{AreFillsApplied, AreTradesSoFar, MatchedAfter, MatchedBefore};

use super::arrival::arrive_order;
use super::books::{Books, BooksSoFar};
use super::endings::OrderEnd;
use super::fills::{Fill, take_fills};
use super::leaving::set_amount;
use super::order_numbers::OrderNumbers;
use super::pairs::{FillPair, push_pairs};
use super::spreading::enter_own;
use audit_base::faults::NoMemory;
use audit_base::terms::Side;
use order_list::listed::ListedOrder;
use order_list::lists::OrderList;

/// What the Expected trades leave so far: what is known of the orders, by their indices, the books,
/// and the pairs that have traded.
#[derive(Drop)]
pub struct TradesSoFar {
    pub traded: Vec<u64>,
    pub order_numbers: OrderNumbers,
    pub books_so_far: BooksSoFar,
    /// What the last order trades.
    pub fills: Vec<Fill>,
    pub pairs: Vec<FillPair>,
}

/// Sets what an order has traded.
fn set_total(traded: &mut Vec<u64>, order: usize, total: u64)
    requires { order < vec_len traded.old }
    ensures { traded.new.items ≡ slice_set traded.old.items order total }
{
    traded[order] = total;
}

/// Adds a fill to what its order has traded, and takes it from what is left of it.
fn apply_fill(fill: &Fill, traded: &mut Vec<u64>, left: &mut Vec<u64>)
    requires traded_inside { fill.now.index < vec_len traded.old }
    requires left_inside { fill.now.index < vec_len left.old }
    requires fits { number_at traded.old.items fill.now.index + fill.now.quantity < 2 ^ 64 }
    ensures { AreFillsApplied (fill.now ∷ []) traded.old.items left.old.items traded.new.items
        left.new.items }
{
    traded[fill.index] += fill.quantity;
    left[fill.index] = left[fill.index].saturating_sub(fill.quantity);
}

/// Adds fills to what their orders have traded, and takes them from what is left of these.
fn apply_fills(fills: &[Fill], traded: &mut Vec<u64>, left: &mut Vec<u64>)
    requires traded_inside { All (λ f. f.index < vec_len traded.old) fills.now }
    requires left_inside { All (λ f. f.index < vec_len left.old) fills.now }
    requires fits { (x : ℕ) → number_at traded.old.items x + total_filled fills.now < 2 ^ 64 }
    ensures { AreFillsApplied fills.now traded.old.items left.old.items traded.new.items
        left.new.items }
{
    for (index, fill) in fills.iter().enumerate() {
        apply_fill(fill, traded, left);
    }
}

/// Trades an order with the best orders of the other side's book. `fills` is overwritten with what
/// it trades; gives what is left of its size.
fn fill_order(
    own: &ListedOrder<'_>,
    size: u64,
    books: &mut Books,
    fills: &mut Vec<Fill>,
) -> Result<u64, NoMemory>
    ensures fills { OnOk result (fills.new.items
        ≡ fills_of own.now.side own.now.limit size
        (book_list (other_side own.now.side) books.old)) }
    ensures books { OnOk result (books.new ≡ books_with_list (other_side own.now.side)
        (resting_after_fills own.now.side own.now.limit size
        (book_list (other_side own.now.side) books.old))
        books.old) }
    ensures left { IfOk result (λ left. left + total_filled fills.new.items ≡ size) }
{
    match own.side() {
        Side::Buy => take_fills(&mut books.asks, own.side(), own.limit(), size, fills),
        Side::Sell => take_fills(&mut books.bids, own.side(), own.limit(), size, fills),
    }
}

/// Trades the order of a record with the best orders of the other side.
fn trade_order(
    orders: &OrderList<'_>,
    order: usize,
    so_far: &mut TradesSoFar,
) -> Result<(), NoMemory>
    requires order_list { IsOrderList orders.now }
    requires regular { Regular orders.now }
    requires order { order < length orders.now }
    requires counted { AreTradesSoFar orders.now order 0 so_far.old }
    requires matched { MatchedBefore orders.now order (place_at orders.now order) so_far.old }
    ensures started { OnOk result (so_far.new.books_so_far.start ≡ so_far.old.books_so_far.start) }
    ensures counted { OnOk result (AreTradesSoFar orders.now (suc order)
        (min 1 (number_at so_far.new.order_numbers.left.items order)) so_far.new) }
    ensures matched { OnOk result (MatchedAfter orders.now order so_far.new) }
{
    let arrival = arrive_order(orders, &so_far.traded, &so_far.order_numbers, order);
    so_far.order_numbers.note(order, &arrival);
    let own = orders.at(order);
    let left = fill_order(
        &own,
        arrival.size,
        &mut so_far.books_so_far.books,
        &mut so_far.fills,
    )?;
    apply_fills(
        &so_far.fills,
        &mut so_far.traded,
        &mut so_far.order_numbers.left,
    );
    set_total(&mut so_far.traded, order, arrival.size - left);
    set_amount(&mut so_far.order_numbers.left, order, left);
    push_pairs(own.side(), order, &so_far.fills, &mut so_far.pairs)
}

/// The record of an order: what it trades, and what rests after it, up to the next order's record.
pub fn expect_record(
    orders: &OrderList<'_>,
    endings: &[OrderEnd],
    order: usize,
    so_far: &mut TradesSoFar,
) -> Result<(), NoMemory>
    requires order_list { IsOrderList orders.now }
    requires regular { Regular orders.now }
    requires order { order < length orders.now }
    requires endings { AreEndings orders.now endings.now }
    requires dropped { AreEndingsDropped endings.now so_far.old.books_so_far.start
        (place_at orders.now order) }
    requires counted { AreTradesSoFar orders.now order 0 so_far.old }
    requires matched { MatchedBefore orders.now order (place_at orders.now order) so_far.old }
    ensures dropped { OnOk result (AreEndingsDropped endings.now so_far.new.books_so_far.start
        (next_order_place orders.now (suc order))) }
    ensures counted { OnOk result (AreTradesSoFar orders.now (suc order) 0 so_far.new) }
    ensures matched { OnOk result
        (MatchedBefore orders.now (suc order)
        (next_order_place orders.now (suc order)) so_far.new) }
{
    trade_order(orders, order, so_far)?;
    let books_so_far = &mut so_far.books_so_far;
    books_so_far.drop_own(orders, endings, order);
    let left = so_far.order_numbers.left[order];
    enter_own(orders, order, left, &mut books_so_far.books)?;
    books_so_far.drop_before_next(orders, endings, order);
    Ok(())
}
