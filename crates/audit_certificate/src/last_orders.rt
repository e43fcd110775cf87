//! Lines 3 and 4: the last order of a side that trades, in rank order.
ghost use Rattle.std.specs.Prelude.{◌≡◌, ◌<◌, ◌↔◌, ℕ, Some, IfOk, IfSome, IsTrue, length, option_map};
ghost use Rattle.audit_base.specs.Orders.{place_at, side_at};
ghost use Rattle.audit_certificate.specs.LastOrders as spec;
ghost use Rattle.audit_certificate.specs.Texts.{last_text};

use super::texts::append_last;
use audit_base::faults::NoMemory;
use audit_base::terms::Side;
use order_list::lists::OrderList;
use rank_order::comparing::better;
use std::alloc::Global;

/// Whether the order at this index takes part on the side and trades.
fn trades_on(orders: &OrderList<'_>, traded: &[u128], side: Side, index: usize) -> bool
    requires inside { index < length orders.now }
    requires count { length traded.now ≡ length orders.now }
    ensures { result ≡ spec.trades_on orders.now traded.now side index }
{
    orders.at(index).is_uncancelled_on(side) && 0 < traded[index]
}

/// The worse of the last one so far and the order at this index.
fn worse_of(orders: &OrderList<'_>, last: Option<usize>, index: usize) -> usize
    requires inside { index < length orders.now }
    requires last_inside { IfSome last (λ l. l < length orders.now) }
    requires sides { IfSome last (λ l. side_at orders.now l ≡ side_at orders.now index) }
    ensures { result ≡ spec.worse_of orders.now last index }
{
    match last {
        None => index,
        Some(last) => {
            if better(&orders.at(last), &orders.at(index)) {
                index
            } else {
                last
            }
        }
    }
}

/// The last order that trades, with that at this index.
fn later_of(
    orders: &OrderList<'_>,
    traded: &[u128],
    side: Side,
    last: Option<usize>,
    index: usize,
) -> Option<usize>
    requires inside { index < length orders.now }
    requires count { length traded.now ≡ length orders.now }
    requires last { IfSome last (λ l. spec.IsOrderOn orders.now side l) }
    ensures same { result ≡ spec.later_of orders.now traded.now side last index }
    ensures on { IfSome result (λ l. spec.IsOrderOn orders.now side l) }
{
    if trades_on(orders, traded, side, index) {
        Some(worse_of(orders, last, index))
    } else {
        last
    }
}

/// The worst order of the side that trades: in rank order the last one. None where none trades.
pub fn last_trading(orders: &OrderList<'_>, traded: &[u128], side: Side) -> Option<usize>
    requires { length traded.now ≡ length orders.now }
    ensures same { result ≡ spec.last_trading orders.now traded.now side (length orders.now) }
    ensures on { IfSome result (λ l. spec.IsOrderOn orders.now side l) }
{
    let mut last = None;
    for index in 0..orders.len() {
        last = later_of(orders, traded, side, last, index);
    }
    last
}

/// Whether the order at this index is fully traded, if it takes part on the side and is
/// better than the last.
fn is_filled_ahead(
    orders: &OrderList<'_>,
    traded: &[u128],
    side: Side,
    last: usize,
    index: usize,
) -> bool
    requires inside { index < length orders.now }
    requires count { length traded.now ≡ length orders.now }
    requires last { spec.IsOrderOn orders.now side last }
    ensures { result ≡ spec.is_filled_ahead orders.now traded.now side last index }
{
    let order = orders.at(index);
    if !order.is_uncancelled_on(side) {
        return true;
    }
    if !better(&order, &orders.at(last)) {
        return true;
    }
    traded[index] == u128::from(order.quantity().value())
}

/// Whether each order that is better than the last is fully traded.
fn all_filled_ahead(
    orders: &OrderList<'_>,
    traded: &[u128],
    side: Side,
    last: Option<usize>,
) -> bool
    requires count { length traded.now ≡ length orders.now }
    requires last { IfSome last (λ l. spec.IsOrderOn orders.now side l) }
    ensures { IsTrue result ↔ spec.AreFilledAhead orders.now traded.now side last }
{
    let Some(last) = last else {
        return true;
    };
    for index in 0..orders.len() {
        if !is_filled_ahead(orders, traded, side, last, index) {
            return false;
        }
    }
    true
}

/// The place of the order at the index, if there is one.
pub fn place_of(orders: &OrderList<'_>, index: Option<usize>) -> Option<u32>
    requires { IfSome index (λ i. i < length orders.now) }
    ensures { result ≡ option_map (place_at orders.now) index }
{
    match index {
        None => None,
        Some(index) => Some(orders.at(index).place()),
    }
}

/// Whether the line is the canonical one of the side and the place.
fn is_last_text(
    alloc: Global,
    side: Side,
    place: Option<u32>,
    line: &[u8],
    text: &mut Vec<u8>,
) -> Result<bool, NoMemory>
    ensures { IfOk result (λ same. IsTrue same ↔ (line.now ≡ last_text side place)) }
{
    text.clear();
    append_last(alloc, side, place, text)?;
    Ok(text.as_slice() == line)
}

/// Whether the line is a line 3 or 4 of the side. `text` is a buffer that each call uses anew.
pub fn is_last_line(
    alloc: Global,
    orders: &OrderList<'_>,
    traded: &[u128],
    side: Side,
    line: &[u8],
    text: &mut Vec<u8>,
) -> Result<bool, NoMemory>
    requires { length traded.now ≡ length orders.now }
    ensures { IfOk result (spec.DecidesLastLine orders.now traded.now side line.now) }
{
    let last = last_trading(orders, traded, side);
    if !all_filled_ahead(orders, traded, side, last) {
        return Ok(false);
    }
    is_last_text(alloc, side, place_of(orders, last), line, text)
}
