//! What an incoming order trades with the best orders of the other side.
ghost use Rattle.std.specs.Prelude.{◌≡◌, ◌<◌, ◌≤◌, ◌+◌, OnOk, IfOk, IfSome};
ghost use Rattle.order_book.specs.Books.{best_resting};
ghost use Rattle.continuous_audit.specs.Fills.{fills_of, next_fill, resting_after_fills, total_filled};

use super::spreading::limits_meet;
use audit_base::faults::NoMemory;
use audit_base::numbers::Price;
use audit_base::terms::Side;
use order_book::books::Book;

/// What an incoming order trades with an order that rests.
#[derive(Clone, Copy, Debug, PartialEq, Eq)]
pub struct Fill {
    /// The index of the order that rests.
    pub index: usize,
    /// From 1 to 1,000,000,000,000.
    pub quantity: u64,
}

/// What an order of a side trades next, of which this much is left: None where that is nothing, or
/// where its limit meets none in the book.
fn next_fill(book: &Book, side: Side, limit: Price, size: u64) -> Option<Fill>
    ensures fill { result ≡ next_fill side limit size book.now.resting }
    ensures some { IfSome result (λ f. 0 < f.quantity) }
    ensures within_size { IfSome result (λ f. f.quantity ≤ size) }
    ensures within_best { IfSome result (λ f.
        IfSome (best_resting book.now.resting) (λ r. f.quantity ≤ r.left)) }
{
    match book.best() {
        Some(best) => {
            if size > 0 && limits_meet(side, limit, best.limit) {
                Some(Fill {
                    index: best.index,
                    quantity: size.min(best.left),
                })
            } else {
                None
            }
        }
        None => None,
    }
}

/// Trades an order of a side with the best orders of the other side's book, as long as its limit
/// meets theirs. `fills` is overwritten with what it trades; gives what is left of its size.
pub fn take_fills(
    book: &mut Book,
    side: Side,
    limit: Price,
    size: u64,
    fills: &mut Vec<Fill>,
) -> Result<u64, NoMemory>
    ensures fills { OnOk result (fills.new.items ≡ fills_of side limit size book.old.resting) }
    ensures book { OnOk result
        (book.new
        ≡ record book.old { resting = resting_after_fills side limit size book.old.resting }) }
    ensures left { IfOk result (λ left. left + total_filled fills.new.items ≡ size) }
{
    fills.clear();
    let mut left = size;
    while let Some(fill) = next_fill(book, side, limit, left) {
        fills.push(fill)?;
        book.take(fill.quantity);
        left -= fill.quantity;
    }
    Ok(left)
}
