//! What the deals of one record take from a book.
ghost use Rattle.std.specs.Prelude.{◌≡◌, ◌<◌, ◌≤◌, All, IfSome};
ghost use Rattle.audit_base.specs.Deals.{number_at};
ghost use Rattle.order_book.specs.Books.{best_resting};
ghost use Rattle.continuous_audit.specs.Holding.{after_fills, with_best_left, IsWithinBook};

use order_book::books::Book;

/// Leaves this much of the best order, which is taken out where nothing is left.
fn leave_of_best(book: &mut Book, left: u64, now: u64)
    requires best { IfSome (best_resting book.old.resting) (λ r. r.left ≡ left) }
    requires some { 0 < left }
    requires within { now ≤ left }
    ensures { book.new ≡ record book.old { resting = with_best_left now book.old.resting } }
{
    if now < left {
        book.take(left - now);
    }
}

/// Takes from the book what its best orders have traded, up to the first of which
/// something is left.
pub fn fill_best(book: &mut Book, left: &[u64])
    requires within { All (IsWithinBook left.now) book.old.resting }
    ensures { book.new ≡ record book.old {
      resting = after_fills (number_at left.now)
          book.old.resting;
    } }
{
    while let Some(best) = book.best() {
        let now = left[best.index];
        leave_of_best(book, best.left, now);
        if now > 0 {
            return;
        }
    }
}
