//! Which of two orders of a side is better.
ghost use Rattle.std.specs.Prelude.{◌≡◌};
ghost use Rattle.audit_base.specs.Priority as priority;

use audit_base::numbers::Price;
use audit_base::terms::Side;
use order_list::listed::ListedOrder;

/// Whether the first limit is better: higher for a bid, lower for an ask.
fn is_better_limit(side: Side, first: Price, second: Price) -> bool
    ensures { result ≡ priority.better_limit side first second }
{
    match side {
        Side::Buy => second < first,
        Side::Sell => first < second,
    }
}

/// Whether `a` is better than `b`, an order of the same side: its limit is better, or the limits
/// are the same and its place in the log is smaller (price-time priority).
pub fn better(a: &ListedOrder<'_>, b: &ListedOrder<'_>) -> bool
    requires { a.now.side ≡ b.now.side }
    ensures { result ≡ priority.better a.now b.now }
{
    is_better_limit(a.side(), a.limit(), b.limit())
        || (a.limit() == b.limit() && a.place() < b.place())
}
