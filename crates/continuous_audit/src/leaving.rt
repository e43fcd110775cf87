//! What is left of the orders after the deals of a record.
ghost use Rattle.std.specs.Prelude.{◌≡◌, ◌<◌, ◌≤◌, ◌-◌, length, slice_set, vec_len};
ghost use Rattle.audit_base.specs.Deals.{number_at};
ghost use Rattle.continuous_audit.specs.IndexedDeals.{IsLeftRefreshedIn};
ghost use Rattle.continuous_audit.specs.Scans.{HasDeals};

use super::indexed_deals::IndexedDeals;
use super::scanning::RunningTotals;

/// What is left of an order.
pub fn left_at(sizes: &[u64], traded: &[u64], order: usize) -> u64
    requires sizes { order < length sizes.now }
    requires traded { order < length traded.now }
    ensures { result ≡ number_at sizes.now order - number_at traded.now order }
{
    sizes[order].saturating_sub(traded[order])
}

/// Sets a number of an order.
pub fn set_amount(numbers: &mut Vec<u64>, order: usize, number: u64)
    requires { order < vec_len numbers.old }
    ensures { numbers.new.items ≡ slice_set numbers.old.items order number }
{
    numbers[order] = number;
}

/// Sets what is left of the two orders of a deal.
fn set_left(left: &mut Vec<u64>, bid: usize, ask: usize, bid_left: u64, ask_left: u64)
    requires bid { bid < vec_len left.old }
    requires ask { ask < vec_len left.old }
    ensures { left.new.items ≡ slice_set (slice_set left.old.items bid bid_left) ask ask_left }
{
    left[bid] = bid_left;
    left[ask] = ask_left;
}

/// Sets what is left of the orders of the incoming deals from the one at `start` on, as far as
/// these are added.
pub fn refresh_left(
    market: &IndexedDeals<'_>,
    start: usize,
    running: &RunningTotals,
    sizes: &[u64],
    left: &mut Vec<u64>,
)
    requires from { start ≤ running.now.added }
    requires ends { running.now.added ≤ length market.now.incoming_deals.now }
    requires deals { HasDeals market.now.deals.now market.now.incoming_deals.now
        (vec_len left.old) }
    requires sizes_count { length sizes.now ≡ vec_len left.old }
    requires traded_count { vec_len running.now.traded ≡ vec_len left.old }
    ensures refreshed { IsLeftRefreshedIn market.now start running.now sizes.now left.old.items
        left.new.items }
{
    let (deals, incoming_deals) = (market.deals, market.incoming_deals);
    for at in start..running.added {
        let deal = &deals[incoming_deals[at].deal as usize];
        let bid_left = left_at(sizes, &running.traded, deal.bid);
        let ask_left = left_at(sizes, &running.traded, deal.ask);
        set_left(left, deal.bid, deal.ask, bid_left, ask_left);
    }
}
