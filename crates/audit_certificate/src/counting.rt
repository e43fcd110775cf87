//! What each order trades, and the volume, in one pass over the deals.
ghost use Rattle.std.specs.Prelude.{◌≡◌, ◌<◌, ◌+◌, ◌^◌, IfOk, slice_index, slice_set, vec_len};
ghost use Rattle.audit_base.specs.Deals.{IsDealList};
ghost use Rattle.audit_certificate.specs.Counting.{AreCounts};

use audit_base::faults::NoMemory;
use audit_base::orders::Deal;
use audit_base::ranges::deals_in_range;
use order_list::lists::OrderList;
use std::alloc::Global;

/// What each order trades in deals, and their volume.
#[derive(Debug, Drop)]
pub struct Counts {
    /// What each order trades, by its index.
    pub traded: Vec<u128>,
    /// The quantities of all deals, added.
    pub volume: u128,
}

/// Adds a quantity to what an order trades.
fn add(traded: &mut Vec<u128>, index: usize, quantity: u64)
    requires inside { index < vec_len traded.old }
    requires fits { slice_index traded.old.items index + quantity < 2 ^ 128 }
    ensures { let sum = slice_index traded.old.items index + quantity in
        traded.new.items ≡ slice_set traded.old.items index sum }
{
    traded[index] += u128::from(quantity);
}

/// What each order trades in the deals, and the volume. Err only out of memory.
pub fn count(alloc: Global, orders: &OrderList<'_>, deals: &[Deal]) -> Result<Counts, NoMemory>
    requires { IsDealList orders.now deals.now }
    ensures { IfOk result (AreCounts orders.now deals.now) }
{
    deals_in_range(deals);
    let mut traded = vec![in alloc; 0u128; orders.len()]?;
    let mut volume: u128 = 0;
    'deals: for deal in deals {
        let quantity = deal.quantity.value();
        add(&mut traded, deal.bid, quantity);
        add(&mut traded, deal.ask, quantity);
        volume += u128::from(quantity);
    }
    Ok(Counts { traded, volume })
}
