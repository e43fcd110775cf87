//! The deals of a phase: those whose cause is in it.
ghost use Rattle.std.specs.Prelude.{◌≡◌, ◌≤◌, ◌++◌, All, IfOk, OnOk, length};
ghost use Rattle.audit_base.specs.Continuous.{cause};
ghost use Rattle.audit_base.specs.Deals.{NamesOrders};
ghost use Rattle.session_audit.specs.Phases.{last_place};
ghost use Rattle.session_audit.specs.Dealing.{HaveCausesInRange, causes_below, is_between, deals_if, deals_between};

use audit_base::faults::NoMemory;
use audit_base::orders::Deal;
use order_list::lists::OrderList;
use std::alloc::Global;

/// The cause of a deal: the later of the places of its two orders.
fn cause_of(orders: &OrderList<'_>, deal: &Deal) -> u32
    requires { NamesOrders orders.now deal.now }
    ensures cause { result ≡ cause orders.now deal.now }
    ensures fits { cause orders.now deal.now ≤ last_place }
{
    let bid = orders.at(deal.bid).place();
    let ask = orders.at(deal.ask).place();
    if bid < ask { ask } else { bid }
}

/// The causes of the deals, in log order. Err only out of memory.
pub fn causes_of(
    alloc: Global,
    orders: &OrderList<'_>,
    deals: &[Deal],
) -> Result<Vec<u32>, NoMemory>
    requires { All (NamesOrders orders.now) deals.now }
    ensures causes { IfOk result (λ causes.
        causes.items ≡ causes_below orders.now deals.now (length deals.now)) }
    ensures fits { OnOk result (HaveCausesInRange orders.now deals.now) }
{
    let mut causes = Vec::with_capacity(alloc, deals.len())?;
    for index in 0..deals.len() {
        causes.push(cause_of(orders, &deals[index]))?;
    }
    Ok(causes)
}

/// Whether a place is from `first` to `last`.
fn is_between(place: u32, first: u32, last: u32) -> bool
    ensures { result ≡ is_between first last place }
{
    first <= place && place <= last
}

/// Adds a deal, if its cause is between these places.
fn add_deal(
    part: &mut Vec<Deal>,
    deal: &Deal,
    cause: u32,
    first: u32,
    last: u32,
) -> Result<(), NoMemory>
    ensures { OnOk result (part.new.items
        ≡ part.old.items ++ deals_if (is_between first last cause) deal.now) }
{
    if is_between(cause, first, last) {
        part.push(*deal)?;
    }
    Ok(())
}

/// The deals whose cause is between these places, in log order. Err only out of memory.
pub fn deals_between(
    alloc: Global,
    deals: &[Deal],
    causes: &[u32],
    first: u32,
    last: u32,
) -> Result<Vec<Deal>, NoMemory>
    requires { length causes.now ≡ length deals.now }
    ensures { IfOk result (λ part. part.items
        ≡ deals_between deals.now causes.now first last (length deals.now)) }
{
    let mut part = Vec::new(alloc);
    for index in 0..deals.len() {
        add_deal(&mut part, &deals[index], causes[index], first, last)?;
    }
    Ok(part)
}
