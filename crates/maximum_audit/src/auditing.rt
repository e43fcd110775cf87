//! Whether deals conform to the rule `maximum`.
ghost use Rattle.std.specs.Prelude.{◌<◌, ◌-◌, ◌^◌, IfOk};
ghost use Rattle.audit_base.specs.declared.terms.VolumeRule.TheVariants.{Maximum};
ghost use Rattle.audit_base.specs.Orders.{IsOrderList};
ghost use Rattle.audit_base.specs.Deals.{IsDealList};
ghost use Rattle.call_audit.specs.Audits.{IsGreatestOf, IsCallOutcome};

use audit_base::faults::NoMemory;
use audit_base::orders::{Cut, Deal};
use audit_base::terms::VolumeRule;
use call_audit::auditing::audit_against_greatest;
use call_laws::optimum::greatest_matching_reaches_the_least_cut;
use matching_core::outcomes::Outcome;
use order_list::lists::OrderList;
use std::alloc::Global;
use volume_bound::extremes::least_cut;

/// The greatest volume of a matching, and the least price whose cut is this volume.
fn greatest_of(alloc: Global, orders: &OrderList<'_>) -> Result<Cut, NoMemory>
    requires { IsOrderList orders.now }
    ensures { IfOk result (IsGreatestOf Maximum orders.now) }
{
    // A law that the answer rests on. It computes nothing.
    greatest_matching_reaches_the_least_cut();
    least_cut(alloc, orders)
}

/// The audit of the rule `maximum` over the deals of a log of `count` trades. Conforms exactly
/// where they are a fair matching and no matching has a greater volume, out of memory aside: with
/// what each order traded, the only quantities that conform, the volume, and the least price whose
/// cut is the volume. Else Broken has the first offence, of the properties 7, 8 and 10 to 14.
pub fn audit_maximum(
    alloc: Global,
    orders: &OrderList<'_>,
    deals: &[Deal],
    count: u32,
) -> Result<Outcome, NoMemory>
    requires order_list { IsOrderList orders.now }
    requires deal_list { IsDealList orders.now deals.now }
    requires fits_places { count < 2 ^ 32 - 1 }
    ensures { IfOk result (IsCallOutcome Maximum orders.now deals.now count) }
{
    let most = greatest_of(alloc, orders)?;
    audit_against_greatest(alloc, VolumeRule::Maximum, orders, deals, count, most)
}
