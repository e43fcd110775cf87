//! The deals of a symbol that fail a check: the least of them, or all.
ghost use Rattle.std.specs.Prelude.{◌≡◌, IfOk, length};
ghost use Rattle.audit_base.specs.Deals.{AreTotals, IsDealList};
ghost use Rattle.further_checks.specs.FurtherRules as spec;

use super::failing::further_failure;
use super::findings::{FurtherChecks, FurtherFinding};
use audit_base::faults::NoMemory;
use audit_base::orders::Deal;
use audit_base::stamps::Stamp;
use offence_list::answers::push_answer;
use order_list::lists::OrderList;
use std::alloc::Global;

/// The finding at the least deal that fails one of the checks that are asked for, and at it 17
/// before 18; None exactly where none fails. `traded` is what each order trades in all deals, by
/// its index, and `times` the time of each deal's trade. One pass over the deals. Takes no memory.
pub fn first_further_finding(
    checks: FurtherChecks,
    orders: &OrderList<'_>,
    deals: &[Deal],
    times: &[Stamp],
    traded: &[u128],
) -> Option<FurtherFinding>
    requires deal_list { IsDealList orders.now deals.now }
    requires times { length times.now ≡ length deals.now }
    requires totals { AreTotals orders.now deals.now traded.now }
    ensures { result ≡ spec.first_further_finding checks orders.now deals.now times.now }
{
    for index in 0..deals.len() {
        let found = further_failure(checks, orders, traded, &deals[index], times[index]);
        if let Some(finding) = found {
            return Some(finding);
        }
    }
    None
}

/// The findings at all deals that fail one of these checks, in order, each as above.
/// Err only out of memory.
pub fn further_findings(
    alloc: Global,
    checks: FurtherChecks,
    orders: &OrderList<'_>,
    deals: &[Deal],
    times: &[Stamp],
    traded: &[u128],
) -> Result<Vec<FurtherFinding>, NoMemory>
    requires deal_list { IsDealList orders.now deals.now }
    requires times { length times.now ≡ length deals.now }
    requires totals { AreTotals orders.now deals.now traded.now }
    ensures { IfOk result
        (λ found. found.items ≡ spec.further_findings checks orders.now deals.now times.now) }
{
    let mut found = Vec::new(alloc);
    for index in 0..deals.len() {
        let failure = further_failure(checks, orders, traded, &deals[index], times[index]);
        push_answer(&mut found, failure)?;
    }
    Ok(found)
}
