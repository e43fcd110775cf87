//! The audit of a rule that asks for the greatest volume: a fair matching, and whether its
//! volume is the greatest.
//!
//! What makes the comparison of volumes right is a law: the Expected trades conform and have just
//! the bound's volume. A due follows from rank alone; at most two such sums are taken. `uniform`
//! and `maximum` share `audit_against_greatest` and no trait, since they differ in the law, the extreme and the
//! pairs.
ghost use Rattle.std.specs.Prelude.{◌≡◌, ◌<◌, ◌-◌, ◌^◌, IfOk, IfSome, length};
ghost use Rattle.audit_base.specs.Orders.{IsOrderList};
ghost use Rattle.audit_base.specs.Deals.{IsDealList};
ghost use Rattle.call_audit.specs.Audits.{IsGreatestOf, IsCallOutcome};
ghost use Rattle.call_audit.specs.Outcomes.{IsBestShortWithDue, IsVolumeFinding, IsVolumeOutcome};

use super::dues::due_of;
use super::fair_matchings::fair_matching;
use audit_base::faults::NoMemory;
use audit_base::findings::{Finding, Short};
use audit_base::flaws::{DueOrder, Evidence, Flaw, TradedOrder};
use audit_base::orders::{Cut, Deal};
use audit_base::terms::{Side, VolumeRule};
use matching_core::outcomes::{CheckFault, Outcome, Reached};
use matching_core::totals::Totals;
use order_list::lists::OrderList;
use short_order::searching::best_short_on;
use std::alloc::Global;

/// The best order of a side that is not fully traded, with what it traded and its due.
fn short_with_due(
    orders: &OrderList<'_>,
    traded: &[u128],
    greatest: u128,
    side: Side,
) -> Option<DueOrder>
    requires order_list { IsOrderList orders.now }
    requires count { length traded.now ≡ length orders.now }
    ensures short { IsBestShortWithDue orders.now traded.now greatest side result }
    ensures inside { IfSome result (λ short. short.order.index < length orders.now) }
{
    let index = best_short_on(orders, traded, side)?;
    Some(DueOrder {
        order: TradedOrder {
            index,
            traded: traded[index],
        },
        due: due_of(orders, index, greatest),
    })
}

/// Finding 14: the volume is below the greatest. Its place is after the last trade of the log, and
/// it shows the best short order of both sides with their dues.
fn volume_finding(orders: &OrderList<'_>, totals: &Totals, count: u32, greatest: u128) -> Finding
    requires order_list { IsOrderList orders.now }
    requires totals { length totals.now.0 ≡ length orders.now }
    requires count { count < 2 ^ 32 - 1 }
    ensures { IsVolumeFinding orders.now totals.now count greatest result }
{
    let traded = totals.as_slice();
    let reached = totals.volume();
    let bid = short_with_due(orders, traded, greatest, Side::Buy);
    let ask = short_with_due(orders, traded, greatest, Side::Sell);
    let flaw = Flaw {
        place: count + 1,
        evidence: Evidence::Volume(Short { reached, greatest }, bid, ask),
    };
    orders.finding(flaw)
}

/// The outcome of a fair matching, by whether its volume is the greatest.
fn outcome_of(orders: &OrderList<'_>, totals: Totals, count: u32, most: Cut) -> Outcome
    requires order_list { IsOrderList orders.now }
    requires totals { length totals.0 ≡ length orders.now }
    requires count { count < 2 ^ 32 - 1 }
    ensures { IsVolumeOutcome orders.now totals count most result }
{
    if totals.volume() < most.volume {
        return Outcome::Broken(volume_finding(orders, &totals, count, most.volume));
    }
    Outcome::Conforms(Reached {
        traded: totals,
        bound: Some(most),
    })
}

/// The audit of a rule that asks for the greatest volume, against the greatest volume that it
/// allows, with its bound. Conforms exactly where the rule holds, out of memory aside: with what
/// each order traded, which is then the same in every list of deals that conforms. Else Broken has
/// the first offence. The number of trades of the whole log is `count`, and the finding of the
/// volume has the next place after it.
pub fn audit_against_greatest(
    alloc: Global,
    rule: VolumeRule,
    orders: &OrderList<'_>,
    deals: &[Deal],
    count: u32,
    most: Cut,
) -> Result<Outcome, NoMemory>
    requires order_list { IsOrderList orders.now }
    requires deal_list { IsDealList orders.now deals.now }
    requires count { count < 2 ^ 32 - 1 }
    requires most { IsGreatestOf rule orders.now most }
    ensures { IfOk result (IsCallOutcome rule orders.now deals.now count) }
{
    match fair_matching(alloc, orders, deals, rule.asks_one_price()) {
        Ok(totals) => Ok(outcome_of(orders, totals, count, most)),
        Err(CheckFault::Found(finding)) => Ok(Outcome::Broken(finding)),
        Err(CheckFault::Memory) => Err(NoMemory),
    }
}
