//! The verdict of each rule where the trades are sound: what the audit of the rule answers, as a
//! finding or as an accepted log.
ghost use Rattle.std.specs.Prelude.{◌≡◌, ◌<◌, ◌-◌, ◌^◌, None, IfOk};
ghost use Rattle.audit_base.specs.declared.terms.CallRule.TheVariants as call;
ghost use Rattle.audit_base.specs.RuleKinds.{rule_of_call};
ghost use Rattle.audit_base.specs.Histories.{Regular};
ghost use Rattle.audit_base.specs.Orders.{IsOrderList};
ghost use Rattle.audit_base.specs.Deals.{AreTotals, IsDealList};
ghost use Rattle.call_audit.specs.Audits.{IsCallOutcome};
ghost use Rattle.record_verdict.specs.RecordVerdict.{as_verdict};
ghost use Rattle.record_verdict.specs.Stages.{VerdictFollowsDeals};
ghost use Rattle.record_verdict.specs.Tables.{accepted_verdict, conforming_outcome, IsCallOutcomeForAnyCount, IsOutcomeOfFault, IsRuleOutcome};

use crate::questions::Question;
use crate::tables::table_of;
use crate::verdicts::RecordVerdict;
use audit_base::faults::NoMemory;
use audit_base::orders::Deal;
use audit_base::terms::{CallRule, Rule, VolumeRule};
use audit_report::verdicts::Accepted;
use call_audit::fair_matchings::fair_matching;
use continuous_audit::auditing::audit_continuous;
use matching_core::checking::check_matching;
use matching_core::outcomes::{CheckFault, Outcome, Reached};
use matching_core::totals::Totals;
use maximum_audit::auditing::audit_maximum;
use order_list::lists::OrderList;
use std::alloc::Global;
use uniform_audit::auditing::audit_uniform;

/// The outcome of deals that conform to a rule which asks for no greatest volume.
fn conforming(totals: Totals) -> Outcome
    ensures { result ≡ conforming_outcome totals }
{
    Outcome::Conforms(Reached {
        traded: totals,
        bound: None,
    })
}

/// The outcome of deals that do not.
fn broken(fault: CheckFault) -> Result<Outcome, NoMemory>
    ensures { IfOk result (IsOutcomeOfFault fault) }
{
    match fault {
        CheckFault::Found(finding) => Ok(Outcome::Broken(finding)),
        CheckFault::Memory => Err(NoMemory),
    }
}

/// Whether the deals conform to the rule `matching`.
fn audit_matching(
    alloc: Global,
    orders: &OrderList<'_>,
    deals: &[Deal],
) -> Result<Outcome, NoMemory>
    requires deal_list { IsDealList orders.now deals.now }
    ensures { IfOk result (IsCallOutcomeForAnyCount call.Matching orders.now deals.now) }
{
    match check_matching(alloc, orders, deals, false) {
        Ok(totals) => Ok(conforming(totals)),
        Err(fault) => broken(fault),
    }
}

/// Whether the deals conform to the rule `fair`.
fn audit_fair(alloc: Global, orders: &OrderList<'_>, deals: &[Deal]) -> Result<Outcome, NoMemory>
    requires order_list { IsOrderList orders.now }
    requires deal_list { IsDealList orders.now deals.now }
    ensures { IfOk result (IsCallOutcomeForAnyCount call.Fair orders.now deals.now) }
{
    match fair_matching(alloc, orders, deals, false) {
        Ok(totals) => Ok(conforming(totals)),
        Err(fault) => broken(fault),
    }
}

/// Whether the deals conform to a rule that asks for the greatest volume.
fn audit_greatest(
    alloc: Global,
    rule: VolumeRule,
    orders: &OrderList<'_>,
    deals: &[Deal],
    count: u32,
) -> Result<Outcome, NoMemory>
    requires order_list { IsOrderList orders.now }
    requires deal_list { IsDealList orders.now deals.now }
    requires fits_places { count < 2 ^ 32 - 1 }
    ensures { IfOk result (IsCallOutcome rule orders.now deals.now count) }
{
    match rule {
        VolumeRule::Uniform => audit_uniform(alloc, orders, deals, count),
        VolumeRule::Maximum => audit_maximum(alloc, orders, deals, count),
    }
}

/// Whether the deals conform to a rule of a call.
fn audit_call(
    alloc: Global,
    rule: CallRule,
    orders: &OrderList<'_>,
    deals: &[Deal],
    count: u32,
) -> Result<Outcome, NoMemory>
    requires order_list { IsOrderList orders.now }
    requires deal_list { IsDealList orders.now deals.now }
    requires fits_places { count < 2 ^ 32 - 1 }
    ensures { IfOk result (IsRuleOutcome (rule_of_call rule) orders.now deals.now count) }
{
    match rule {
        CallRule::Matching => audit_matching(alloc, orders, deals),
        CallRule::Fair => audit_fair(alloc, orders, deals),
        CallRule::Greatest(rule) => audit_greatest(alloc, rule, orders, deals, count),
    }
}

/// Whether the deals conform to the rule.
fn audit(
    alloc: Global,
    rule: Rule,
    orders: &OrderList<'_>,
    deals: &[Deal],
    count: u32,
) -> Result<Outcome, NoMemory>
    requires regular { Regular orders.now }
    requires order_list { IsOrderList orders.now }
    requires deal_list { IsDealList orders.now deals.now }
    requires fits_places { count < 2 ^ 32 - 1 }
    ensures { IfOk result (IsRuleOutcome rule orders.now deals.now count) }
{
    match rule.call_rule() {
        Some(rule) => audit_call(alloc, rule, orders, deals, count),
        None => audit_continuous(alloc, orders, deals),
    }
}

/// The verdict that the deals conform, with what each order trades, the volume and the bound.
fn accept(
    alloc: Global,
    question: &Question,
    orders: &OrderList<'_>,
    deals: &[Deal],
    conforming: &Reached,
) -> Result<RecordVerdict, NoMemory>
    requires order_list { IsOrderList orders.now }
    requires deal_list { IsDealList orders.now deals.now }
    requires totals { AreTotals orders.now deals.now conforming.now.traded.0 }
    ensures { IfOk result (λ judged. as_verdict judged
        ≡ accepted_verdict question.now orders.now deals.now conforming.now) }
{
    let table = table_of(alloc, question, orders, deals, conforming.traded.as_slice())?;
    Ok(RecordVerdict::Accepted(Accepted {
        rule: question.rule,
        symbol: question.symbol,
        orders: orders.len() as u32,
        trades: deals.len() as u32,
        volume: conforming.traded.volume(),
        bound: conforming.bound,
        table,
    }))
}

/// The verdict of a rule where the trades are sound; `count` is the number of trades
/// of the whole log.
pub fn judge_deals(
    alloc: Global,
    question: &Question,
    orders: &OrderList<'_>,
    deals: &[Deal],
    count: u32,
) -> Result<RecordVerdict, NoMemory>
    requires regular { Regular orders.now }
    requires order_list { IsOrderList orders.now }
    requires deal_list { IsDealList orders.now deals.now }
    requires fits_places { count < 2 ^ 32 - 1 }
    ensures { IfOk result (λ judged.
        VerdictFollowsDeals question.now orders.now deals.now count (as_verdict judged)) }
{
    let outcome = audit(alloc, question.rule, orders, deals, count)?;
    match outcome {
        Outcome::Conforms(conforming) => accept(alloc, question, orders, deals, &conforming),
        Outcome::Broken(finding) => Ok(RecordVerdict::Rejected(finding)),
    }
}
