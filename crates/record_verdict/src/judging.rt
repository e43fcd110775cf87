//! Judging records that are there as a whole: they are handed to what a reading hands them to, and
//! the verdict is the one on what they give before the rule is looked at.
ghost use Rattle.std.specs.Prelude.{◌≡◌, ◌<◌, ◌-◌, ◌^◌, length, None, IfOk, Ok};
ghost use Rattle.audit_base.specs.Verdicts as spec;
ghost use Rattle.audit_base.specs.Verdicts.{paired_trades};
ghost use Rattle.audit_report.specs.Texts.{IsVerdictInRange};
ghost use Rattle.trade_reports.specs.Pairings.{result_of_paired};
ghost use Rattle.matching_core.specs.DealsDraft.{IsDealsDraft};
ghost use Rattle.record_verdict.specs.Scopes.{unadmitted_order_finding};
ghost use Rattle.record_verdict.specs.BeforeRule.{IsBeforeRule, IsGivenAfterHistory, IsJudgeable};
ghost use Rattle.record_verdict.specs.RecordVerdicts.{question, IsRecordVerdict};

use crate::before_rule::BeforeRule;
use crate::questions::Question;
use crate::scopes::{Admission, Scope};
use crate::verdicts::verdict_after;
use audit_base::faults::NoMemory;
use audit_base::findings::Finding;
use audit_base::names::Name;
use audit_base::records::{OrderRecord, TradeRecord};
use audit_base::terms::Rule;
use audit_report::verdicts::Verdict;
use instruction_history::faults::HistoryFault;
use instruction_history::history::History;
use log_source::collector::Collector;
use matching_core::deals_draft::{DealsDraft, HistoryGhost};
use order_list::lists::OrderList;
use seeded_hash::seed::HashSeed;
use std::alloc::Global;
use std::marker::Brand;
use trade_reports::pairing::Paired;

/// What is found where the rule does not admit an order of the history:
/// a call takes only orders that rest.
pub fn instant_finding_of_rule(rule: Rule, orders: &OrderList<'_>) -> Option<Finding>
    ensures { result ≡ spec.instant_finding_of_rule rule orders.now }
{
    Admission::of(rule).first_unadmitted(orders)
}

/// The draft of the deals of these trades.
fn draft_of<M: HistoryGhost>(
    alloc: Global,
    scope: &Scope,
    history: History,
    trades: &[TradeRecord],
) -> Result<DealsDraft<M>, NoMemory>
    requires symbol { scope.now.symbol ≡ M.symbol }
    requires orders { history ≡ M.orders }
    requires fits_places { length trades.now < 2 ^ 32 - 1 }
    ensures { IfOk result (λ draft. IsDealsDraft M.symbol M.orders draft trades.now) }
{
    let mut draft = DealsDraft::new(alloc, HashSeed::fixed(), scope.symbol, history);
    for trade in trades {
        draft.take(*trade)?;
    }
    Ok(draft)
}

/// What trades give after a history without a finding, whose orders are admitted.
fn given_by_trades<M: HistoryGhost>(
    alloc: Global,
    scope: &Scope,
    history: History,
    trades: &[TradeRecord],
) -> Result<BeforeRule, NoMemory>
    requires symbol { scope.now.symbol ≡ M.symbol }
    requires orders { history ≡ M.orders }
    requires admitted { unadmitted_order_finding scope.now.admission history ≡ None }
    requires fits_places { length trades.now < 2 ^ 32 - 1 }
    ensures gives { IfOk result (IsGivenAfterHistory scope.now history (Ok trades.now)) }
    ensures judgeable { IfOk result IsJudgeable }
{
    let draft = draft_of::<M>(alloc, scope, history, trades)?;
    Ok(BeforeRule::of(draft.end()))
}

/// What is given after a history without a finding.
fn given_after_history(
    alloc: Global,
    scope: &Scope,
    history: History,
    trades: &Paired,
) -> Result<BeforeRule, NoMemory>
    requires fits_places { length (paired_trades (result_of_paired trades.now)) < 2 ^ 32 - 1 }
    ensures gives { let paired = result_of_paired trades.now in
        IfOk result (IsGivenAfterHistory scope.now history paired) }
    ensures judgeable { IfOk result IsJudgeable }
{
    if let Some(finding) = scope.admission.first_unadmitted(&history.orders()) {
        return Ok(BeforeRule::Found(finding));
    }
    match trades {
        Paired::Trades(list) => given_by_trades::<Brand>(alloc, scope, history, list.as_slice()),
        Paired::Alone(finding) => Ok(BeforeRule::Found(*finding)),
    }
}

/// What the records of two logs give before the rule is looked at.
fn given_by_records(
    alloc: Global,
    scope: &Scope,
    entries: &[OrderRecord],
    trades: &Paired,
) -> Result<BeforeRule, NoMemory>
    requires entries_fit_places { length entries.now < 2 ^ 32 - 1 }
    requires trades_fit_places { length (paired_trades (result_of_paired trades.now)) < 2 ^ 32 - 1 }
    ensures gives { let paired = result_of_paired trades.now in
        IfOk result (IsBeforeRule scope.now entries.now paired) }
    ensures judgeable { IfOk result IsJudgeable }
{
    match History::build(alloc, entries, &scope.symbol) {
        Ok(history) => given_after_history(alloc, scope, history, trades),
        Err(HistoryFault::Found(finding)) => Ok(BeforeRule::Found(finding)),
        Err(HistoryFault::Memory) => Err(NoMemory),
    }
}

/// The verdict of a rule on the records of two logs: the first stage with a finding decides, and
/// where there is none the log is accepted, with the bound of `uniform` and `maximum`, and, where
/// a table is asked for, with the line of each order, or under `continuous` of each pair that
/// trades. The verdict is never `Malformed`.
///
/// The stages are the history (a key twice, a time that goes back, an unknown target; then, under
/// a rule of a call, an order that does not rest), a report without its partner, the trades (an
/// id twice, an unknown order), and the rule.
pub fn judge(
    alloc: Global,
    rule: Rule,
    symbol: &Name,
    table: bool,
    entries: &[OrderRecord],
    trades: &Paired,
) -> Result<Verdict, NoMemory>
    requires entries_fit_places { length entries.now < 2 ^ 32 - 1 }
    requires trades_fit_places { length (paired_trades (result_of_paired trades.now)) < 2 ^ 32 - 1 }
    ensures judged { IfOk result
        (IsRecordVerdict (question rule symbol.now table) entries.now
        (result_of_paired trades.now)) }
    ensures in_range { IfOk result IsVerdictInRange }
{
    let question = Question {
        rule,
        symbol: *symbol,
        table,
    };
    let given = given_by_records(alloc, &question.scope(), entries, trades)?;
    let judged = verdict_after(alloc, &question, &given)?;
    Ok(judged.into_verdict())
}
