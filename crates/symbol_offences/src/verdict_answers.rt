//! The answer where a finding decides, and by the verdict of the rule.
ghost use Rattle.std.specs.Prelude.{◌≡◌, ◌∷◌, [], true, IfOk, length};
ghost use Rattle.audit_base.specs.Deals.{IsDealList};
ghost use Rattle.audit_base.specs.Orders.{IsOrderList};
ghost use Rattle.audit_report.specs.declared.statuses.Status.TheVariants as status;
ghost use Rattle.audit_report.specs.declared.verdicts.Verdict.TheVariants as verdict;
ghost use Rattle.audit_report.specs.Texts.{IsVerdictInRange};
ghost use Rattle.command_run.specs.Deciding.{IsAnswerOfKind};
ghost use Rattle.command_run.specs.VerdictAnswers.{IsAnswerWith};
ghost use Rattle.further_checks.specs.FurtherRules.{asks_further, further_findings};
ghost use Rattle.offence_list.specs.Offences.{offences_of};
ghost use Rattle.record_verdict.specs.RecordVerdict.{IsJudgedInRange};
ghost use Rattle.symbol_offences.specs.OffenceAnswers.{IsAnswerToAccepted, IsAnswerToRejected};
ghost use Rattle.symbol_offences.specs.SymbolBeforeRule.{AreInLogOrder};
ghost use Rattle.symbol_offences.specs.Telling.{IsAnswerByDeals};

use crate::further::append_failures;
use crate::listing::{all_offences, append_before_rule, append_listing};
use crate::questions::OffenceQuestion;
use crate::symbol_before_rule::QuotedRecords;
use audit_base::faults::NoMemory;
use audit_base::findings::Finding;
use audit_base::orders::Deal;
use audit_base::stamps::Stamp;
use audit_base::terms::Rule;
use audit_report::reports::report_text;
use audit_report::statuses::Status;
use audit_report::verdicts::{Accepted, Verdict};
use call_offences::totals::totals_of;
use command_run::answers::{Answer, verdict_answer};
use further_checks::checking::further_findings;
use further_checks::findings::{FurtherChecks, FurtherFinding};
use further_checks::texts::append_further_text;
use matching_core::deals_draft::ResolvedTrades;
use order_list::lists::OrderList;
use record_verdict::verdicts::RecordVerdict;
use std::alloc::Global;

/// The answer that rejects with this text.
pub(crate) fn rejecting(text: Vec<u8>) -> Answer
    ensures { IsAnswerOfKind (IsAnswerWith status.Rejected text.items) result }
{
    Answer {
        status: Status::Rejected,
        text,
        stop: None,
    }
}

/// The answer where a finding decides before the rule.
pub(crate) fn answer_before_rule(
    alloc: Global,
    quoted: &QuotedRecords,
    finding: &Finding,
) -> Result<Answer, NoMemory>
    requires { AreInLogOrder quoted.now }
    ensures { IfOk result (IsAnswerOfKind
        (IsAnswerToRejected quoted.now [] finding.now (finding.now ∷ []))) }
{
    let mut text = report_text(alloc, &Verdict::Rejected(*finding))?;
    append_before_rule(alloc, quoted, finding, &mut text)?;
    Ok(rejecting(text))
}

/// The answer where the rule rejects the deals with this finding.
fn answer_rejected(
    alloc: Global,
    rule: Rule,
    orders: &OrderList<'_>,
    deals: &[Deal],
    quoted: &QuotedRecords,
    first: &Finding,
) -> Result<Answer, NoMemory>
    requires order_list { IsOrderList orders.now }
    requires deal_list { IsDealList orders.now deals.now }
    requires in_order { AreInLogOrder quoted.now }
    ensures { let found = offences_of rule orders.now deals.now first.now in
        IfOk result (IsAnswerOfKind
        (IsAnswerToRejected quoted.now orders.now first.now found)) }
{
    let listing = all_offences(alloc, rule, orders, deals, first)?;
    let mut text = report_text(alloc, &Verdict::Rejected(*first))?;
    append_listing(alloc, orders, quoted, first, &listing, &mut text)?;
    Ok(rejecting(text))
}

/// The answer where the rule accepts, and these trades fail a further check.
fn answer_failing(
    alloc: Global,
    quoted: &QuotedRecords,
    accepted: Accepted,
    found: &[FurtherFinding],
) -> Result<Answer, NoMemory>
    requires in_order { AreInLogOrder quoted.now }
    requires in_range { IsVerdictInRange (verdict.Accepted accepted) }
    ensures { IfOk result
        (IsAnswerOfKind (IsAnswerToAccepted quoted.now accepted found.now)) }
{
    let Some(first) = found.first() else {
        return verdict_answer(alloc, &Verdict::Accepted(accepted));
    };
    let mut text = Vec::new(alloc);
    append_further_text(alloc, first, &mut text)?;
    append_failures(alloc, quoted, found, &mut text)?;
    Ok(rejecting(text))
}

/// The answer where the rule accepts: the further checks decide, where they are asked for.
fn answer_accepted(
    alloc: Global,
    checks: FurtherChecks,
    sound: &ResolvedTrades,
    times: &[Stamp],
    quoted: &QuotedRecords,
    accepted: Accepted,
) -> Result<Answer, NoMemory>
    requires deal_list { IsDealList sound.now.history sound.now.deals.items }
    requires timed { asks_further checks ≡ true
        → length times.now ≡ length sound.now.deals.items }
    requires in_order { AreInLogOrder quoted.now }
    requires in_range { IsVerdictInRange (verdict.Accepted accepted) }
    ensures { let orders = sound.now.history in
        let found = further_findings checks orders sound.now.deals.items times.now in
        IfOk result (IsAnswerOfKind (IsAnswerToAccepted quoted.now accepted found)) }
{
    if !checks.any() {
        return verdict_answer(alloc, &Verdict::Accepted(accepted));
    }
    let orders = sound.history.orders();
    let traded = totals_of(alloc, &orders, &sound.deals)?;
    let found = further_findings(alloc, checks, &orders, &sound.deals, times, &traded)?;
    answer_failing(alloc, quoted, accepted, &found)
}

/// The answer by the verdict of the rule on sound trades.
pub(crate) fn answer_by_verdict(
    alloc: Global,
    question: &OffenceQuestion,
    sound: &ResolvedTrades,
    times: &[Stamp],
    quoted: &QuotedRecords,
    judged: RecordVerdict,
) -> Result<Answer, NoMemory>
    requires deal_list { IsDealList sound.now.history sound.now.deals.items }
    requires timed { asks_further question.now.checks ≡ true
        → length times.now ≡ length sound.now.deals.items }
    requires in_order { AreInLogOrder quoted.now }
    requires in_range { IsJudgedInRange judged }
    ensures { let told = IsAnswerByDeals question.now sound.now.history sound.now.deals.items in
        IfOk result (IsAnswerOfKind (told times.now quoted.now judged)) }
{
    match judged {
        RecordVerdict::Accepted(accepted) => {
            answer_accepted(alloc, question.checks, sound, times, quoted, accepted)
        }
        RecordVerdict::Rejected(first) => {
            let orders = sound.history.orders();
            answer_rejected(alloc, question.rule, &orders, &sound.deals, quoted, &first)
        }
    }
}
