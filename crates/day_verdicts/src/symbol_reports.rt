//! What is told of one symbol: by its rule, and where that accepts it by the further checks that
//! are asked for.
ghost use Rattle.std.specs.Prelude.{◌≡◌, true, length, slice_get, IfOk};
ghost use Rattle.audit_base.specs.Deals.{IsDealList};
ghost use Rattle.further_checks.specs.FurtherRules.{asks_further, further_findings};
ghost use Rattle.record_verdict.specs.BeforeRule.{IsJudgeable};
ghost use Rattle.day_verdicts.specs.CheckedSymbols.{after_finding, after_given, told_by_finding, HasTimes};
ghost use Rattle.day_verdicts.specs.SymbolAnswers.{told_by};

use audit_base::faults::NoMemory;
use audit_base::orders::Deal;
use audit_base::stamps::Stamp;
use call_offences::totals::totals_of;
use further_checks::checking::first_further_finding;
use further_checks::findings::{FurtherChecks, FurtherFinding};
use further_checks::laws::{further_findings_begin_with_the_first, nothing_is_found_unasked};
use further_checks::texts::append_further_text;
use order_list::lists::OrderList;
use record_verdict::before_rule::BeforeRule;
use std::alloc::Global;

/// What is told of a symbol.
#[derive(Drop)]
pub struct SymbolReport {
    pub accepted: bool,
    pub text: Vec<u8>,
}

/// The report that rejects a symbol with the finding of a further check.
fn report_of_finding(alloc: Global, finding: &FurtherFinding) -> Result<SymbolReport, NoMemory>
    ensures { IfOk result (λ report. told_by report ≡ told_by_finding finding.now) }
{
    let mut text = Vec::new(alloc);
    append_further_text(alloc, finding, &mut text)?;
    Ok(SymbolReport {
        accepted: false,
        text,
    })
}

/// What is told of a symbol with these orders and deals, of which its rule told this.
fn report_after_checks(
    alloc: Global,
    checks: FurtherChecks,
    orders: &OrderList<'_>,
    deals: &[Deal],
    times: &[Stamp],
    report: SymbolReport,
) -> Result<SymbolReport, NoMemory>
    requires deal_list { IsDealList orders.now deals.now }
    requires timed { asks_further checks ≡ true → length times.now ≡ length deals.now }
    ensures { let found = further_findings checks orders.now deals.now times.now in
        IfOk result (λ told. told_by told ≡ after_finding (slice_get found 0) (told_by report)) }
{
    nothing_is_found_unasked();
    further_findings_begin_with_the_first();
    if !report.accepted {
        return Ok(report);
    }
    if !checks.any() {
        return Ok(report);
    }
    let traded = totals_of(alloc, orders, deals)?;
    match first_further_finding(checks, orders, deals, times, &traded) {
        Some(finding) => report_of_finding(alloc, &finding),
        None => Ok(report),
    }
}

/// What is told of a symbol whose records give this, and of which its rule told this: where that
/// accepts it, the first finding of the checks that are asked for rejects it, if there is one.
/// `times` are those of its trades. Where no check is asked for, this takes no memory.
pub fn report_after(
    alloc: Global,
    checks: FurtherChecks,
    given: &BeforeRule,
    times: &[Stamp],
    report: SymbolReport,
) -> Result<SymbolReport, NoMemory>
    requires judgeable { IsJudgeable given.now }
    requires timed { HasTimes checks given.now times.now }
    ensures { IfOk result
        (λ told. told_by told ≡ after_given checks given.now times.now (told_by report)) }
{
    match given {
        BeforeRule::Found(_) => Ok(report),
        BeforeRule::Sound(sound) => {
            let orders = sound.history.orders();
            report_after_checks(alloc, checks, &orders, &sound.deals, times, report)
        }
    }
}
