//! What is told of the symbols of a share by a rule, and by the further checks behind it.
ghost use Rattle.std.specs.Prelude.{◌≡◌, ◌++◌, IfOk, OnOk};
ghost use Rattle.audit_report.specs.DayTexts.{day_line};
ghost use Rattle.record_verdict.specs.BeforeRule.{IsJudgeable};
ghost use Rattle.record_verdict.specs.RecordVerdict.{as_verdict};
ghost use Rattle.day_verdicts.specs.CheckedSymbols.{HasTimes};
ghost use Rattle.day_verdicts.specs.DayVerdicts as day;
ghost use Rattle.day_verdicts.specs.SymbolAnswers.{told_by, with_one, AddsTold, IsNothingTold};

use crate::symbol_reports::{SymbolReport, report_after};
use crate::symbol_walk::{SymbolJudge, judge_each};
use audit_base::faults::NoMemory;
use audit_base::names::Name;
use audit_base::stamps::Stamp;
use audit_base::terms::Rule;
use audit_report::day_line::{DayCounts, append_day_line};
use audit_report::reports::report_text;
use audit_report::symbol_lines::append_symbol_lines;
use day_records::day_trades::DayRecords;
use day_records::symbol_records::SymbolRecords;
use day_symbols::shares::DayShare;
use further_checks::findings::FurtherChecks;
use further_checks::laws::nothing_is_found_unasked;
use record_verdict::before_rule::BeforeRule;
use record_verdict::questions::Question;
use record_verdict::verdicts::{RecordVerdict, verdict_after};
use std::alloc::Global;

/// Whether a verdict is that the records are accepted.
fn is_acceptance(judged: &RecordVerdict) -> bool
    ensures { result ≡ day.is_acceptance (as_verdict judged.now) }
{
    match judged {
        RecordVerdict::Accepted(_) => true,
        RecordVerdict::Rejected(_) => false,
    }
}

/// What is told of a symbol whose records give this: by its verdict, and then by the checks.
fn report_of(
    alloc: Global,
    question: &Question,
    checks: FurtherChecks,
    given: &BeforeRule,
    times: &[Stamp],
) -> Result<SymbolReport, NoMemory>
    requires judgeable { IsJudgeable given.now }
    requires timed { HasTimes checks given.now times.now }
    ensures { IfOk result (day.TellsVerdict question.now checks given.now times.now) }
{
    let judged = verdict_after(alloc, question, given)?;
    let accepted = is_acceptance(&judged);
    let text = report_text(alloc, &judged.into_verdict())?;
    report_after(alloc, checks, given, times, SymbolReport { accepted, text })
}

/// What was told of the symbols so far: how many there were, and their lines.
#[derive(Drop)]
pub struct JudgedSymbols {
    pub counts: DayCounts,
    pub lines: Vec<u8>,
}

/// How many there are with one more.
fn count_one(counts: &mut DayCounts, accepted: bool)
    requires { day.HasRoomForOne counts.old }
    ensures { counts.new ≡ with_one counts.old accepted }
{
    counts.symbols += 1;
    if accepted {
        counts.accepted += 1;
    } else {
        counts.rejected += 1;
    }
}

impl JudgedSymbols {
    /// No symbols.
    pub fn none(alloc: Global) -> JudgedSymbols
        ensures { IsNothingTold result }
    {
        JudgedSymbols {
            counts: DayCounts {
                symbols: 0,
                accepted: 0,
                rejected: 0,
            },
            lines: Vec::new(alloc),
        }
    }

    /// One symbol more, with what is told of it. After `NoMemory` nothing is known of the symbols.
    pub fn add(&mut self, symbol: &Name, report: &SymbolReport) -> Result<(), NoMemory>
        requires { day.HasRoomForOne self.old.counts }
        ensures { OnOk result (AddsTold self.old self.new symbol.now (told_by report.now)) }
    {
        count_one(&mut self.counts, report.accepted);
        append_symbol_lines(symbol, &report.text, &mut self.lines)
    }

    /// The text of the day: the line that counts its symbols, with what they were judged by, and
    /// their lines.
    pub fn text(&self, alloc: Global, question_text: &[u8]) -> Result<Vec<u8>, NoMemory>
        ensures { let line = day_line self.now.counts question_text.now in
            IfOk result (λ text. text.items ≡ line ++ self.now.lines.items) }
    {
        let mut text = Vec::new(alloc);
        append_day_line(alloc, self.counts, question_text, &mut text)?;
        text.extend_from_slice(&self.lines)?;
        Ok(text)
    }
}

/// A rule as the judge of the symbols of a day, with the checks behind it that are asked for.
/// `table` asks for the tables of accepted symbols.
#[derive(Clone, Copy)]
struct RuleWithChecks {
    rule: Rule,
    table: bool,
    checks: FurtherChecks,
}

impl SymbolJudge<JudgedSymbols> for RuleWithChecks {
    ghost use Rattle.record_verdict.specs.Scopes.{admission_of};

    ghost admission = { λ judge. admission_of judge.rule };

    ghost has_judged = { λ judge _ judged entries trades symbols.
        day.IsJudgedDay judge.rule judge.table judge.checks entries trades symbols judged };

    fn judge(
        &self,
        alloc: Global,
        symbol: &Name,
        records: SymbolRecords,
        judged: &mut JudgedSymbols,
    ) -> Result<(), NoMemory> {
        nothing_is_found_unasked();
        let question = Question {
            rule: self.rule,
            symbol: *symbol,
            table: self.table,
        };
        let times = records.trade_times(alloc, self.checks.any())?;
        let given = records.before_rule(alloc)?;
        let report = report_of(alloc, &question, self.checks, &given, &times)?;
        judged.add(symbol, &report)
    }
}

/// The verdicts of a rule on the symbols of a share, in their order: how many there are, and their
/// lines, each with its symbol before it. `table` asks for the tables of accepted symbols. A symbol
/// that the rule accepts is rejected by the first finding of the checks that are asked for. The
/// orders and deals of a symbol are made when it is judged, and its memory is freed before the next
/// is judged; the times of its trades only where a check is asked for.
pub fn judge_day(
    alloc: Global,
    rule: Rule,
    table: bool,
    checks: FurtherChecks,
    share: DayShare,
    ended: DayRecords,
) -> Result<JudgedSymbols, NoMemory>
    requires { day.RuleTradesFitPlaces rule share ended }
    ensures { IfOk result (day.IsJudgedShare rule table checks share ended) }
{
    let judge = RuleWithChecks {
        rule,
        table,
        checks,
    };
    judge_each(alloc, &judge, share, ended, JudgedSymbols::none(alloc))
}
