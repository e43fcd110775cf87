//! The session of each symbol of a share, one symbol after another.
ghost use Rattle.std.specs.Prelude.{IfOk};
ghost use Rattle.day_logs.specs.DayBeforeRule.{DayTradesFitPlaces};
ghost use Rattle.day_sessions.specs.JudgedSessions.{AreJudgedSessions, AreJudgedSessionsOfShare};
ghost use Rattle.day_sessions.specs.SymbolSessions.{TellsSession};
ghost use Rattle.day_verdicts.specs.CheckedSymbols.{HasTimes};
ghost use Rattle.record_verdict.specs.declared.scopes.Admission.TheVariants.{All as AdmitsAll};
ghost use Rattle.record_verdict.specs.BeforeRule.{IsJudgeable};
ghost use Rattle.session_audit.specs.Phases.{ArePhases};

use crate::questions::SessionQuestion;
use audit_base::faults::NoMemory;
use audit_base::names::Name;
use audit_base::stamps::Stamp;
use day_records::day_trades::DayRecords;
use day_records::symbol_records::SymbolRecords;
use day_verdicts::judging::JudgedSymbols;
use day_verdicts::symbol_reports::{SymbolReport, report_after};
use day_verdicts::symbol_walk::{SymbolJudge, judge_each};
use further_checks::laws::nothing_is_found_unasked;
use record_verdict::before_rule::BeforeRule;
use session_audit::verdicts::session_after;
use std::alloc::Global;

/// What is told of a symbol whose records give this: by its session, and then by the checks.
fn session_report(
    alloc: Global,
    symbol: &Name,
    question: &SessionQuestion<'_>,
    given: &BeforeRule,
    times: &[Stamp],
) -> Result<SymbolReport, NoMemory>
    requires phases { ArePhases question.now.phases.now }
    requires judgeable { IsJudgeable given.now }
    requires timed { HasTimes question.now.checks given.now times.now }
    ensures { let q = question.now in IfOk result
        (TellsSession symbol.now q.phases.now q.table q.checks given.now times.now) }
{
    let session = session_after(alloc, symbol, question.phases, question.table, given)?;
    let report = SymbolReport {
        accepted: session.conforms,
        text: session.text,
    };
    report_after(alloc, question.checks, given, times, report)
}

/// The phases of a day judge its symbols, with the checks behind them that are asked for.
impl SymbolJudge<JudgedSymbols> for SessionQuestion<'_> {
    ghost admission = { λ _. AdmitsAll };

    ghost has_judged = { λ q _ judged entries trades symbols. ArePhases q.phases.now
        × AreJudgedSessions q.phases.now q.table q.checks entries trades symbols judged };

    fn judge(
        &self,
        alloc: Global,
        symbol: &Name,
        records: SymbolRecords,
        judged: &mut JudgedSymbols,
    ) -> Result<(), NoMemory> {
        nothing_is_found_unasked();
        let times = records.trade_times(alloc, self.checks.any())?;
        let given = records.before_rule(alloc)?;
        let report = session_report(alloc, symbol, self, &given, &times)?;
        judged.add(symbol, &report)
    }
}

/// The sessions of the symbols of a share, in their order: how many there are, and their lines,
/// each with its symbol before it. A symbol that conforms is rejected by the first finding of the
/// checks that are asked for. The orders and deals of a symbol are made when it is judged, and its
/// memory is freed before the next is judged; the times of its trades only where a check is asked
/// for.
pub fn judge_sessions(
    alloc: Global,
    question: &SessionQuestion<'_>,
    ended: DayRecords,
) -> Result<JudgedSymbols, NoMemory>
    requires phases { ArePhases question.now.phases.now }
    requires fits_places { DayTradesFitPlaces question.now.share AdmitsAll ended }
    ensures { let q = question.now in
        IfOk result (AreJudgedSessionsOfShare q.phases.now q.table q.checks q.share ended) }
{
    judge_each(
        alloc,
        question,
        question.share,
        ended,
        JudgedSymbols::none(alloc),
    )
}
