//! The sessions of the symbols of two logs of a shelf.
ghost use Rattle.std.specs.Prelude.{IfOk};
ghost use Rattle.day_logs.specs.DayAnswers.{GivesDayAnswerOrStop, IsAnswerUpToRule};
ghost use Rattle.day_logs.specs.DayBeforeRule.{IsDayWithFewTrades};
ghost use Rattle.day_sessions.specs.JudgedSessions.{AreSessionsAsked};
ghost use Rattle.log_verdict.specs.BothLogs.{HaveOneLimit, StaysWithin};
ghost use Rattle.log_verdict.specs.Steps.{reading_by, KeepsShelfLogs, FaultsNeverFall};
ghost use Rattle.record_verdict.specs.declared.scopes.Admission.TheVariants.{All as AdmitsAll};
ghost use Rattle.session_audit.specs.Phases.{ArePhases};

use crate::judged_sessions::judge_sessions;
use crate::questions::SessionQuestion;
use audit_base::faults::NoMemory;
use day_logs::answers::{DayAnswer, day_without};
use day_logs::before_rule::DayBeforeRule;
use day_logs::reading::read_day;
use log_source::shelf::Shelf;
use log_verdict::sources::Source;
use log_verdict::stops::Stop;
use record_verdict::scopes::Admission;
use std::alloc::Global;

/// The answer to what the records of two logs give before any phase is looked at.
fn sessions_after(
    alloc: Global,
    question: &SessionQuestion<'_>,
    given: DayBeforeRule,
) -> Result<DayAnswer, NoMemory>
    requires phases { ArePhases question.now.phases.now }
    requires fits_places { IsDayWithFewTrades question.now.share AdmitsAll given }
    ensures { let meaning = AreSessionsAsked question.now in
        IfOk result (IsAnswerUpToRule question.now.share AdmitsAll meaning given) }
{
    match given {
        DayBeforeRule::Unpaired(finding) => Ok(DayAnswer::Unpaired(finding)),
        DayBeforeRule::Read(ended) => {
            let judged = judge_sessions(alloc, question, ended)?;
            Ok(DayAnswer::Judged(judged))
        }
    }
}

/// The sessions of the symbols of a share of two logs, or why there are none, as `verdicts_on`
/// answers for a rule, and behind them the checks that are asked for. The reading admits every
/// order: whether a call admits its own orders is for the day to say.
pub fn sessions_on<F: Shelf>(
    alloc: Global,
    shelf: &mut F,
    question: &SessionQuestion<'_>,
    orders: &Source<'_>,
    trades: &Source<'_>,
) -> Result<DayAnswer, Stop>
    requires phases { ArePhases question.now.phases.now }
    requires limit { HaveOneLimit orders.now trades.now }
    ensures logs { KeepsShelfLogs F.Shelf shelf.old shelf.new }
    ensures later { FaultsNeverFall (reading_by orders.now F.Shelf shelf.old shelf.new) }
    ensures decides { GivesDayAnswerOrStop (reading_by orders.now F.Shelf shelf.old shelf.new)
        (AreSessionsAsked question.now) orders.now trades.now result }
    ensures within { StaysWithin (reading_by orders.now F.Shelf shelf.old shelf.new) result }
{
    match read_day(alloc, shelf, question.share, Admission::All, orders, trades) {
        Ok(given) => Ok(sessions_after(alloc, question, given)?),
        Err(why) => day_without(why),
    }
}
