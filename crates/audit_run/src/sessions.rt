//! The command `session`: whether a day of phases conforms, over two logs.
ghost use Rattle.std.specs.Prelude.{◌≡◌, IfOk};
ghost use Rattle.log_verdict.specs.BothLogs.{HaveOneLimit, StaysWithin};
ghost use Rattle.command_run.specs.Deciding.{IsAnswerOfKind};
ghost use Rattle.audit_run.specs.Deciding.{request_to_judge_session, DecidesAuditorAnswer};
ghost use Rattle.audit_run.specs.JudgedAnswers.{IsSessionAnswerOn};
ghost use Rattle.log_verdict.specs.Steps.{reading_by, KeepsShelfLogs, FaultsNeverFall};
ghost use Rattle.record_verdict.specs.BeforeRule.{IsJudgeable};
ghost use Rattle.session_audit.specs.Phases.{ArePhases};
ghost use Rattle.session_audit.specs.SessionVerdicts.{session_status};

use super::given_logs::GivenBeforeRule;
use super::program::Auditor;
use audit_base::faults::NoMemory;
use command_run::answers::{Answer, answer_without};
use command_run::laws::both_logs_decide;
use log_source::shelf::Shelf;
use log_verdict::both_logs::read_both;
use log_verdict::sources::Source;
use log_verdict::stops::Stop;
use record_verdict::before_rule::BeforeRule;
use record_verdict::scopes::{Admission, Scope};
use session_audit::questions::PhaseQuestion;
use session_audit::verdicts::{Session, session_after};
use std::alloc::Global;

/// The answer that a session is: its status, and its text as it is.
fn answer_of_session(session: Session) -> Answer
    ensures status { result.status ≡ session_status session.conforms }
    ensures text { result.text.items ≡ session.text.items }
{
    let status = session.status();
    let Session { text, .. } = session;
    Answer {
        status,
        text,
        stop: None,
    }
}

/// The answer to `session` over logs that give this before the phases are looked at.
fn session_answer(
    alloc: Global,
    question: &PhaseQuestion<'_>,
    given: &BeforeRule,
) -> Result<Answer, NoMemory>
    requires phases { ArePhases question.now.phases.now }
    requires judgeable { IsJudgeable given.now }
    ensures { IfOk result (IsAnswerOfKind
        (IsSessionAnswerOn question.now given.now)) }
{
    let session = session_after(
        alloc,
        &question.symbol,
        question.phases,
        question.table,
        given,
    )?;
    Ok(answer_of_session(session))
}

/// The answer to `session`. The reading admits every order: whether a call admits its own orders
/// is for the day to say.
pub(crate) fn answer_session<F: Shelf>(
    alloc: Global,
    shelf: &mut F,
    question: &PhaseQuestion<'_>,
    orders: &Source<'_>,
    trades: &Source<'_>,
) -> Result<Answer, Stop>
    requires phases { ArePhases question.now.phases.now }
    requires limit { HaveOneLimit orders.now trades.now }
    ensures logs { KeepsShelfLogs F.Shelf shelf.old shelf.new }
    ensures later { FaultsNeverFall (reading_by orders.now F.Shelf shelf.old shelf.new) }
    ensures decides { DecidesAuditorAnswer (reading_by orders.now F.Shelf shelf.old shelf.new)
        (request_to_judge_session question.now orders.now trades.now) result }
    ensures within { StaysWithin (reading_by orders.now F.Shelf shelf.old shelf.new) result }
{
    both_logs_decide::<Auditor, GivenBeforeRule>();
    let scope = Scope {
        symbol: question.symbol,
        admission: Admission::All,
    };
    // A match and no `?`, as in `verdict_on`.
    match read_both(alloc, shelf, &scope, orders, trades) {
        Ok(given) => Ok(session_answer(alloc, question, &given)?),
        Err(why) => answer_without(alloc, why),
    }
}
