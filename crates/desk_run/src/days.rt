//! The answers to `audit` and to `session`: a day of two logs.
ghost use Rattle.std.specs.Prelude.{true, IfOk};
ghost use Rattle.command_run.specs.Deciding.{DecidesAnswer, IsAnswerOfKind};
ghost use Rattle.day_logs.specs.DayAnswerTexts.{day_answer_text};
ghost use Rattle.desk_run.specs.Deciding.{request_by_phases, request_by_rule};
ghost use Rattle.desk_run.specs.Requests.{desk_command_of, IsAnswerOfDay, IsWrittenOfDay};
ghost use Rattle.log_verdict.specs.BothLogs.{HaveOneLimit, StaysWithin};
ghost use Rattle.log_verdict.specs.Steps.{reading_by, FaultsNeverFall, KeepsShelfLogs};
ghost use Rattle.session_audit.specs.Phases.{ArePhases};
ghost use Rattle.session_audit.specs.Texts.{phases_text};

use super::given_days::{GivenSessions, GivenVerdicts};
use super::program::Desk;
use audit_base::faults::NoMemory;
use command_run::answers::Answer;
use command_run::laws::both_logs_decide;
use day_logs::answers::{DayAnswer, DayQuestion, verdicts_on};
use day_logs::texts::{status_of_day, text_of_day};
use day_page::day_pages::page_of_day_text;
use day_sessions::answers::sessions_on;
use day_sessions::questions::SessionQuestion;
use log_source::shelf::Shelf;
use log_verdict::sources::Source;
use log_verdict::stops::{NoRecords, Stop};
use session_audit::phases::Phase;
use session_audit::texts::append_phases;
use std::alloc::Global;

/// The page of a day with this text; of a log that is out of its grammar there is none, and this is
/// the text.
fn page_of_day(alloc: Global, day: &DayAnswer, text: Vec<u8>) -> Result<Vec<u8>, NoMemory>
    ensures { IfOk result (λ page. IsWrittenOfDay true day.now text.items page.items) }
{
    match day {
        DayAnswer::Malformed { .. } => Ok(text),
        DayAnswer::Unpaired(_) => page_of_day_text(alloc, &text),
        DayAnswer::Judged(_) => page_of_day_text(alloc, &text),
    }
}

/// What is written of a day, with what its symbols were judged by: its text, or its page.
fn written_of_day(
    alloc: Global,
    day: &DayAnswer,
    question_text: &[u8],
    page: bool,
) -> Result<Vec<u8>, NoMemory>
    ensures { let the_text = day_answer_text question_text.now day.now in
        IfOk result (λ text. IsWrittenOfDay page day.now the_text text.items) }
{
    let text = text_of_day(alloc, day, question_text)?;
    if page {
        page_of_day(alloc, day, text)
    } else {
        Ok(text)
    }
}

/// Why there are no records of the logs of a day, where this is the answer to them.
fn stop_in_day(day: &DayAnswer) -> Option<NoRecords> {
    match day {
        DayAnswer::Malformed { log, bad } => Some(NoRecords::Malformed {
            log: *log,
            bad: *bad,
        }),
        DayAnswer::Unpaired(_) | DayAnswer::Judged(_) => None,
    }
}

/// The answer that a day is, with what its symbols were judged by.
fn day_answer(
    alloc: Global,
    day: &DayAnswer,
    question_text: &[u8],
    page: bool,
) -> Result<Answer, NoMemory>
    ensures { IfOk result (IsAnswerOfKind (IsAnswerOfDay page question_text.now day.now)) }
{
    let text = written_of_day(alloc, day, question_text, page)?;
    Ok(Answer {
        status: status_of_day(day),
        text,
        stop: stop_in_day(day),
    })
}

/// The answer that a day of phases is.
fn phases_answer(
    alloc: Global,
    day: &DayAnswer,
    phases: &[Phase],
    page: bool,
) -> Result<Answer, NoMemory>
    ensures { let question_text = phases_text phases.now in
        IfOk result (IsAnswerOfKind (IsAnswerOfDay page question_text day.now)) }
{
    let mut question_text = Vec::new(alloc);
    append_phases(alloc, phases, &mut question_text)?;
    day_answer(alloc, day, &question_text, page)
}

/// The answer to `audit`: the day by a rule, as a page where that is asked for.
pub(crate) fn answer_audit<F: Shelf>(
    alloc: Global,
    shelf: &mut F,
    question: &DayQuestion,
    page: bool,
    orders: &Source<'_>,
    trades: &Source<'_>,
) -> Result<Answer, Stop>
    requires limit { HaveOneLimit orders.now trades.now }
    ensures logs { KeepsShelfLogs F.Shelf shelf.old shelf.new }
    ensures later { FaultsNeverFall (reading_by orders.now F.Shelf shelf.old shelf.new) }
    ensures decides { DecidesAnswer (reading_by orders.now F.Shelf shelf.old shelf.new)
        (desk_command_of (request_by_rule question.now page orders.now trades.now)) result }
    ensures within { StaysWithin (reading_by orders.now F.Shelf shelf.old shelf.new) result }
{
    both_logs_decide::<Desk, GivenVerdicts>();
    match verdicts_on(alloc, shelf, question, orders, trades) {
        Ok(day) => Ok(day_answer(alloc, &day, question.rule.word(), page)?),
        Err(stop) => Err(stop),
    }
}

/// The answer to `session`: the day by phases, as a page where that is asked for.
pub(crate) fn answer_session<F: Shelf>(
    alloc: Global,
    shelf: &mut F,
    question: &SessionQuestion<'_>,
    page: bool,
    orders: &Source<'_>,
    trades: &Source<'_>,
) -> Result<Answer, Stop>
    requires phases { ArePhases question.now.phases.now }
    requires limit { HaveOneLimit orders.now trades.now }
    ensures logs { KeepsShelfLogs F.Shelf shelf.old shelf.new }
    ensures later { FaultsNeverFall (reading_by orders.now F.Shelf shelf.old shelf.new) }
    ensures decides { DecidesAnswer (reading_by orders.now F.Shelf shelf.old shelf.new)
        (desk_command_of (request_by_phases question.now page orders.now trades.now)) result }
    ensures within { StaysWithin (reading_by orders.now F.Shelf shelf.old shelf.new) result }
{
    both_logs_decide::<Desk, GivenSessions>();
    match sessions_on(alloc, shelf, question, orders, trades) {
        Ok(day) => Ok(phases_answer(alloc, &day, question.phases, page)?),
        Err(stop) => Err(stop),
    }
}
