//! The answer to a command: its status and its text, made whole before any of it is written.
ghost use Rattle.std.specs.Prelude.{◌≡◌, IfOk};
ghost use Rattle.audit_report.specs.declared.verdicts.Verdict.TheVariants as verdict;
ghost use Rattle.audit_report.specs.Texts.{IsVerdictInRange};
ghost use Rattle.command_run.specs.Deciding.{DecidesUnread, DecidesWithout, IsAnswerOfKind};
ghost use Rattle.command_run.specs.VerdictAnswers.{IsVerdictAnswer};

use audit_base::faults::{BadPlace, NoMemory};
use audit_base::findings::Finding;
use audit_base::terms::Which;
use audit_report::reports::report_text;
use audit_report::statuses::Status;
use audit_report::verdicts::{Verdict, status_of};
use log_verdict::reading::ReadingFault;
use log_verdict::stops::{NoRecords, Stop};
use std::alloc::Global;

/// What a command answers: the status, and the text that is written; and why there are no records
/// of its logs, where the text says that.
#[derive(Drop)]
pub struct Answer {
    pub status: Status,
    pub text: Vec<u8>,
    pub stop: Option<NoRecords>,
}

/// Why there are no records of two logs, where this is their verdict.
fn stop_in(verdict: &Verdict) -> Option<NoRecords> {
    match verdict {
        Verdict::Malformed { log, bad } => Some(NoRecords::Malformed {
            log: *log,
            bad: *bad,
        }),
        Verdict::Accepted(_) | Verdict::Rejected(_) => None,
    }
}

/// The answer of a verdict: its status and its text.
pub fn verdict_answer(alloc: Global, verdict: &Verdict) -> Result<Answer, NoMemory>
    requires { IsVerdictInRange verdict.now }
    ensures { IfOk result (IsAnswerOfKind (IsVerdictAnswer verdict.now)) }
{
    let text = report_text(alloc, verdict)?;
    Ok(Answer {
        status: status_of(verdict),
        text,
        stop: stop_in(verdict),
    })
}

/// The answer of the verdict that rejects with this finding.
pub fn finding_answer(alloc: Global, finding: Finding) -> Result<Answer, NoMemory>
    ensures { IfOk result (IsAnswerOfKind (IsVerdictAnswer (verdict.Rejected finding))) }
{
    verdict_answer(alloc, &Verdict::Rejected(finding))
}

/// The answer of the verdict that a log is malformed at this place.
pub fn malformed_answer(alloc: Global, log: Which, bad: &BadPlace) -> Result<Answer, NoMemory>
    ensures { IfOk result (IsAnswerOfKind (IsVerdictAnswer (verdict.Malformed log bad.now))) }
{
    verdict_answer(alloc, &Verdict::Malformed { log, bad: *bad })
}

/// The answer to a command that was done in full.
pub fn done_answer(text: Vec<u8>) -> Answer
    ensures status { result.status ≡ Status.Accepted }
    ensures text { result.text.items ≡ text.items }
{
    Answer {
        status: Status::Accepted,
        text,
        stop: None,
    }
}

/// The answer to logs that were not read into records: the first bad place, or there is none.
pub fn answer_without(alloc: Global, why: NoRecords) -> Result<Answer, Stop>
    ensures { DecidesWithout why result }
{
    match why {
        NoRecords::Malformed { log, bad } => Ok(malformed_answer(alloc, log, &bad)?),
        NoRecords::Stopped(stop) => Err(stop),
    }
}

/// The same, where this one log was not.
pub fn unread_answer(alloc: Global, log: Which, unread: ReadingFault) -> Result<Answer, Stop>
    ensures { DecidesUnread log unread result }
{
    answer_without(alloc, NoRecords::at(log, unread))
}
