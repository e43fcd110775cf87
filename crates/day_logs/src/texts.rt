//! What is written of a day, and its status.
ghost use Rattle.std.specs.Prelude.{◌≡◌, IfOk};
ghost use Rattle.day_logs.specs.DayAnswerTexts.{day_answer_status, day_answer_text};

use crate::answers::DayAnswer;
use audit_base::faults::NoMemory;
use audit_report::reports::report_text;
use audit_report::statuses::Status;
use audit_report::verdicts::Verdict;
use std::alloc::Global;

/// The text of an answer, with what the symbols were judged by in the place of RULE. Finding 4 has
/// no symbol before its lines.
pub fn text_of_day(
    alloc: Global,
    answer: &DayAnswer,
    question_text: &[u8],
) -> Result<Vec<u8>, NoMemory>
    ensures { IfOk result (λ text. text.items ≡ day_answer_text question_text.now answer.now) }
{
    match answer {
        DayAnswer::Malformed { log, bad } => {
            let (log, bad) = (*log, *bad);
            report_text(alloc, &Verdict::Malformed { log, bad })
        }
        DayAnswer::Unpaired(finding) => report_text(alloc, &Verdict::Rejected(*finding)),
        DayAnswer::Judged(judged) => judged.text(alloc, question_text),
    }
}

/// The status of an answer: that of a day is `Rejected` where a symbol is.
pub fn status_of_day(answer: &DayAnswer) -> Status
    ensures { result ≡ day_answer_status answer.now }
{
    match answer {
        DayAnswer::Malformed { .. } => Status::Malformed,
        DayAnswer::Unpaired(_) => Status::Rejected,
        DayAnswer::Judged(judged) => {
            if judged.counts.rejected > 0 {
                Status::Rejected
            } else {
                Status::Accepted
            }
        }
    }
}
