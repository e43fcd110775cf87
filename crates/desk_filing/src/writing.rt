//! Writing the one text of a call.
ghost use Rattle.case_run.specs.Turns.{EndsWithinOrHalts};
ghost use Rattle.desk_filing.specs.Runs.{EndsWithinOrAnswers, FilingCall, RunsRequest};
ghost use Rattle.desk_filing.specs.Steps.{DecidesRequest};
ghost use Rattle.desk_filing.specs.declared.requests.FilingRequest.{FilingRequest};
ghost use Rattle.log_source.specs.Sinks.{SinkStays};
ghost use Rattle.log_verdict.specs.Steps.{Reading};

use case_run::answers::CaseAnswer;
use case_run::halts::Halt;
use case_run::statuses::CaseStatus;
use case_run::writing::{write_halt, write_text};
use log_source::sink::Sink;
use log_verdict::runs::RunEnd;

/// Writes the text of an answer, or the line of a halt, and answers the status. Whatever decided
/// that, the status has its cause in it. Why there are no records of the logs, where there are
/// none, is handed on for whoever tells it.
pub(crate) fn write_decided<K: Sink>(
    out: &mut K,
    decided: Result<CaseAnswer, Halt>,
) -> RunEnd<CaseStatus, ()>
    ensures runs { (call : FilingCall) (request : FilingRequest)
        → DecidesRequest call request decided
        → RunsRequest call request (K.state out.old) (K.state out.new) result.status }
    ensures length { (r : Reading) → EndsWithinOrHalts r decided
        → EndsWithinOrAnswers r result.status }
    ensures stays { SinkStays (K.state out.old) (K.state out.new) }
{
    match decided {
        Ok(answer) => RunEnd {
            status: write_text(out, &answer.text, answer.status),
            stop: answer.stop,
            back: (),
        },
        Err(halt) => RunEnd {
            status: write_halt(out, halt),
            stop: halt.stop(),
            back: (),
        },
    }
}
