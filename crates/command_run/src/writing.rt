//! Writing the one text of a call.
ghost use Rattle.std.specs.Prelude.{◌≡◌, ℕ, List, true, MatchResult};
ghost use Rattle.command_run.specs.Deciding.{DecidesAnswer, DecidesRest};
ghost use Rattle.command_run.specs.Runs.{AnswersCommand, AnswersTooLong, RefusesWords};
ghost use Rattle.command_run.specs.Writing.{AnswersStop, AnswersText, HasWritten};
ghost use Rattle.log_source.specs.Sinks.{SinkState, SinkStays};
ghost use Rattle.log_verdict.specs.BothLogs.{StaysWithin};
ghost use Rattle.log_verdict.specs.Steps.{Reading};

use super::answers::Answer;
use super::programs::Program;
use audit_report::reports::{read_fault_text, too_long_text};
use audit_report::statuses::Status;
use log_source::put::put_all;
use log_source::sink::Sink;
use log_verdict::runs::RunEnd;
use log_verdict::stops::{NoRecords, Stop};

/// Writes the text and answers the status, or `WriteFault` where the sink fails.
fn write_text<K: Sink>(out: &mut K, text: &[u8], status: Status) -> Status
    ensures writes { AnswersText (K.state out.old) (K.state out.new) status text.now result }
    ensures stays { SinkStays (K.state out.old) (K.state out.new) }
{
    match put_all(out, text) {
        Ok(()) => status,
        Err(_) => Status::WriteFault,
    }
}

/// Writes the line of a stop, and answers its status. Where memory ran out nothing is written.
fn write_stop<K: Sink>(out: &mut K, stop: Stop) -> Status
    ensures writes { AnswersStop (K.state out.old) (K.state out.new) stop result }
    ensures stays { SinkStays (K.state out.old) (K.state out.new) }
{
    match stop {
        Stop::ReadFault(log) => write_text(out, read_fault_text(log), Status::ReadFault),
        Stop::TooLong(log) => write_text(out, too_long_text(log), Status::TooLong),
        Stop::Memory => Status::Memory,
    }
}

/// Writes the text of an answer, or the line of a stop, and answers the status. Whatever command
/// of the program and whatever reading decided that, the status has its cause in them; and where
/// a log that was read is too long, the status says so, unless the sink failed. Why there are no
/// records of the logs, where there are none, is handed on for whoever tells it.
///
/// A command that writes while it reads has written a front of its text by then. What is decided
/// is the rest of it, and the status is that of the whole.
pub fn write_answer<P: Program, K: Sink>(
    out: &mut K,
    decided: Result<Answer, Stop>,
) -> RunEnd<Status, ()>
    ensures writes { let before = K.state out.old in
        let after = K.state out.new in
        MatchResult decided
        (λ answer. AnswersText before after answer.status answer.text.items result.status)
        (λ why. AnswersStop before after why result.status) }
    ensures answers { (request : P.Request) (r : Reading)
        → DecidesAnswer r (P.command request) decided
        → AnswersCommand r (P.command request) (K.state out.old) (K.state out.new)
        result.status }
    ensures rest { (request : P.Request) (r : Reading) (before : SinkState) (early : List ℕ)
        → (P.command request).writes_early ≡ true → HasWritten before (K.state out.old) early
        → DecidesRest r (P.command request) early decided
        → AnswersCommand r (P.command request) before (K.state out.new) result.status }
    ensures too_long { (r : Reading) → StaysWithin r decided → AnswersTooLong r result.status }
    ensures stays { SinkStays (K.state out.old) (K.state out.new) }
{
    match decided {
        Ok(answer) => RunEnd {
            status: write_text(out, &answer.text, answer.status),
            stop: answer.stop,
            back: (),
        },
        Err(stop) => RunEnd {
            status: write_stop(out, stop),
            stop: Some(NoRecords::Stopped(stop)),
            back: (),
        },
    }
}

/// Writes how the command line of the program is used, and answers `Usage`, or `WriteFault` where
/// the sink fails.
pub fn write_usage<P: Program, K: Sink>(out: &mut K) -> Status
    ensures refuses { RefusesWords P.usage (K.state out.old) (K.state out.new) result }
    ensures stays { SinkStays (K.state out.old) (K.state out.new) }
{
    write_text(out, P::usage_line(), Status::Usage)
}
