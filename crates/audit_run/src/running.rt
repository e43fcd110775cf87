//! The top call: from the words of a command line to the text that is written and the status.
ghost use Rattle.std.specs.Prelude.{map};
ghost use Rattle.std.specs.String.{string_bytes};
ghost use Rattle.log_source.specs.Sinks.{SinkStays};
ghost use Rattle.command_words.specs.Words.{MayBeAsked};
ghost use Rattle.command_run.specs.Runs.{AnswersCommand, AnswersTooLong};
ghost use Rattle.audit_run.specs.Requests.{auditor_command_of};
ghost use Rattle.audit_run.specs.TopCall.{AuditorAnswers};
ghost use Rattle.log_verdict.specs.Steps.{reading, KeepsShelfLogs, FaultsNeverFall};
ghost use Rattle.command_words.specs.Words.{request_of};

use super::commands::answer_request;
use super::program::Auditor;
use audit_report::statuses::Status;
use command_run::laws::{held_logs_are_answered, memory_is_answered};
use command_run::writing::{write_answer, write_usage};
use command_words::requests::{Request, WordsFault, read_words};
use log_source::shelf::Shelf;
use log_source::sink::Sink;
use log_verdict::laws::one_verdict;
use log_verdict::runs::RunEnd;
use seeded_hash::seed::HashSeed;
use std::alloc::Global;

/// Answers well-formed words: the whole answer is made, and then its text is written.
fn run_request<F: Shelf, K: Sink>(
    alloc: Global,
    seed: HashSeed,
    shelf: &mut F,
    out: &mut K,
    request: &Request,
) -> RunEnd<Status, ()>
    requires { MayBeAsked request.now }
    ensures logs { KeepsShelfLogs F.Shelf shelf.old shelf.new }
    ensures later { FaultsNeverFall (reading F.Shelf shelf.old shelf.new) }
    ensures stays { SinkStays (K.state out.old) (K.state out.new) }
    ensures answers { AnswersCommand (reading F.Shelf shelf.old shelf.new)
        (auditor_command_of request.now)
        (K.state out.old) (K.state out.new) result.status }
    ensures too_long { AnswersTooLong (reading F.Shelf shelf.old shelf.new) result.status }
{
    let decided = answer_request(alloc, seed, shelf, request);
    write_answer::<Auditor, K>(out, decided)
}

/// Runs a command: reads the words, then the logs that they name from the shelf, and writes the
/// text of the answer to them, or one line. The status is answered.
///
/// The words are those of the command line without the program's name. `Usage` comes only where
/// they are not well-formed (`WriteFault` where the usage line could not be written), `ReadFault`
/// only where a log could not be read, `TooLong` where one has more than 67,108,864 bytes,
/// `WriteFault` only where the sink's faults rose, and `Memory` where memory ran out, with nothing
/// written. What the shelf has under its names stays as it was.
///
/// The hashes by which names are found begin with the fixed seed: see `run_seeded` for logs whose
/// names may have been chosen to make this slow.
pub fn run<F: Shelf, K: Sink>(alloc: Global, words: &[String], shelf: &mut F, out: &mut K) -> Status
    ensures { AuditorAnswers F.Shelf (request_of (map string_bytes words.now)) shelf.old shelf.new
        (K.state out.old) (K.state out.new) result }
{
    run_seeded(alloc, HashSeed::fixed(), words, shelf, out).status
}

/// The same as `run`, with hashes of this seed, and with why there are no records of the logs,
/// where there are none. No answer depends on the seed. One that nobody knows beforehand keeps who
/// writes the logs from choosing names that hash alike.
pub fn run_seeded<F: Shelf, K: Sink>(
    alloc: Global,
    seed: HashSeed,
    words: &[String],
    shelf: &mut F,
    out: &mut K,
) -> RunEnd<Status, ()>
    ensures { AuditorAnswers F.Shelf (request_of (map string_bytes words.now)) shelf.old shelf.new
        (K.state out.old) (K.state out.new) result.status }
{
    // Laws that the answer rests on. They compute nothing.
    one_verdict();
    held_logs_are_answered::<Auditor>();
    memory_is_answered::<Auditor>();
    match read_words(alloc, words) {
        Ok(request) => run_request(alloc, seed, shelf, out, &request),
        Err(WordsFault::Usage) => RunEnd {
            status: write_usage::<Auditor, K>(out),
            stop: None,
            back: (),
        },
        Err(WordsFault::Memory) => RunEnd {
            status: Status::Memory,
            stop: None,
            back: (),
        },
    }
}
