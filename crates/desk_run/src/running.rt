//! The top call of `desk`: from the words of a command line to the text that is written and the
//! status.
ghost use Rattle.std.specs.Prelude.{map};
ghost use Rattle.std.specs.String.{string_bytes};
ghost use Rattle.command_run.specs.Runs.{AnswersCommand, AnswersTooLong};
ghost use Rattle.desk_run.specs.PlainMessages.{WritesMessagesOf};
ghost use Rattle.desk_run.specs.Requests.{desk_command_of};
ghost use Rattle.desk_run.specs.TopCall.{desk_reading, DeskAnswers};
ghost use Rattle.desk_words.specs.declared.requests.DeskRequest.TheVariants.{Early, Whole};
ghost use Rattle.desk_words.specs.Words.{desk_request_of, MayBeAskedEarly, MayBeAskedOfDesk, MayBeAskedWhole};
ghost use Rattle.log_source.specs.Sinks.{SinkStays};
ghost use Rattle.log_verdict.specs.Steps.{FaultsNeverFall, KeepsShelfLogs};

use super::commands::answer_whole;
use super::generated::run_orders;
use super::plain::run_plain;
use super::program::Desk;
use audit_report::statuses::Status;
use command_run::laws::{held_logs_are_answered, memory_is_answered};
use command_run::writing::{write_answer, write_usage};
use command_words::requests::WordsFault;
use desk_words::requests::{DeskRequest, EarlyRequest, WholeRequest, read_desk_words};
use log_source::shelf::Shelf;
use log_source::sink::Sink;
use log_verdict::runs::RunEnd;
use seeded_hash::seed::HashSeed;
use std::alloc::Global;

/// Answers well-formed words whose command makes its whole answer before it writes.
fn run_whole<F: Shelf, K: Sink>(
    alloc: Global,
    seed: HashSeed,
    shelf: &mut F,
    out: &mut K,
    request: &WholeRequest,
) -> RunEnd<Status, ()>
    requires { MayBeAskedWhole request.now }
    ensures logs { KeepsShelfLogs F.Shelf shelf.old shelf.new }
    ensures later { FaultsNeverFall (desk_reading F.Shelf shelf.old shelf.new) }
    ensures stays { SinkStays (K.state out.old) (K.state out.new) }
    ensures answers { AnswersCommand (desk_reading F.Shelf shelf.old shelf.new)
        (desk_command_of (Whole request.now)) (K.state out.old) (K.state out.new)
        result.status }
    ensures too_long { AnswersTooLong (desk_reading F.Shelf shelf.old shelf.new)
        result.status }
{
    let decided = answer_whole(alloc, seed, shelf, request);
    write_answer::<Desk, K>(out, decided)
}

/// Answers well-formed words whose command writes its answer while it makes it.
fn run_early<F: Shelf, K: Sink>(
    alloc: Global,
    shelf: &mut F,
    out: &mut K,
    request: &EarlyRequest,
) -> RunEnd<Status, ()>
    requires { MayBeAskedEarly request.now }
    ensures logs { KeepsShelfLogs F.Shelf shelf.old shelf.new }
    ensures later { FaultsNeverFall (desk_reading F.Shelf shelf.old shelf.new) }
    ensures stays { SinkStays (K.state out.old) (K.state out.new) }
    ensures answers { AnswersCommand (desk_reading F.Shelf shelf.old shelf.new)
        (desk_command_of (Early request.now)) (K.state out.old) (K.state out.new)
        result.status }
    ensures messages { WritesMessagesOf (Early request.now)
        (desk_reading F.Shelf shelf.old shelf.new) (K.state out.old) (K.state out.new)
        result.status }
    ensures too_long { AnswersTooLong (desk_reading F.Shelf shelf.old shelf.new)
        result.status }
{
    match request {
        EarlyRequest::Orders { start, count, form } => RunEnd {
            status: run_orders(alloc, out, *start, *count, *form),
            stop: None,
            back: (),
        },
        EarlyRequest::Plain { day, dress } => run_plain(alloc, shelf, out, day, dress),
    }
}

/// Answers well-formed words.
fn run_request<F: Shelf, K: Sink>(
    alloc: Global,
    seed: HashSeed,
    shelf: &mut F,
    out: &mut K,
    request: &DeskRequest,
) -> RunEnd<Status, ()>
    requires { MayBeAskedOfDesk request.now }
    ensures logs { KeepsShelfLogs F.Shelf shelf.old shelf.new }
    ensures later { FaultsNeverFall (desk_reading F.Shelf shelf.old shelf.new) }
    ensures stays { SinkStays (K.state out.old) (K.state out.new) }
    ensures answers { AnswersCommand (desk_reading F.Shelf shelf.old shelf.new)
        (desk_command_of request.now) (K.state out.old) (K.state out.new)
        result.status }
    ensures messages { WritesMessagesOf request.now (desk_reading F.Shelf shelf.old shelf.new)
        (K.state out.old) (K.state out.new) result.status }
    ensures too_long { AnswersTooLong (desk_reading F.Shelf shelf.old shelf.new)
        result.status }
{
    match request {
        DeskRequest::Whole(asked) => run_whole(alloc, seed, shelf, out, asked),
        DeskRequest::Early(asked) => run_early(alloc, shelf, out, asked),
    }
}

/// Runs a command of `desk`: reads the words, then the logs that they name from the shelf, and
/// writes the text of the answer to them, or one line. The status is answered.
///
/// The words are those of the command line without the program's name. `Usage` comes only where
/// they are not well-formed (`WriteFault` where the usage line could not be written), `ReadFault`
/// only where a log could not be read, `TooLong` where one has more than 34,359,738,368 bytes,
/// `WriteFault` only where the sink's faults rose, and `Memory` where memory ran out: `plain` and
/// `orders` have then written a beginning of their text, every other command nothing. `Rejected`
/// comes where a symbol of the share, or of `offences`, is rejected, where `offences` finds no
/// record of its symbol, or where the reports of the trade log do not pair. What the shelf has under
/// its names stays as it was.
///
/// The hashes by which names are found begin with the fixed seed: see `run_desk_seeded` for logs
/// whose names may have been chosen to make this slow.
pub fn run_desk<F: Shelf, K: Sink>(
    alloc: Global,
    words: &[String],
    shelf: &mut F,
    out: &mut K,
) -> Status
    ensures { DeskAnswers F.Shelf (desk_request_of (map string_bytes words.now))
        shelf.old shelf.new (K.state out.old) (K.state out.new) result }
{
    run_desk_seeded(alloc, HashSeed::fixed(), words, shelf, out).status
}

/// The same as `run_desk`, with hashes of this seed, and with why there are no records of the logs,
/// where there are none. No answer depends on the seed. One that nobody knows beforehand keeps who
/// writes the logs from choosing names that hash alike.
pub fn run_desk_seeded<F: Shelf, K: Sink>(
    alloc: Global,
    seed: HashSeed,
    words: &[String],
    shelf: &mut F,
    out: &mut K,
) -> RunEnd<Status, ()>
    ensures { DeskAnswers F.Shelf (desk_request_of (map string_bytes words.now))
        shelf.old shelf.new (K.state out.old) (K.state out.new) result.status }
{
    // Laws that the answer rests on. They compute nothing.
    held_logs_are_answered::<Desk>();
    memory_is_answered::<Desk>();
    match read_desk_words(alloc, words) {
        Ok(request) => run_request(alloc, seed, shelf, out, &request),
        Err(WordsFault::Usage) => RunEnd {
            status: write_usage::<Desk, K>(out),
            stop: None,
            back: (),
        },
        Err(WordsFault::Memory) => RunEnd {
            status: Status::Memory,
            stop: None,
            back: (),
        },
    }
}
