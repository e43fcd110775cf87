//! The top call of `page`: from the words of a command line to the page that is written and the
//! status.
ghost use Rattle.std.specs.Prelude.{◌≡◌, ℕ, List, map};
ghost use Rattle.std.specs.String.{string_bytes};
ghost use Rattle.audit_base.specs.declared.terms.Which.{Which};
ghost use Rattle.command_run.specs.Deciding.{DecidesAnswer};
ghost use Rattle.log_source.specs.Sinks.{SinkStays};
ghost use Rattle.log_source.specs.Sources.{longest_read};
ghost use Rattle.log_verdict.specs.BothLogs.{StaysWithin};
ghost use Rattle.log_verdict.specs.Steps.{reading_within, FaultsNeverFall, KeepsShelfLogs};
ghost use Rattle.desk_page.specs.PageAnswers.{logs_in};
ghost use Rattle.desk_page.specs.Requests.{page_command};
ghost use Rattle.desk_page.specs.TopCall.{AnswersPage, AnswersPageRequest, AnswersPageWords, page_reading, RefusesOrLacksMemory};
ghost use Rattle.desk_page.specs.Words.{page_request_of};

use crate::answers::page_on;
use crate::drawings::Drawing;
use crate::program::{GivenPage, PageLogsGhost, Pages};
use crate::requests::PageRequest;
use crate::words::read_page_words;
use audit_report::statuses::Status;
use command_run::answers::Answer;
use command_run::laws::{both_logs_decide, held_logs_are_answered};
use command_run::writing::{write_answer, write_usage};
use command_words::requests::WordsFault;
use log_digests::digest_shelf::DigestShelf;
use log_digests::same_logs::{SameLogs, ShelfGhost};
use log_source::shelf::Shelf;
use log_source::sink::Sink;
use log_verdict::runs::RunEnd;
use log_verdict::sources::Source;
use log_verdict::stops::Stop;
use seeded_hash::seed::HashSeed;
use std::alloc::Global;
use std::marker::Brand;

/// The answer to a request over a shelf that takes the digests of what is read from it.
fn answer_page<'a, D: Drawing, W: PageLogsGhost, F: Shelf>(
    alloc: Global,
    seed: HashSeed,
    request: &PageRequest,
    shelf: &mut DigestShelf<'a, F>,
) -> Result<Answer, Stop>
    requires { let shelves = ⟦<DigestShelf<'a, F> as Shelf>⟧ in
        W.shelf ≡ logs_in (reading_within longest_read shelves shelf.old shelf.old) }
    ensures later { let shelves = ⟦<DigestShelf<'a, F> as Shelf>⟧ in
        FaultsNeverFall (reading_within longest_read shelves shelf.old shelf.new) }
    ensures decides { let shelves = ⟦<DigestShelf<'a, F> as Shelf>⟧ in
        DecidesAnswer (reading_within longest_read shelves shelf.old shelf.new)
        (page_command D.is_picture W.shelf request.now) result }
    ensures within { let shelves = ⟦<DigestShelf<'a, F> as Shelf>⟧ in
        StaysWithin (reading_within longest_read shelves shelf.old shelf.new) result }
{
    // A law that the answer rests on. It computes nothing.
    both_logs_decide::<Pages<D, W>, GivenPage<D, W>>();
    let logs = &request.logs;
    let orders = Source::of_day(logs.orders.as_str(), logs.orders_form, seed);
    let trades = Source::of_day(logs.trades.as_str(), logs.trades_form, seed);
    page_on::<D, F>(alloc, shelf, request, &orders, &trades)
}

/// Answers a request over a shelf of these logs that takes the digests of what is read from it.
fn run_over<'a, D: Drawing, W: PageLogsGhost, F: Shelf, K: Sink>(
    alloc: Global,
    seed: HashSeed,
    request: &PageRequest,
    shelf: &mut DigestShelf<'a, F>,
    out: &mut K,
) -> RunEnd<Status, ()>
    requires { let shelves = ⟦<DigestShelf<'a, F> as Shelf>⟧ in
        W.shelf ≡ logs_in (reading_within longest_read shelves shelf.old shelf.old) }
    ensures answers { let shelves = ⟦<DigestShelf<'a, F> as Shelf>⟧ in
        AnswersPage D.is_picture (reading_within longest_read shelves shelf.old shelf.new)
        request.now (K.state out.old) (K.state out.new) result.status }
    ensures stays { SinkStays (K.state out.old) (K.state out.new) }
{
    // A law that the answer rests on. It computes nothing.
    held_logs_are_answered::<Pages<D, W>>();
    let decided = answer_page::<D, W, F>(alloc, seed, request, shelf);
    write_answer::<Pages<D, W>, K>(out, decided)
}

/// Answers a request, with these logs of a shelf under its names.
fn run_known<D: Drawing, W: PageLogsGhost, F: Shelf, K: Sink>(
    alloc: Global,
    seed: HashSeed,
    request: &PageRequest,
    shelf: F,
    out: &mut K,
) -> RunEnd<Status, F>
    requires known { W.shelf ≡ logs_in (page_reading F.Shelf request.now.logs shelf shelf) }
    ensures answers { AnswersPageRequest D.is_picture F.Shelf request.now shelf result.back
        (K.state out.old) (K.state out.new) result.status }
    ensures stays { SinkStays (K.state out.old) (K.state out.new) }
{
    let (orders, trades) = (request.logs.orders.as_str(), request.logs.trades.as_str());
    let mut taking = DigestShelf::over(shelf, orders, trades);
    let ran = run_over::<D, W, F, K>(alloc, seed, request, &mut taking, out);
    RunEnd {
        status: ran.status,
        stop: ran.stop,
        back: taking.into_shelf(),
    }
}

/// Answers a request, with the logs of a shelf under its names.
fn run_named<D: Drawing, F: Shelf, K: Sink>(
    alloc: Global,
    seed: HashSeed,
    request: &PageRequest,
    shelf: F,
    out: &mut K,
) -> RunEnd<Status, F>
    ensures answers { AnswersPageRequest D.is_picture F.Shelf request.now shelf result.back
        (K.state out.old) (K.state out.new) result.status }
    ensures stays { SinkStays (K.state out.old) (K.state out.new) }
{
    run_known::<D, Brand, F, K>(alloc, seed, request, shelf, out)
}

/// Answers a request over a shelf that has these logs under all its names.
fn run_same<D: Drawing, L: ShelfGhost, F: Shelf, K: Sink>(
    alloc: Global,
    seed: HashSeed,
    request: &PageRequest,
    shelf: F,
    out: &mut K,
) -> RunEnd<Status, F>
    requires tells { F.tells shelf ≡ L.tells }
    requires logs { (which : Which) (name : List ℕ) →
        F.log_of shelf which name ≡ L.log_of which name }
    ensures answers { AnswersPageRequest D.is_picture F.Shelf request.now shelf result.back
        (K.state out.old) (K.state out.new) result.status }
    ensures stays { SinkStays (K.state out.old) (K.state out.new) }
    ensures logs { KeepsShelfLogs F.Shelf shelf result.back }
{
    let same = SameLogs::<L, F>::of(shelf);
    let ran = run_named::<D, SameLogs<L, F>, K>(alloc, seed, request, same, out);
    RunEnd {
        status: ran.status,
        stop: ran.stop,
        back: ran.back.into_shelf(),
    }
}

/// Answers a request. The shelf has under all its names what it had.
fn run_request<D: Drawing, F: Shelf, K: Sink>(
    alloc: Global,
    seed: HashSeed,
    request: &PageRequest,
    shelf: F,
    out: &mut K,
) -> RunEnd<Status, F>
    ensures answers { AnswersPageRequest D.is_picture F.Shelf request.now shelf result.back
        (K.state out.old) (K.state out.new) result.status }
    ensures stays { SinkStays (K.state out.old) (K.state out.new) }
    ensures logs { KeepsShelfLogs F.Shelf shelf result.back }
{
    run_same::<D, Brand, F, K>(alloc, seed, request, shelf, out)
}

/// Answers words that ask for nothing: by the usage line, where they are not well-formed.
fn refuse_words<D: Drawing, K: Sink>(out: &mut K, fault: WordsFault) -> Status
    ensures refuses { RefusesOrLacksMemory fault (K.state out.old) (K.state out.new) result }
    ensures stays { SinkStays (K.state out.old) (K.state out.new) }
{
    match fault {
        WordsFault::Usage => write_usage::<Pages<D, Brand>, K>(out),
        WordsFault::Memory => Status::Memory,
    }
}

/// Writes the page of the verdict of a rule on a symbol of two logs. The status is answered, and
/// the shelf is handed back.
///
/// The words are those of `read_page_words`. `Usage` comes exactly where they are not
/// well-formed (`WriteFault` where the usage line could not be written), and the shelf is then
/// as it was. `Accepted` and `Rejected` are those of the verdict, and the text is its page, with
/// the words of `desk offences` that give the verdict, and the SHA-256 digests of the bytes that it is
/// on. Where both logs are good,
/// the reports pair and no record has the symbol, the status is `Rejected` and the text one line,
/// that the symbol is absent. `Malformed` comes where a log is not in its grammar: the text is then
/// its first bad place, as of an audit. `ReadFault` comes only where a log could not be read,
/// `TooLong` where one has more than 34,359,738,368 bytes, `WriteFault` only where the sink's
/// faults rose, and `Memory` where memory ran out, and nothing was written. What the shelf has under
/// its names stays as it was.
///
/// The hashes by which names are found begin with the fixed seed: see `run_page_seeded` for logs
/// whose names may have been chosen to make this slow.
pub fn run_page<D: Drawing, F: Shelf, K: Sink>(
    alloc: Global,
    words: &[String],
    shelf: F,
    out: &mut K,
) -> RunEnd<Status, F>
    ensures answers { AnswersPageWords D.is_picture F.Shelf
        (page_request_of (map string_bytes words.now)) shelf result.back
        (K.state out.old) (K.state out.new) result.status }
    ensures sink { SinkStays (K.state out.old) (K.state out.new) }
    ensures logs { KeepsShelfLogs F.Shelf shelf result.back }
{
    run_page_seeded::<D, F, K>(alloc, HashSeed::fixed(), words, shelf, out)
}

/// The same as `run_page`, with hashes of this seed. No answer depends on the seed.
pub fn run_page_seeded<D: Drawing, F: Shelf, K: Sink>(
    alloc: Global,
    seed: HashSeed,
    words: &[String],
    shelf: F,
    out: &mut K,
) -> RunEnd<Status, F>
    ensures answers { AnswersPageWords D.is_picture F.Shelf
        (page_request_of (map string_bytes words.now)) shelf result.back
        (K.state out.old) (K.state out.new) result.status }
    ensures sink { SinkStays (K.state out.old) (K.state out.new) }
    ensures logs { KeepsShelfLogs F.Shelf shelf result.back }
{
    match read_page_words(alloc, words) {
        Ok(request) => run_request::<D, F, K>(alloc, seed, &request, shelf, out),
        Err(fault) => RunEnd {
            status: refuse_words::<D, K>(out, fault),
            stop: None,
            back: shelf,
        },
    }
}
