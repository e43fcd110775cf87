//! The top call of filing: from the words of a command line to what is on file, the text that is
//! written and the status.
ghost use Rattle.std.specs.Prelude.{◌≡◌, ℕ, List, Some, map};
ghost use Rattle.std.specs.Option.{option_map};
ghost use Rattle.std.specs.String.{string_bytes};
ghost use Rattle.audit_base.specs.declared.terms.Which.{Which};
ghost use Rattle.desk_filing.specs.DigestOpeners.{KeepsDatabases};
ghost use Rattle.desk_filing.specs.Laws.{OneFilingTurn};
ghost use Rattle.desk_filing.specs.Runs.{FilesAsked, FilesRequest, filing_call};
ghost use Rattle.desk_filing.specs.Steps.{RefusesWords};
ghost use Rattle.desk_filing.specs.Words.{filing_request_of};
ghost use Rattle.log_source.specs.Sinks.{SinkStays};
ghost use Rattle.log_source.specs.Sources.{longest_read};
ghost use Rattle.log_verdict.specs.Steps.{reading_within, KeepsShelfLogs};

use crate::checking_databases::check;
use crate::databases::file_judged;
use crate::days::judge_day;
use crate::judging::judge_symbol;
use crate::laws::one_filing_turn;
use crate::opener::DigestOpener;
use crate::requests::{FilingCommand, FilingRequest};
use crate::words::read_filing_words;
use case_run::statuses::CaseStatus;
use case_run::writing::write_text;
use command_words::requests::WordsFault;
use desk_words::texts::desk_usage_text;
use log_digests::digest_shelf::DigestShelf;
use log_digests::same_logs::{SameLogs, ShelfGhost};
use log_source::shelf::Shelf;
use log_source::sink::Sink;
use log_verdict::runs::RunEnd;
use log_verdict::sources::{LogSources, Source};
use record_verdict::questions::Question;
use seeded_hash::seed::HashSeed;
use std::alloc::Global;
use std::marker::Brand;

/// What a call hands back: the shelf that its logs were read from; and the keeper of what is on
/// file, where the database was opened.
#[derive(Drop)]
pub struct ShelfAndKeeper<F, B> {
    pub shelf: F,
    pub keeper: Option<B>,
}

/// Answers words that ask for nothing: by the usage line, where they are not well-formed.
fn refuse_words<K: Sink>(out: &mut K, fault: WordsFault) -> CaseStatus
    ensures writes { RefusesWords fault (K.state out.old) (K.state out.new) result }
    ensures stays { SinkStays (K.state out.old) (K.state out.new) }
{
    match fault {
        WordsFault::Usage => write_text(out, desk_usage_text(), CaseStatus::Usage),
        WordsFault::Memory => CaseStatus::Memory,
    }
}

/// Does what a request asks for over a shelf that takes the digests of what is read from it.
fn run_over<'a, F: Shelf, K: Sink, O: DigestOpener>(
    alloc: Global,
    seed: HashSeed,
    request: &FilingRequest,
    shelf: &mut DigestShelf<'a, F>,
    out: &mut K,
    opener: &mut O,
) -> RunEnd<CaseStatus, Option<O::Book>>
    ensures files { let shelves = ⟦<DigestShelf<'a, F> as Shelf>⟧ in
        let r = reading_within longest_read shelves shelf.old shelf.new in
        FilesRequest (filing_call r (O.state opener.old) (O.state opener.new)
        (option_map O.Book.state result.back)) request.now (K.state out.old) (K.state out.new)
        result.status }
    ensures opener { KeepsDatabases (O.state opener.old) (O.state opener.new) }
    ensures stays { SinkStays (K.state out.old) (K.state out.new) }
{
    let logs = &request.logs;
    let orders = Source::of_day(logs.orders.as_str(), logs.orders_form, seed);
    let trades = Source::of_day(logs.trades.as_str(), logs.trades_form, seed);
    match &request.command {
        FilingCommand::File { rule, symbol } => {
            let question = Question {
                rule: *rule,
                symbol: *symbol,
                table: false,
            };
            let judged = judge_symbol(alloc, shelf, request, &question, &orders, &trades);
            file_judged(alloc, request, judged, out, opener)
        }
        FilingCommand::FileAll { rule } => {
            let judged = judge_day(alloc, shelf, request, *rule, &orders, &trades);
            file_judged(alloc, request, judged, out, opener)
        }
        FilingCommand::Check => {
            let sources = LogSources { orders, trades };
            check(alloc, shelf, request, &sources, out, opener)
        }
    }
}

/// Does what a request asks for over a shelf of these logs, with those under its names.
fn run_request<L: ShelfGhost, F: Shelf, K: Sink, O: DigestOpener>(
    alloc: Global,
    seed: HashSeed,
    request: &FilingRequest,
    shelf: F,
    out: &mut K,
    opener: &mut O,
) -> RunEnd<CaseStatus, ShelfAndKeeper<F, O::Book>>
    requires tells { F.tells shelf ≡ L.tells }
    requires logs { (which : Which) (name : List ℕ) →
        F.log_of shelf which name ≡ L.log_of which name }
    ensures logs { KeepsShelfLogs F.Shelf shelf result.back.shelf }
    ensures files { FilesAsked F.Shelf shelf result.back.shelf (Some request.now)
        (O.state opener.old) (O.state opener.new) (option_map O.Book.state result.back.keeper)
        (K.state out.old) (K.state out.new) result.status }
    ensures opener { KeepsDatabases (O.state opener.old) (O.state opener.new) }
    ensures stays { SinkStays (K.state out.old) (K.state out.new) }
{
    let (orders, trades) = (request.logs.orders.as_str(), request.logs.trades.as_str());
    let same = SameLogs::<L, F>::of(shelf);
    let mut taking = DigestShelf::over(same, orders, trades);
    let ran = run_over(alloc, seed, request, &mut taking, out, opener);
    RunEnd {
        status: ran.status,
        stop: ran.stop,
        back: ShelfAndKeeper {
            shelf: taking.into_shelf().into_shelf(),
            keeper: ran.back,
        },
    }
}

/// Files the verdicts on two logs in a database, with the digests of their bytes, or tells whether
/// two logs are those of a case that is on file there. The status is answered; the shelf is handed
/// back, and the keeper of what is on file, where the database was opened.
///
/// The words are those of `read_filing_words`. `Usage` comes exactly where they are not well-formed
/// (`WriteFault` where the usage line could not be written), and the shelf is then as it was. Both
/// logs are read and judged before the database is opened, and it is opened only to check, or where
/// they come to cases that are to be filed. Each log is started once, the trade log only after an
/// order log in its grammar; `check` goes over them at most twice. The verdict that is filed or
/// compared is of the bytes that were read last, and so are the digests, whether the logs of the
/// shelf are known or not. The shelf has under every name what it had.
/// `ReadFault` comes only where a log could not be read, `TooLong` where one has more than
/// 34,359,738,368 bytes, `Malformed` where one is not in its grammar, `KeeperFault` only where the database could not be opened or its keeper's faults rose,
/// `WriteFault` only where the sink's did, and `Memory` where memory ran out. Only after `Done`,
/// and after `WriteFault` in its place, something was filed: all cases of the command, or none. Of
/// a log that was refused nothing is filed. What a command leaves of logs and of what is on file is
/// one (`one_filing_turn`), and `check` finds what `file` filed to be the same (`filed_is_same`).
///
/// The hashes by which names are found begin with the fixed seed: see `run_filing_seeded` for logs
/// whose names may have been chosen to make this slow.
pub fn run_filing<F: Shelf, K: Sink, O: DigestOpener>(
    alloc: Global,
    words: &[String],
    shelf: F,
    out: &mut K,
    opener: &mut O,
) -> RunEnd<CaseStatus, ShelfAndKeeper<F, O::Book>>
    ensures files { FilesAsked F.Shelf shelf result.back.shelf
        (filing_request_of (map string_bytes words.now)) (O.state opener.old) (O.state opener.new)
        (option_map O.Book.state result.back.keeper) (K.state out.old) (K.state out.new)
        result.status }
    ensures logs { KeepsShelfLogs F.Shelf shelf result.back.shelf }
    ensures opener { KeepsDatabases (O.state opener.old) (O.state opener.new) }
    ensures sink { SinkStays (K.state out.old) (K.state out.new) }
    ensures one { OneFilingTurn }
{
    run_filing_seeded(alloc, HashSeed::fixed(), words, shelf, out, opener)
}

/// The same as `run_filing`, with hashes of this seed. No answer depends on the seed.
pub fn run_filing_seeded<F: Shelf, K: Sink, O: DigestOpener>(
    alloc: Global,
    seed: HashSeed,
    words: &[String],
    shelf: F,
    out: &mut K,
    opener: &mut O,
) -> RunEnd<CaseStatus, ShelfAndKeeper<F, O::Book>>
    ensures files { FilesAsked F.Shelf shelf result.back.shelf
        (filing_request_of (map string_bytes words.now)) (O.state opener.old) (O.state opener.new)
        (option_map O.Book.state result.back.keeper) (K.state out.old) (K.state out.new)
        result.status }
    ensures logs { KeepsShelfLogs F.Shelf shelf result.back.shelf }
    ensures opener { KeepsDatabases (O.state opener.old) (O.state opener.new) }
    ensures sink { SinkStays (K.state out.old) (K.state out.new) }
    ensures one { OneFilingTurn }
{
    one_filing_turn();
    match read_filing_words(alloc, words) {
        Ok(request) => { run_request::<Brand, F, K, O>(alloc, seed, &request, shelf, out, opener) }
        Err(fault) => RunEnd {
            status: refuse_words(out, fault),
            stop: None,
            back: ShelfAndKeeper {
                shelf,
                keeper: None,
            },
        },
    }
}
