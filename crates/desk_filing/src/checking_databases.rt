//! `check` over the database that it opens, after both logs were looked at.
ghost use Rattle.std.specs.Prelude.{◌≡◌};
ghost use Rattle.std.specs.Option.{option_map};
ghost use Rattle.desk_filing.specs.DigestOpeners.{KeepsDatabases};
ghost use Rattle.desk_filing.specs.Runs.{EndsWithinOrAnswers, RunsRequest, filing_call};
ghost use Rattle.desk_filing.specs.Steps.{AnyRecords, GoesOn, NamesLogs, ReadsRecords, both_readings};
ghost use Rattle.desk_filing.specs.declared.requests.FilingCommand.TheVariants.{Check};
ghost use Rattle.log_source.specs.Sinks.{SinkStays};
ghost use Rattle.log_verdict.specs.BothLogs.{HaveOneLimit};
ghost use Rattle.log_verdict.specs.Steps.{reading_by};
ghost use Rattle.log_verdict.specs.Steps.{FaultsNeverFall, KeepsShelfLogs, Reading};

use crate::checking::{check_in, look_at_logs};
use crate::databases::end_unopened;
use crate::opener::{DigestOpener, MissingDatabase};
use crate::requests::FilingRequest;
use crate::writing::write_decided;
use case_run::halts::Halt;
use case_run::statuses::CaseStatus;
use log_digests::digest_shelf::DigestShelf;
use log_source::shelf::Shelf;
use log_source::sink::Sink;
use log_verdict::runs::RunEnd;
use log_verdict::sources::LogSources;
use std::alloc::Global;

/// Opens the database, where there is one, and tells whether the logs are those of the case.
fn check_database<'a, F: Shelf, K: Sink, O: DigestOpener>(
    alloc: Global,
    shelf: &mut DigestShelf<'a, F>,
    request: &FilingRequest,
    logs: &LogSources<'_>,
    out: &mut K,
    opener: &mut O,
) -> RunEnd<CaseStatus, Option<O::Book>>
    requires limit { HaveOneLimit logs.now.orders logs.now.trades }
    requires names { NamesLogs request.now.logs logs.now.orders logs.now.trades }
    requires asked { request.now.command ≡ Check }
    ensures logs { KeepsShelfLogs ⟦<DigestShelf<'a, F> as Shelf>⟧ shelf.old shelf.new }
    ensures later { let shelves = ⟦<DigestShelf<'a, F> as Shelf>⟧ in
        FaultsNeverFall (reading_by logs.now.orders shelves shelf.old shelf.new) }
    ensures runs { let shelves = ⟦<DigestShelf<'a, F> as Shelf>⟧ in
        let second = reading_by logs.now.orders shelves shelf.old shelf.new in (first : Reading)
        → GoesOn first second → ReadsRecords first request.now.logs AnyRecords
        → RunsRequest (filing_call (both_readings first second) (O.state opener.old)
        (O.state opener.new) (option_map O.Book.state result.back)) request.now
        (K.state out.old) (K.state out.new) result.status }
    ensures length { let shelves = ⟦<DigestShelf<'a, F> as Shelf>⟧ in
        let second = reading_by logs.now.orders shelves shelf.old shelf.new in
        EndsWithinOrAnswers second result.status }
    ensures opener { KeepsDatabases (O.state opener.old) (O.state opener.new) }
    ensures stays { SinkStays (K.state out.old) (K.state out.new) }
{
    match opener.open(request.database.as_str(), MissingDatabase::Refuse) {
        Ok(mut keeper) => {
            let answer = check_in(
                alloc,
                shelf,
                request,
                &logs.orders,
                &logs.trades,
                &mut keeper,
            );
            let ran = write_decided(out, answer);
            RunEnd {
                status: ran.status,
                stop: ran.stop,
                back: Some(keeper),
            }
        }
        Err(fault) => end_unopened(out, Err(Halt::from(fault))),
    }
}

/// Tells whether two logs are those of a case on file.
pub(crate) fn check<'a, F: Shelf, K: Sink, O: DigestOpener>(
    alloc: Global,
    shelf: &mut DigestShelf<'a, F>,
    request: &FilingRequest,
    logs: &LogSources<'_>,
    out: &mut K,
    opener: &mut O,
) -> RunEnd<CaseStatus, Option<O::Book>>
    requires limit { HaveOneLimit logs.now.orders logs.now.trades }
    requires names { NamesLogs request.now.logs logs.now.orders logs.now.trades }
    requires asked { request.now.command ≡ Check }
    ensures later { let shelves = ⟦<DigestShelf<'a, F> as Shelf>⟧ in
        FaultsNeverFall (reading_by logs.now.orders shelves shelf.old shelf.new) }
    ensures runs { let shelves = ⟦<DigestShelf<'a, F> as Shelf>⟧ in
        let r = reading_by logs.now.orders shelves shelf.old shelf.new in
        RunsRequest (filing_call r (O.state opener.old) (O.state opener.new)
        (option_map O.Book.state result.back)) request.now (K.state out.old) (K.state out.new)
        result.status }
    ensures length { let shelves = ⟦<DigestShelf<'a, F> as Shelf>⟧ in
        EndsWithinOrAnswers (reading_by logs.now.orders shelves shelf.old shelf.new) result.status }
    ensures opener { KeepsDatabases (O.state opener.old) (O.state opener.new) }
    ensures stays { SinkStays (K.state out.old) (K.state out.new) }
{
    match look_at_logs(alloc, shelf, request, &logs.orders, &logs.trades) {
        Ok(None) => check_database(alloc, shelf, request, logs, out, opener),
        Ok(Some(answer)) => end_unopened(out, Ok(answer)),
        Err(halt) => end_unopened(out, Err(halt)),
    }
}
