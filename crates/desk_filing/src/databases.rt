//! Opening the database, after both logs were read and judged: what is filed in it, and what is
//! written.
ghost use Rattle.std.specs.Prelude.{◌≡◌, None};
ghost use Rattle.std.specs.Option.{option_map};
ghost use Rattle.case_run.specs.Turns.{EndsWithinOrHalts};
ghost use Rattle.desk_filing.specs.DigestOpeners.{KeepsDatabases};
ghost use Rattle.desk_filing.specs.Runs.{EndsWithinOrAnswers, FilingCall, RunsRequest};
ghost use Rattle.desk_filing.specs.Runs.{filing_call, missing_database};
ghost use Rattle.desk_filing.specs.Steps.{DecidesRequest, JudgesLogs, ReadsCases, case_lines};
ghost use Rattle.desk_filing.specs.declared.requests.FilingRequest.{FilingRequest as FilingRequestSpec};
ghost use Rattle.log_source.specs.Sinks.{SinkStays};
ghost use Rattle.log_verdict.specs.Steps.{Reading};

use crate::answers::FilingOutcome;
use crate::filing::file_in;
use crate::lines::case_text;
use crate::opener::{DigestOpener, MissingDatabase};
use crate::requests::FilingRequest;
use crate::writing::write_decided;
use case_run::answers::CaseAnswer;
use case_run::halts::Halt;
use case_run::statuses::CaseStatus;
use digest_keeper::digested::DigestedCase;
use log_source::sink::Sink;
use log_verdict::runs::RunEnd;
use std::alloc::Global;

/// What a command leaves that opens no database: it hands back none.
pub(crate) fn end_unopened<K: Sink, B>(
    out: &mut K,
    decided: Result<CaseAnswer, Halt>,
) -> RunEnd<CaseStatus, Option<B>>
    ensures runs { (call : FilingCall) (request : FilingRequestSpec)
        → DecidesRequest call request decided
        → RunsRequest call request (K.state out.old) (K.state out.new) result.status }
    ensures length { (r : Reading) → EndsWithinOrHalts r decided
        → EndsWithinOrAnswers r result.status }
    ensures stays { SinkStays (K.state out.old) (K.state out.new) }
    ensures unopened { result.back ≡ None }
{
    let ran = write_decided(out, decided);
    RunEnd {
        status: ran.status,
        stop: ran.stop,
        back: None,
    }
}

/// Opens the database and files the cases, whose lines are this text.
fn file_with_text<K: Sink, O: DigestOpener>(
    alloc: Global,
    request: &FilingRequest,
    cases: &[DigestedCase],
    text: Vec<u8>,
    out: &mut K,
    opener: &mut O,
) -> RunEnd<CaseStatus, Option<O::Book>>
    requires text { text.items ≡ case_lines cases.now }
    requires made { missing_database request.now.command ≡ MissingDatabase.Make }
    ensures runs { (r : Reading) → ReadsCases r request.now cases.now → RunsRequest
        (filing_call r (O.state opener.old) (O.state opener.new)
        (option_map O.Book.state result.back)) request.now (K.state out.old) (K.state out.new) result.status }
    ensures opener { KeepsDatabases (O.state opener.old) (O.state opener.new) }
    ensures stays { SinkStays (K.state out.old) (K.state out.new) }
{
    match opener.open(request.database.as_str(), MissingDatabase::Make) {
        Ok(mut keeper) => {
            let answer = file_in(alloc, cases, text, &mut keeper);
            let ran = write_decided(out, answer);
            RunEnd {
                status: ran.status,
                stop: ran.stop,
                back: Some(keeper),
            }
        }
        Err(fault) => end_unopened(out, Err(Halt::from(fault))),
    }
}

/// Files the cases of two logs that were read. Their lines are made before the database is opened.
fn file_cases<K: Sink, O: DigestOpener>(
    alloc: Global,
    request: &FilingRequest,
    cases: &[DigestedCase],
    out: &mut K,
    opener: &mut O,
) -> RunEnd<CaseStatus, Option<O::Book>>
    requires made { missing_database request.now.command ≡ MissingDatabase.Make }
    ensures runs { (r : Reading) → ReadsCases r request.now cases.now → RunsRequest
        (filing_call r (O.state opener.old) (O.state opener.new)
        (option_map O.Book.state result.back)) request.now (K.state out.old) (K.state out.new) result.status }
    ensures opener { KeepsDatabases (O.state opener.old) (O.state opener.new) }
    ensures stays { SinkStays (K.state out.old) (K.state out.new) }
{
    match case_text(alloc, cases) {
        Ok(text) => file_with_text(alloc, request, cases, text, out, opener),
        Err(_) => end_unopened(out, Err(Halt::Memory)),
    }
}

/// Files what two logs come to, or writes the answer with which nothing is filed.
pub(crate) fn file_judged<K: Sink, O: DigestOpener>(
    alloc: Global,
    request: &FilingRequest,
    judged: Result<FilingOutcome, Halt>,
    out: &mut K,
    opener: &mut O,
) -> RunEnd<CaseStatus, Option<O::Book>>
    requires made { missing_database request.now.command ≡ MissingDatabase.Make }
    ensures runs { (r : Reading) → JudgesLogs r request.now judged → RunsRequest
        (filing_call r (O.state opener.old) (O.state opener.new)
        (option_map O.Book.state result.back)) request.now (K.state out.old) (K.state out.new) result.status }
    ensures length { (r : Reading) → EndsWithinOrHalts r judged
        → EndsWithinOrAnswers r result.status }
    ensures opener { KeepsDatabases (O.state opener.old) (O.state opener.new) }
    ensures stays { SinkStays (K.state out.old) (K.state out.new) }
{
    match judged {
        Ok(FilingOutcome::Cases(cases)) => file_cases(alloc, request, &cases, out, opener),
        Ok(FilingOutcome::Refused(answer)) => end_unopened(out, Ok(answer)),
        Err(halt) => end_unopened(out, Err(halt)),
    }
}
