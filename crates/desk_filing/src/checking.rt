//! What `check` answers: whether two logs are those of a case on file.
//!
//! The rule and the symbol of the case are known only when the database is open, which is after
//! both logs were read. So each log is read once to see that it can be read, of which nothing is
//! kept, and once more to audit it and to take its digest: that of the very bytes that were judged.
ghost use Rattle.std.specs.Prelude.{◌≡◌, ◌≤◌, Some, IfOk, MatchResult};
ghost use Rattle.case_run.specs.Turns.{EndsWithinOrHalts};
ghost use Rattle.desk_filing.specs.Judging.{IsComparedVerdict, LooksWithout, TellsFirst};
ghost use Rattle.desk_filing.specs.Steps.{ChecksKept, ChecksOrStops, ComparesOrStops, GoesOn};
ghost use Rattle.desk_filing.specs.Steps.{LooksAtLogs, NamesLogs};
ghost use Rattle.desk_filing.specs.Steps.{AnyRecords, ReadsRecords, StopsReading, both_readings};
ghost use Rattle.desk_filing.specs.Turns.{comparison_status};
ghost use Rattle.desk_filing.specs.declared.requests.FilingCommand.TheVariants.{Check};
ghost use Rattle.log_verdict.specs.BothLogs.{HaveOneLimit};
ghost use Rattle.log_verdict.specs.Steps.{reading_by, FaultsNeverFall, KeepsShelfLogs, Reading};

use crate::differences::{AuditedLogs, CaseDifference, first_difference};
use crate::digested_verdicts::{DigestedVerdict, digested_verdict_on};
use crate::judging::malformed_answer;
use crate::lines::{comparison_text, no_case_text, no_digest_text};
use crate::requests::FilingRequest;
use audit_base::faults::NoMemory;
use audit_base::names::Name;
use audit_base::terms::Rule;
use audit_report::verdicts::Verdict;
use case_keeper::case::Offence;
use case_run::answers::{CaseAnswer, offence_of};
use case_run::halts::Halt;
use case_run::statuses::CaseStatus;
use digest_keeper::digested::{DigestedCase, KeptCase};
use digest_keeper::keeper::DigestKeeper;
use log_digests::digest_shelf::DigestShelf;
use log_digests::digests::LogDigests;
use log_source::shelf::Shelf;
use log_verdict::reading_through::read_through;
use log_verdict::sources::Source;
use log_verdict::stops::NoRecords;
use record_verdict::questions::Question;
use std::alloc::Global;

/// The answer to two logs that were not read into records: to their first bad place, or why there
/// is none.
fn look_without(alloc: Global, why: NoRecords) -> Result<Option<CaseAnswer>, Halt>
    ensures { LooksWithout why result }
{
    match why {
        NoRecords::Malformed { log, bad } => Ok(Some(malformed_answer(alloc, log, &bad)?)),
        NoRecords::Stopped(stop) => Err(Halt::from(stop)),
    }
}

/// Nothing, where both logs can be read and are in their grammar; else the answer to them. Nothing
/// of the order log is kept.
pub(crate) fn look_at_logs<F: Shelf>(
    alloc: Global,
    shelf: &mut F,
    request: &FilingRequest,
    orders: &Source<'_>,
    trades: &Source<'_>,
) -> Result<Option<CaseAnswer>, Halt>
    requires limit { HaveOneLimit orders.now trades.now }
    requires names { NamesLogs request.now.logs orders.now trades.now }
    ensures logs { KeepsShelfLogs F.Shelf shelf.old shelf.new }
    ensures later { FaultsNeverFall (reading_by orders.now F.Shelf shelf.old shelf.new) }
    ensures looks { let r = reading_by orders.now F.Shelf shelf.old shelf.new in
        MatchResult result (LooksAtLogs r request.now) (StopsReading r request.now) }
    ensures within { EndsWithinOrHalts (reading_by orders.now F.Shelf shelf.old shelf.new)
        result }
{
    match read_through(alloc, shelf, orders, trades) {
        Ok(()) => Ok(None),
        Err(why) => look_without(alloc, why),
    }
}

/// The status of what differs first, or of nothing.
fn comparison_status(difference: Option<CaseDifference>) -> CaseStatus
    ensures { result ≡ comparison_status difference }
{
    match difference {
        Some(_) => CaseStatus::Refused,
        None => CaseStatus::Done,
    }
}

/// How a verdict compares with the one on file.
fn comparison(
    alloc: Global,
    label: &Name,
    filed: &AuditedLogs,
    now: &AuditedLogs,
) -> Result<CaseAnswer, NoMemory>
    ensures { IfOk result (TellsFirst label.now filed.now now.now) }
{
    let difference = first_difference(filed, now);
    Ok(CaseAnswer {
        status: comparison_status(difference),
        text: comparison_text(alloc, label, difference)?,
        stop: None,
    })
}

/// How an audit that ended so, on logs of these digests, compares with a case on logs of those.
fn compared_audit(
    alloc: Global,
    label: &Name,
    filed: &DigestedCase,
    digests: &LogDigests,
    offence: Option<Offence>,
) -> Result<CaseAnswer, NoMemory>
    ensures { IfOk result (TellsFirst label.now
        (record { digests = filed.now.digests; offence = filed.now.case.offence })
        (record { digests = digests.now; offence = offence })) }
{
    let before = AuditedLogs {
        digests: filed.digests,
        offence: filed.case.offence,
    };
    let now = AuditedLogs {
        digests: *digests,
        offence,
    };
    comparison(alloc, label, &before, &now)
}

/// What a verdict comes to beside a case with its digests.
fn compared(
    alloc: Global,
    label: &Name,
    filed: &DigestedCase,
    made: &DigestedVerdict,
) -> Result<CaseAnswer, NoMemory>
    ensures { IfOk result (IsComparedVerdict label.now filed.now.case filed.now.digests
        made.now.digests made.now.verdict) }
{
    match &made.verdict {
        Verdict::Accepted(_) => compared_audit(alloc, label, filed, &made.digests, None),
        Verdict::Rejected(finding) => {
            let offence = Some(offence_of(finding));
            compared_audit(alloc, label, filed, &made.digests, offence)
        }
        Verdict::Malformed { log, bad } => malformed_answer(alloc, *log, bad),
    }
}

/// Audits both logs by the rule of a case, on its symbol, and tells what is not as the case has it.
fn compare<'a, F: Shelf>(
    alloc: Global,
    shelf: &mut DigestShelf<'a, F>,
    request: &FilingRequest,
    filed: &DigestedCase,
    orders: &Source<'_>,
    trades: &Source<'_>,
) -> Result<CaseAnswer, Halt>
    requires limit { HaveOneLimit orders.now trades.now }
    requires names { NamesLogs request.now.logs orders.now trades.now }
    requires asked { request.now.command ≡ Check }
    ensures logs { KeepsShelfLogs ⟦<DigestShelf<'a, F> as Shelf>⟧ shelf.old shelf.new }
    ensures later { let shelves = ⟦<DigestShelf<'a, F> as Shelf>⟧ in
        FaultsNeverFall (reading_by orders.now shelves shelf.old shelf.new) }
    ensures compares { let shelves = ⟦<DigestShelf<'a, F> as Shelf>⟧ in
        ComparesOrStops (reading_by orders.now shelves shelf.old shelf.new) request.now
        filed.now.case filed.now.digests result }
    ensures within { let shelves = ⟦<DigestShelf<'a, F> as Shelf>⟧ in
        EndsWithinOrHalts (reading_by orders.now shelves shelf.old shelf.new) result }
{
    let question = Question {
        rule: filed.case.rule,
        symbol: filed.case.symbol,
        table: false,
    };
    match digested_verdict_on(alloc, shelf, &question, orders, trades) {
        Ok(made) => Ok(compared(alloc, &request.label, filed, &made)?),
        Err(stop) => Err(Halt::from(stop)),
    }
}

/// The answer about a case that is on file: it is compared, if it has digests.
fn check_kept<'a, F: Shelf>(
    alloc: Global,
    shelf: &mut DigestShelf<'a, F>,
    request: &FilingRequest,
    kept: &KeptCase,
    orders: &Source<'_>,
    trades: &Source<'_>,
) -> Result<CaseAnswer, Halt>
    requires limit { HaveOneLimit orders.now trades.now }
    requires names { NamesLogs request.now.logs orders.now trades.now }
    requires asked { request.now.command ≡ Check }
    ensures logs { KeepsShelfLogs ⟦<DigestShelf<'a, F> as Shelf>⟧ shelf.old shelf.new }
    ensures later { let shelves = ⟦<DigestShelf<'a, F> as Shelf>⟧ in
        FaultsNeverFall (reading_by orders.now shelves shelf.old shelf.new) }
    ensures checks { let shelves = ⟦<DigestShelf<'a, F> as Shelf>⟧ in (first : Reading)
        → GoesOn first (reading_by orders.now shelves shelf.old shelf.new)
        → ReadsRecords first request.now.logs AnyRecords
        → ChecksKept (both_readings first (reading_by orders.now shelves shelf.old shelf.new))
        request.now (Some kept.now) result }
    ensures within { let shelves = ⟦<DigestShelf<'a, F> as Shelf>⟧ in
        EndsWithinOrHalts (reading_by orders.now shelves shelf.old shelf.new) result }
{
    match &kept.digests {
        Some(digests) => {
            let filed = DigestedCase {
                case: kept.case,
                digests: *digests,
            };
            compare(alloc, shelf, request, &filed, orders, trades)
        }
        None => Ok(CaseAnswer {
            status: CaseStatus::Refused,
            text: no_digest_text(alloc, &request.label)?,
            stop: None,
        }),
    }
}

/// The answer over a database that is open, after both logs were looked at.
pub(crate) fn check_in<'a, F: Shelf, B: DigestKeeper>(
    alloc: Global,
    shelf: &mut DigestShelf<'a, F>,
    request: &FilingRequest,
    orders: &Source<'_>,
    trades: &Source<'_>,
    keeper: &mut B,
) -> Result<CaseAnswer, Halt>
    requires limit { HaveOneLimit orders.now trades.now }
    requires names { NamesLogs request.now.logs orders.now trades.now }
    requires asked { request.now.command ≡ Check }
    ensures logs { KeepsShelfLogs ⟦<DigestShelf<'a, F> as Shelf>⟧ shelf.old shelf.new }
    ensures later { let shelves = ⟦<DigestShelf<'a, F> as Shelf>⟧ in
        FaultsNeverFall (reading_by orders.now shelves shelf.old shelf.new) }
    ensures keeper { (B.state keeper.old).faults ≤ (B.state keeper.new).faults }
    ensures checks { let shelves = ⟦<DigestShelf<'a, F> as Shelf>⟧ in (first : Reading)
        → GoesOn first (reading_by orders.now shelves shelf.old shelf.new)
        → ReadsRecords first request.now.logs AnyRecords
        → ChecksOrStops (both_readings first (reading_by orders.now shelves shelf.old shelf.new))
        (B.state keeper.old) (B.state keeper.new) request.now result }
    ensures within { let shelves = ⟦<DigestShelf<'a, F> as Shelf>⟧ in
        EndsWithinOrHalts (reading_by orders.now shelves shelf.old shelf.new) result }
{
    match keeper.find(&request.label) {
        Ok(Some(kept)) => check_kept(alloc, shelf, request, &kept, orders, trades),
        Ok(None) => Ok(CaseAnswer {
            status: CaseStatus::Refused,
            text: no_case_text(alloc, &request.label)?,
            stop: None,
        }),
        Err(fault) => Err(Halt::from(fault)),
    }
}
