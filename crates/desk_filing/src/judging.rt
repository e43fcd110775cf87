//! What the logs of `file` come to: the verdict on a symbol, as a case with the digests of the
//! bytes that it is on; of a symbol that no record has, that it is absent.
ghost use Rattle.std.specs.Prelude.{◌≡◌, ◌∷◌, [], IfOk, false};
ghost use Rattle.case_run.specs.Turns.{EndsWithinOrHalts};
ghost use Rattle.case_run.specs.declared.statuses.CaseStatus.TheVariants as status;
ghost use Rattle.desk_filing.specs.Judging.{case_that_ended, IsJudgedVerdict, TellsBadPlace};
ghost use Rattle.desk_filing.specs.Steps.{JudgesLogs, NamesLogs};
ghost use Rattle.desk_filing.specs.Turns.{offence_in};
ghost use Rattle.desk_filing.specs.declared.requests.FilingCommand.TheVariants as command;
ghost use Rattle.log_verdict.specs.BothLogs.{HaveOneLimit};
ghost use Rattle.log_verdict.specs.Steps.{reading_by, FaultsNeverFall, KeepsShelfLogs};
ghost use Rattle.record_verdict.specs.RecordVerdict.{as_verdict};
ghost use Rattle.symbol_offences.specs.OffenceLines.{absent_line};

use crate::answers::FilingOutcome;
use crate::digested_verdicts::{DigestedVerdict, digested_verdict_on};
use crate::lines::absent_text;
use crate::requests::FilingRequest;
use audit_base::faults::{BadPlace, NoMemory};
use audit_base::names::Name;
use audit_base::terms::{Rule, Which};
use audit_report::verdicts::{Accepted, Verdict};
use case_keeper::case::{Case, Offence};
use case_run::answers::{self, CaseAnswer, offence_of};
use case_run::halts::Halt;
use case_run::statuses::CaseStatus;
use digest_keeper::digested::DigestedCase;
use log_digests::digest_shelf::DigestShelf;
use log_digests::digests::LogDigests;
use log_source::shelf::Shelf;
use log_verdict::sources::Source;
use record_verdict::questions::Question;
use record_verdict::verdicts::RecordVerdict;
use std::alloc::Global;
use symbol_offences::laws::absent_symbols_have_nothing;

/// How an audit ended with a verdict on records.
pub(crate) fn offence_in(judged: &RecordVerdict) -> Option<Offence>
    ensures { result ≡ offence_in (as_verdict judged.now) }
{
    match judged {
        RecordVerdict::Accepted(_) => None,
        RecordVerdict::Rejected(finding) => Some(offence_of(finding)),
    }
}

/// The case of an audit that ended so, on logs of these digests.
pub(crate) fn digested_case(
    label: &Name,
    rule: Rule,
    digests: &LogDigests,
    symbol: &Name,
    offence: Option<Offence>,
) -> DigestedCase
    ensures { result ≡ case_that_ended label.now rule digests.now symbol.now offence }
{
    DigestedCase {
        case: Case {
            label: *label,
            rule,
            symbol: *symbol,
            offence,
        },
        digests: *digests,
    }
}

/// The answer that a log is not in its grammar.
pub(crate) fn malformed_answer(
    alloc: Global,
    log: Which,
    bad: &BadPlace,
) -> Result<CaseAnswer, NoMemory>
    ensures { IfOk result (TellsBadPlace (Verdict.Malformed log bad.now)) }
{
    Ok(answers::malformed_answer(alloc, log, bad)?)
}

/// The case of an audit that ended so, alone.
fn case_alone(
    alloc: Global,
    label: &Name,
    question: &Question,
    digests: &LogDigests,
    offence: Option<Offence>,
) -> Result<Vec<DigestedCase>, NoMemory>
    ensures { let q = question.now in
        let one = case_that_ended label.now q.rule digests.now q.symbol offence in
        IfOk result (λ cases. cases.items ≡ one ∷ []) }
{
    let mut cases = Vec::new(alloc);
    let case = digested_case(label, question.rule, digests, &question.symbol, offence);
    cases.push(case)?;
    Ok(cases)
}

/// The answer that a symbol is absent.
fn absent_answer(alloc: Global, symbol: &Name) -> Result<CaseAnswer, NoMemory>
    ensures { IfOk result (λ answer. (answer.status ≡ status.Refused)
        × (answer.text.items ≡ absent_line symbol.now)) }
{
    Ok(CaseAnswer {
        status: CaseStatus::Refused,
        text: absent_text(alloc, symbol)?,
        stop: None,
    })
}

/// What the verdict comes to that accepts a symbol: its case, or where the symbol has no order and
/// no trade the answer that it is absent.
fn judged_acceptance(
    alloc: Global,
    label: &Name,
    question: &Question,
    digests: &LogDigests,
    accepted: &Accepted,
) -> Result<FilingOutcome, NoMemory>
    ensures { IfOk result (IsJudgedVerdict digests.now label.now question.now
        (Verdict.Accepted accepted.now)) }
{
    if accepted.orders == 0 && accepted.trades == 0 {
        return Ok(FilingOutcome::Refused(absent_answer(alloc, &question.symbol)?));
    }
    let cases = case_alone(alloc, label, question, digests, None)?;
    Ok(FilingOutcome::Cases(cases))
}

/// What a verdict comes to: its case, or the answer that a log is not in its grammar, or that the
/// symbol is absent.
fn judged_verdict(
    alloc: Global,
    label: &Name,
    question: &Question,
    made: &DigestedVerdict,
) -> Result<FilingOutcome, NoMemory>
    ensures { IfOk result
        (IsJudgedVerdict made.now.digests label.now question.now made.now.verdict) }
{
    match &made.verdict {
        Verdict::Accepted(accepted) => {
            judged_acceptance(alloc, label, question, &made.digests, accepted)
        }
        Verdict::Rejected(finding) => {
            let offence = Some(offence_of(finding));
            let cases = case_alone(alloc, label, question, &made.digests, offence)?;
            Ok(FilingOutcome::Cases(cases))
        }
        Verdict::Malformed { log, bad } => {
            Ok(FilingOutcome::Refused(malformed_answer(alloc, *log, bad)?))
        }
    }
}

/// What the logs of `file` come to.
pub(crate) fn judge_symbol<'a, F: Shelf>(
    alloc: Global,
    shelf: &mut DigestShelf<'a, F>,
    request: &FilingRequest,
    question: &Question,
    orders: &Source<'_>,
    trades: &Source<'_>,
) -> Result<FilingOutcome, Halt>
    requires limit { HaveOneLimit orders.now trades.now }
    requires names { NamesLogs request.now.logs orders.now trades.now }
    requires asked { request.now.command ≡ command.File question.now.rule question.now.symbol }
    requires table { question.now.table ≡ false }
    ensures logs { KeepsShelfLogs ⟦<DigestShelf<'a, F> as Shelf>⟧ shelf.old shelf.new }
    ensures later { let shelves = ⟦<DigestShelf<'a, F> as Shelf>⟧ in
        FaultsNeverFall (reading_by orders.now shelves shelf.old shelf.new) }
    ensures judges { let shelves = ⟦<DigestShelf<'a, F> as Shelf>⟧ in
        JudgesLogs (reading_by orders.now shelves shelf.old shelf.new) request.now result }
    ensures within { let shelves = ⟦<DigestShelf<'a, F> as Shelf>⟧ in
        EndsWithinOrHalts (reading_by orders.now shelves shelf.old shelf.new) result }
{
    // A law that the answer rests on. It computes nothing.
    absent_symbols_have_nothing();
    match digested_verdict_on(alloc, shelf, question, orders, trades) {
        Ok(made) => Ok(judged_verdict(alloc, &request.label, question, &made)?),
        Err(stop) => Err(Halt::from(stop)),
    }
}
