//! One command: its answer, the status and the text, is made whole, and then written.
ghost use Rattle.std.specs.Prelude.{◌≡◌, ◌≤◌, ◌++◌, IfOk};
ghost use Rattle.std.specs.List.{flat_map};
ghost use Rattle.log_verdict.specs.Steps.{reading, KeepsShelfLogs, FaultsNeverFall};
ghost use Rattle.case_run.specs.Lines.{case_line, known_line};
ghost use Rattle.case_run.specs.Play as spec;
ghost use Rattle.case_run.specs.Runs.{EndsWithinOrTooLong, known_logs, run_state};
ghost use Rattle.case_run.specs.Turns.{AnswersBadPlace, AnswersCaseCommand, AnswersFromCasebook};
ghost use Rattle.case_run.specs.Turns.{EndsWithinOrHalts, FilesVerdict, KeepsAll, TakesTurn};

use super::commands::{CaseCommand, Filing};
use super::halts::Halt;
use super::lines::{append_case_line, append_known_line, append_no_case_line};
use super::statuses::CaseStatus;
use super::verdicts::verdict_of;
use super::writing::{write_halt, write_text};
use audit_base::faults::{BadPlace, NoMemory};
use audit_base::findings::Finding;
use audit_base::names::Name;
use audit_base::terms::Which;
use audit_report::reports::report_text;
use audit_report::verdicts::Verdict;
use case_keeper::case::{Case, Filter, Offence};
use case_keeper::casebook::{Casebook, Filed};
use case_keeper::keeper::Keeper;
use log_source::shelf::Shelf;
use log_source::sink::Sink;
use log_verdict::runs::RunEnd;
use log_verdict::stops::NoRecords;
use seeded_hash::seed::HashSeed;
use std::alloc::Global;

/// What a command answers and writes; and why there are no records of its logs, where the text says
/// that.
#[derive(Drop)]
pub struct CaseAnswer {
    pub status: CaseStatus,
    pub text: Vec<u8>,
    pub stop: Option<NoRecords>,
}

impl Filing {
    /// The case of the filing, whose audit ended so.
    fn case(&self, offence: Option<Offence>) -> Case
        ensures { result ≡ spec.case_of self.now offence }
    {
        Case {
            label: self.label,
            rule: self.rule,
            symbol: self.symbol,
            offence,
        }
    }
}

/// The offence of a finding.
pub fn offence_of(finding: &Finding) -> Offence
    ensures { result ≡ spec.offence_of finding.now }
{
    Offence {
        property: finding.property,
        log: finding.log,
        place: finding.place,
    }
}

/// The line of a case.
fn case_text(alloc: Global, case: &Case) -> Result<Vec<u8>, NoMemory>
    ensures { IfOk result (λ text. text.items ≡ case_line case.now) }
{
    let mut text = Vec::new(alloc);
    append_case_line(alloc, case, &mut text)?;
    Ok(text)
}

/// That a label is known, and the line of the case that has it.
pub fn known_text(alloc: Global, known: &Case) -> Result<Vec<u8>, NoMemory>
    ensures { IfOk result (λ text. text.items ≡ known_line ++ case_line known.now) }
{
    let mut text = Vec::new(alloc);
    append_known_line(alloc, &mut text)?;
    append_case_line(alloc, known, &mut text)?;
    Ok(text)
}

/// The lines of cases, in their order.
fn list_text(alloc: Global, cases: &[Case]) -> Result<Vec<u8>, NoMemory>
    ensures { IfOk result (λ text. text.items ≡ flat_map case_line cases.now) }
{
    let mut text = Vec::new(alloc);
    for case in cases {
        append_case_line(alloc, case, &mut text)?;
    }
    Ok(text)
}

/// The line of the case that a label has, or that it has none.
fn shown_text(alloc: Global, label: &Name, found: &Option<Case>) -> Result<Vec<u8>, NoMemory>
    ensures { IfOk result (λ text. text.items ≡ spec.shown_text label.now found.now) }
{
    let mut text = Vec::new(alloc);
    match found {
        Some(case) => append_case_line(alloc, case, &mut text)?,
        None => append_no_case_line(alloc, label, &mut text)?,
    }
    Ok(text)
}

/// The status of showing what was found.
fn shown_status(found: &Option<Case>) -> CaseStatus
    ensures { result ≡ spec.shown_status found.now }
{
    match found {
        Some(_) => CaseStatus::Done,
        None => CaseStatus::Refused,
    }
}

/// Files a case. Its line is made before the book is changed.
fn file_case<B: Keeper>(
    alloc: Global,
    case: &Case,
    book: &mut Casebook<B>,
) -> Result<CaseAnswer, Halt>
    ensures files { AnswersFromCasebook (λ cases. spec.filed_turn cases case.now)
        (B.state book.old) (B.state book.new) result }
    ensures later { (B.state book.old).faults ≤ (B.state book.new).faults }
{
    let line = case_text(alloc, case)?;
    match book.file(case)? {
        Filed::Kept => Ok(CaseAnswer {
            status: CaseStatus::Done,
            text: line,
            stop: None,
        }),
        Filed::Known(known) => Ok(CaseAnswer {
            status: CaseStatus::Refused,
            text: known_text(alloc, &known)?,
            stop: None,
        }),
    }
}

/// Files a verdict. Of a log that is not in its grammar the answer is the bad place, and nothing is
/// filed.
fn file_verdict<B: Keeper>(
    alloc: Global,
    filing: &Filing,
    verdict: &Verdict,
    book: &mut Casebook<B>,
) -> Result<CaseAnswer, Halt>
    ensures files { FilesVerdict (B.state book.old) (B.state book.new)
        filing.now verdict.now result }
    ensures later { (B.state book.old).faults ≤ (B.state book.new).faults }
{
    match verdict {
        Verdict::Accepted(_) => file_case(alloc, &filing.case(None), book),
        Verdict::Rejected(finding) => {
            file_case(alloc, &filing.case(Some(offence_of(finding))), book)
        }
        Verdict::Malformed { log, bad } => Ok(malformed_answer(alloc, *log, bad)?),
    }
}

/// The answer that a log is not in its grammar: the line of its first bad place.
pub fn malformed_answer(alloc: Global, log: Which, bad: &BadPlace) -> Result<CaseAnswer, NoMemory>
    ensures { IfOk result (AnswersBadPlace log bad.now) }
{
    let text = report_text(alloc, &Verdict::Malformed { log, bad: *bad })?;
    Ok(CaseAnswer {
        status: CaseStatus::Malformed,
        text,
        stop: Some(NoRecords::Malformed { log, bad: *bad }),
    })
}

/// Audits two logs and files the verdict.
fn file<F: Shelf, B: Keeper>(
    alloc: Global,
    seed: HashSeed,
    filing: &Filing,
    shelf: &mut F,
    book: &mut Casebook<B>,
) -> Result<CaseAnswer, Halt>
    ensures logs { KeepsShelfLogs F.Shelf shelf.old shelf.new }
    ensures later { FaultsNeverFall (reading F.Shelf shelf.old shelf.new) }
    ensures book { (B.state book.old).faults ≤ (B.state book.new).faults }
    ensures answers { AnswersCaseCommand (reading F.Shelf shelf.old shelf.new)
        (B.state book.old) (B.state book.new) (CaseCommand.File filing.now) result }
    ensures within { EndsWithinOrHalts (reading F.Shelf shelf.old shelf.new) result }
{
    // A match and no `?`, as in `verdict_on`.
    match verdict_of(alloc, seed, filing, shelf) {
        Ok(verdict) => file_verdict(alloc, filing, &verdict, book),
        Err(halt) => Err(halt),
    }
}

/// Lists the cases that pass a filter.
fn list<B: Keeper>(
    alloc: Global,
    filter: &Filter,
    book: &mut Casebook<B>,
) -> Result<CaseAnswer, Halt>
    ensures lists { AnswersFromCasebook (λ cases. spec.list_turn cases filter.now)
        (B.state book.old) (B.state book.new) result }
    ensures later { (B.state book.old).faults ≤ (B.state book.new).faults }
{
    let cases = book.list(filter)?;
    Ok(CaseAnswer {
        status: CaseStatus::Done,
        text: list_text(alloc, cases.as_slice())?,
        stop: None,
    })
}

/// Shows the case of a label.
fn show<B: Keeper>(alloc: Global, label: &Name, book: &mut Casebook<B>) -> Result<CaseAnswer, Halt>
    ensures shows { AnswersFromCasebook (λ cases. spec.show_turn cases label.now)
        (B.state book.old) (B.state book.new) result }
    ensures later { (B.state book.old).faults ≤ (B.state book.new).faults }
{
    let found = book.show(label)?;
    Ok(CaseAnswer {
        status: shown_status(&found),
        text: shown_text(alloc, label, &found)?,
        stop: None,
    })
}

/// The answer to a command, or why there is none.
fn answer_to<F: Shelf, B: Keeper>(
    alloc: Global,
    seed: HashSeed,
    command: &CaseCommand,
    shelf: &mut F,
    book: &mut Casebook<B>,
) -> Result<CaseAnswer, Halt>
    ensures logs { KeepsShelfLogs F.Shelf shelf.old shelf.new }
    ensures later { FaultsNeverFall (reading F.Shelf shelf.old shelf.new) }
    ensures book { (B.state book.old).faults ≤ (B.state book.new).faults }
    ensures answers { AnswersCaseCommand (reading F.Shelf shelf.old shelf.new)
        (B.state book.old) (B.state book.new) command.now result }
    ensures within { EndsWithinOrHalts (reading F.Shelf shelf.old shelf.new) result }
{
    match command {
        CaseCommand::File(filing) => file(alloc, seed, filing, shelf, book),
        CaseCommand::List(filter) => list(alloc, filter, book),
        CaseCommand::Show(label) => show(alloc, label, book),
    }
}

/// Does one command: its whole text is made, and then written.
pub(crate) fn take_turn<F: Shelf, K: Sink, B: Keeper>(
    alloc: Global,
    seed: HashSeed,
    command: &CaseCommand,
    shelf: &mut F,
    out: &mut K,
    book: &mut Casebook<B>,
) -> RunEnd<CaseStatus, ()>
    ensures keeps { KeepsAll F.Shelf shelf.old shelf.new (K.state out.old) (K.state out.new)
        (B.state book.old) (B.state book.new) }
    ensures turn { TakesTurn (known_logs F.Shelf shelf.old)
        (run_state F.Shelf shelf.old (K.state out.old) (B.state book.old))
        (run_state F.Shelf shelf.new (K.state out.new) (B.state book.new)) command.now
        result.status }
    ensures length { EndsWithinOrTooLong (reading F.Shelf shelf.old shelf.new) result.status }
{
    match answer_to(alloc, seed, command, shelf, book) {
        Ok(answer) => RunEnd {
            status: write_text(out, &answer.text, answer.status),
            stop: answer.stop,
            back: (),
        },
        Err(halt) => RunEnd {
            status: write_halt(out, halt),
            stop: halt.stop(),
            back: (),
        },
    }
}
