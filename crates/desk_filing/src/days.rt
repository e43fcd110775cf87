//! What the logs of `file-all` come to: a case for each symbol of the day, with the digests of the
//! bytes that all of them are on.
ghost use Rattle.std.specs.Prelude.{◌≡◌, [], None, IfOk, IsTrue, OnOk};
ghost use Rattle.audit_base.specs.Names.{is_name};
ghost use Rattle.case_run.specs.Turns.{EndsWithinOrHalts};
ghost use Rattle.day_logs.specs.DayBeforeRule.{IsDayWithFewTrades};
ghost use Rattle.day_symbols.specs.Shares.{whole_day};
ghost use Rattle.day_verdicts.specs.DayVerdicts.{RuleTradesFitPlaces};
ghost use Rattle.desk_filing.specs.Days.{IsDayOf, IsJudgedAs, JudgesDay, JudgesGiven, JudgesWithout};
ghost use Rattle.desk_filing.specs.Days.{KeepsCase, TellsUnpaired, label_if_short};
ghost use Rattle.desk_filing.specs.Steps.{JudgesLogs, NamesLogs};
ghost use Rattle.desk_filing.specs.Turns.{label_of_symbol};
ghost use Rattle.desk_filing.specs.declared.requests.FilingCommand.TheVariants as command;
ghost use Rattle.log_verdict.specs.BothLogs.{HaveOneLimit};
ghost use Rattle.log_verdict.specs.Steps.{reading_by, FaultsNeverFall, KeepsShelfLogs};
ghost use Rattle.record_verdict.specs.RecordVerdict.{as_verdict};
ghost use Rattle.record_verdict.specs.Scopes.{admission_of};

use crate::answers::FilingOutcome;
use crate::judging::{digested_case, malformed_answer, offence_in};
use crate::lines::{finding_text, long_label_text};
use crate::requests::FilingRequest;
use audit_base::faults::NoMemory;
use audit_base::findings::Finding;
use audit_base::names::{Name, read_name};
use audit_base::terms::{Rule, Which};
use case_run::answers::CaseAnswer;
use case_run::halts::Halt;
use case_run::statuses::CaseStatus;
use day_logs::before_rule::DayBeforeRule;
use day_logs::reading::read_day;
use day_records::day_trades::DayRecords;
use day_symbols::shares::DayShare;
use day_verdicts::verdict_lists::{VerdictList, hand_verdicts};
use digest_keeper::digested::DigestedCase;
use log_digests::digest_shelf::DigestShelf;
use log_digests::digests::LogDigests;
use log_source::shelf::Shelf;
use log_verdict::sources::Source;
use log_verdict::stops::NoRecords;
use record_verdict::scopes::Admission;
use record_verdict::verdicts::RecordVerdict;
use std::alloc::Global;

/// The text of the label of a symbol of a day, LABEL/SYMBOL.
fn label_text(alloc: Global, label: &Name, symbol: &Name) -> Result<Vec<u8>, NoMemory>
    ensures joined { IfOk result (λ text. text.items ≡ label_of_symbol label.now symbol.now) }
    ensures label_is { IsTrue (is_name label.now) }
    ensures symbol_is { IsTrue (is_name symbol.now) }
{
    let (label_bytes, symbol_bytes) = (label.bytes(), symbol.bytes());
    let mut text = Vec::new(alloc);
    text.extend_from_slice(label_bytes)?;
    text.push(b'/')?;
    text.extend_from_slice(symbol_bytes)?;
    Ok(text)
}

/// The label of a symbol of a day, if it has no more than 64 bytes.
fn label_of_symbol(alloc: Global, label: &Name, symbol: &Name) -> Result<Option<Name>, NoMemory>
    ensures { IfOk result (λ made. made ≡ label_if_short label.now symbol.now) }
{
    let text = label_text(alloc, label, symbol)?;
    Ok(read_name(&text))
}

/// The cases of the symbols of a day so far; or the first symbol whose label is too long, after
/// which no case is kept.
#[derive(Drop)]
struct DayCases {
    alloc: Global,
    label: Name,
    rule: Rule,
    digests: LogDigests,
    cases: Vec<DigestedCase>,
    long: Option<Name>,
}

impl DayCases {
    /// Of no symbols.
    fn none(alloc: Global, label: &Name, rule: Rule, digests: &LogDigests) -> DayCases
        ensures { IsDayOf label.now rule digests.now result [] [] }
    {
        DayCases {
            alloc,
            label: *label,
            rule,
            digests: *digests,
            cases: Vec::new(alloc),
            long: None,
        }
    }

    /// One case more, under this label; or this symbol, where its label is too long.
    fn keep(
        &mut self,
        label: Option<Name>,
        symbol: &Name,
        judged: &RecordVerdict,
    ) -> Result<(), NoMemory>
        requires { self.old.long ≡ None }
        ensures { OnOk result
            (KeepsCase self.old self.new label symbol.now (as_verdict judged.now)) }
    {
        match label {
            Some(label) => {
                let offence = offence_in(judged);
                let case = digested_case(&label, self.rule, &self.digests, symbol, offence);
                self.cases.push(case)?;
                Ok(())
            }
            None => {
                self.long = Some(*symbol);
                Ok(())
            }
        }
    }
}

impl VerdictList for DayCases {
    ghost use Rattle.desk_filing.specs.Days.{HasDayTaken};

    ghost has_taken = { HasDayTaken };

    fn take(&mut self, symbol: &Name, judged: &RecordVerdict) -> Result<(), NoMemory> {
        if self.long.is_some() {
            return Ok(());
        }
        let label = label_of_symbol(self.alloc, &self.label, symbol)?;
        self.keep(label, symbol, judged)
    }
}

/// What the cases of a day come to: all of them, or the answer that a label is too long.
fn judged_cases(alloc: Global, day: DayCases) -> Result<FilingOutcome, NoMemory>
    ensures { IfOk result (IsJudgedAs day) }
{
    let DayCases { cases, long, .. } = day;
    match long {
        Some(symbol) => Ok(FilingOutcome::Refused(CaseAnswer {
            status: CaseStatus::Refused,
            text: long_label_text(alloc, &symbol)?,
            stop: None,
        })),
        None => Ok(FilingOutcome::Cases(cases)),
    }
}

/// What a day that was read comes to, of logs of these digests.
fn judged_day(
    alloc: Global,
    label: &Name,
    rule: Rule,
    digests: &LogDigests,
    ended: DayRecords,
) -> Result<FilingOutcome, NoMemory>
    requires few { RuleTradesFitPlaces rule whole_day ended }
    ensures { IfOk result (JudgesDay label.now rule digests.now ended) }
{
    let day = DayCases::none(alloc, label, rule, digests);
    let day = hand_verdicts(alloc, rule, DayShare::whole(), ended, day)?;
    judged_cases(alloc, day)
}

/// The answer that a report of the trade log has no partner.
fn unpaired_answer(alloc: Global, finding: &Finding) -> Result<CaseAnswer, NoMemory>
    ensures { IfOk result (TellsUnpaired finding.now) }
{
    Ok(CaseAnswer {
        status: CaseStatus::Refused,
        text: finding_text(alloc, finding)?,
        stop: None,
    })
}

/// What two logs come to that were not read into records: the answer to their first bad place, or
/// why there is none.
fn judged_without(alloc: Global, why: NoRecords) -> Result<FilingOutcome, Halt>
    ensures { JudgesWithout why result }
{
    match why {
        NoRecords::Malformed { log, bad } => {
            Ok(FilingOutcome::Refused(malformed_answer(alloc, log, &bad)?))
        }
        NoRecords::Stopped(stop) => Err(Halt::from(stop)),
    }
}

/// What two logs of these digests come to, by what their records give before the rule is looked
/// at.
fn judged_logs(
    alloc: Global,
    label: &Name,
    rule: Rule,
    digests: &LogDigests,
    given: DayBeforeRule,
) -> Result<FilingOutcome, NoMemory>
    requires few { IsDayWithFewTrades whole_day (admission_of rule) given }
    ensures { IfOk result (JudgesGiven label.now rule digests.now given) }
{
    match given {
        DayBeforeRule::Read(ended) => judged_day(alloc, label, rule, digests, ended),
        DayBeforeRule::Unpaired(finding) => {
            Ok(FilingOutcome::Refused(unpaired_answer(alloc, &finding)?))
        }
    }
}

/// What the logs of `file-all` come to.
pub(crate) fn judge_day<'a, F: Shelf>(
    alloc: Global,
    shelf: &mut DigestShelf<'a, F>,
    request: &FilingRequest,
    rule: Rule,
    orders: &Source<'_>,
    trades: &Source<'_>,
) -> Result<FilingOutcome, Halt>
    requires limit { HaveOneLimit orders.now trades.now }
    requires names { NamesLogs request.now.logs orders.now trades.now }
    requires asked { request.now.command ≡ command.FileAll rule }
    ensures logs { KeepsShelfLogs ⟦<DigestShelf<'a, F> as Shelf>⟧ shelf.old shelf.new }
    ensures later { let shelves = ⟦<DigestShelf<'a, F> as Shelf>⟧ in
        FaultsNeverFall (reading_by orders.now shelves shelf.old shelf.new) }
    ensures judges { let shelves = ⟦<DigestShelf<'a, F> as Shelf>⟧ in
        JudgesLogs (reading_by orders.now shelves shelf.old shelf.new) request.now result }
    ensures within { let shelves = ⟦<DigestShelf<'a, F> as Shelf>⟧ in
        EndsWithinOrHalts (reading_by orders.now shelves shelf.old shelf.new) result }
{
    match read_day(
        alloc,
        shelf,
        DayShare::whole(),
        Admission::of(rule),
        orders,
        trades,
    ) {
        Ok(given) => {
            let digests = LogDigests {
                orders: shelf.digest(Which::Orders),
                trades: shelf.digest(Which::Trades),
            };
            Ok(judged_logs(alloc, &request.label, rule, &digests, given)?)
        }
        Err(why) => judged_without(alloc, why),
    }
}
