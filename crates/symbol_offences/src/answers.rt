//! The answer to two logs: the verdict on the symbol, and the offences behind it.
ghost use Rattle.std.specs.Prelude.{◌≡◌, true, IfOk, length};
ghost use Rattle.audit_base.specs.Deals.{IsDealList};
ghost use Rattle.audit_report.specs.declared.statuses.Status.TheVariants as status;
ghost use Rattle.record_verdict.specs.RecordVerdict.{IsJudgedInRange};
ghost use Rattle.command_run.specs.Deciding.{IsAnswerOfKind};
ghost use Rattle.command_run.specs.VerdictAnswers.{IsAnswerWith};
ghost use Rattle.further_checks.specs.FurtherRules.{asks_further};
ghost use Rattle.log_verdict.specs.BothLogs.{HaveOneLimit, StaysWithin};
ghost use Rattle.log_verdict.specs.Steps.{reading_by, FaultsNeverFall, KeepsShelfLogs};
ghost use Rattle.symbol_offences.specs.OffenceAnswers.{GivesOffencesOrStop};
ghost use Rattle.symbol_offences.specs.OffenceLines.{absent_line};
ghost use Rattle.symbol_offences.specs.Questions.{keeping_for};
ghost use Rattle.symbol_offences.specs.SymbolBeforeRule.{AreInLogOrder, IsReadyToTell};
ghost use Rattle.symbol_offences.specs.Telling.{are_none, IsAnswerByEmptiness, IsAnswerToLogs};

use crate::questions::OffenceQuestion;
use crate::reading::read_symbol;
use crate::symbol_before_rule::{QuotedRecords, SymbolBeforeRule};
use crate::verdict_answers::{answer_before_rule, answer_by_verdict, rejecting};
use audit_base::faults::NoMemory;
use audit_base::names::Name;
use audit_base::stamps::Stamp;
use audit_report::line_parts::{LinePart, append_line};
use command_run::answers::{Answer, answer_without};
use log_source::shelf::Shelf;
use log_verdict::sources::Source;
use log_verdict::stops::Stop;
use matching_core::deals_draft::ResolvedTrades;
use record_verdict::before_rule::BeforeRule;
use record_verdict::verdicts::{RecordVerdict, verdict_after};
use std::alloc::Global;

/// The answer about a symbol that no record of two good logs has, whose reports pair: one line that
/// it is absent, with status `Rejected`. Err only out of memory.
pub fn absent_answer(alloc: Global, symbol: &Name) -> Result<Answer, NoMemory>
    ensures { IfOk result
        (IsAnswerOfKind (IsAnswerWith status.Rejected (absent_line symbol.now))) }
{
    let mut text = Vec::new(alloc);
    append_line(
        alloc,
        b"absent",
        &[LinePart::Word(symbol.bytes())],
        &mut text,
    )?;
    Ok(rejecting(text))
}

/// The answer to sound trades: that the symbol is absent, where it has no order and no trade, or
/// else by the verdict of the rule.
fn answer_sound(
    alloc: Global,
    question: &OffenceQuestion,
    sound: &ResolvedTrades,
    times: &[Stamp],
    quoted: &QuotedRecords,
    judged: RecordVerdict,
) -> Result<Answer, NoMemory>
    requires deal_list { IsDealList sound.now.history sound.now.deals.items }
    requires timed { asks_further question.now.checks ≡ true
        → length times.now ≡ length sound.now.deals.items }
    requires in_order { AreInLogOrder quoted.now }
    requires in_range { IsJudgedInRange judged }
    ensures { let none = are_none sound.now.history sound.now.deals.items in
        let told = IsAnswerByEmptiness none question.now sound.now.history sound.now.deals.items in
        IfOk result (IsAnswerOfKind (told times.now quoted.now judged)) }
{
    if sound.history.orders().len() == 0 && sound.deals.is_empty() {
        return absent_answer(alloc, &question.symbol);
    }
    answer_by_verdict(alloc, question, sound, times, quoted, judged)
}

/// The answer to what two logs give of the symbol.
fn answer_after(
    alloc: Global,
    question: &OffenceQuestion,
    logs: &SymbolBeforeRule,
) -> Result<Answer, NoMemory>
    requires { IsReadyToTell (keeping_for question.now) logs.now }
    ensures { IfOk result (IsAnswerToLogs question.now logs.now) }
{
    let judged = verdict_after(alloc, &question.audit(), &logs.given)?;
    match &logs.given {
        BeforeRule::Found(finding) => answer_before_rule(alloc, &logs.quoted, finding),
        BeforeRule::Sound(sound) => {
            answer_sound(alloc, question, sound, &logs.times, &logs.quoted, judged)
        }
    }
}

/// The offences of a symbol in two logs, as a status and a text, or why there is no answer. Of a
/// symbol that is accepted the text and the status of an audit; of one that is rejected the text of
/// its finding, a line for each offence of which that is the first, and their number, with status
/// `Rejected`. Where the rule accepts, the same of the further checks that are asked for. Behind
/// each line are the records that it quotes, where they are asked for. A symbol that no record of
/// two good logs has, whose reports pair, is told to be absent, with status `Rejected`. A log that
/// is not in its grammar is answered by its first bad place, with status `Malformed`.
///
/// The order log is read first, piece by piece, and the trade log only where that is in its
/// grammar; each is read once. What is kept is what an audit keeps, and beside it the times of the
/// symbol's trades where a further check is asked for, and its records where they are quoted.
///
/// Both logs have one limit, the greatest number of bytes that each may have, at most
/// `LONGEST_READ`. `ReadFault` comes only where a log could not be read, `TooLong` only where one
/// has more bytes than the limit, and `Memory` where memory ran out. Whatever the answer, what the
/// shelf has under its names stays as it was.
pub fn offences_on<F: Shelf>(
    alloc: Global,
    shelf: &mut F,
    question: &OffenceQuestion,
    orders: &Source<'_>,
    trades: &Source<'_>,
) -> Result<Answer, Stop>
    requires limit { HaveOneLimit orders.now trades.now }
    ensures logs { KeepsShelfLogs F.Shelf shelf.old shelf.new }
    ensures later { FaultsNeverFall (reading_by orders.now F.Shelf shelf.old shelf.new) }
    ensures decides { GivesOffencesOrStop (reading_by orders.now F.Shelf shelf.old shelf.new)
        question.now orders.now trades.now result }
    ensures within { StaysWithin (reading_by orders.now F.Shelf shelf.old shelf.new) result }
{
    let scope = question.audit().scope();
    match read_symbol(alloc, shelf, &scope, question.keeping(), orders, trades) {
        Ok(logs) => Ok(answer_after(alloc, question, &logs)?),
        Err(why) => answer_without(alloc, why),
    }
}
