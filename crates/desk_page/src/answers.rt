//! The answer to two logs: the page of the verdict on the symbol, with the digests of both, or that
//! no record has the symbol.
ghost use Rattle.std.specs.Prelude.{◌≡◌, IfOk};
ghost use Rattle.audit_base.specs.Deals.{IsDealList};
ghost use Rattle.audit_base.specs.Orders.{IsOrderList};
ghost use Rattle.command_run.specs.Deciding.{IsAnswerOfKind};
ghost use Rattle.log_verdict.specs.BothLogs.{HaveOneLimit, StaysWithin};
ghost use Rattle.log_verdict.specs.Steps.{reading_by, FaultsNeverFall, KeepsShelfLogs};
ghost use Rattle.desk_page.specs.PageAnswers.{GivesPageOrStop, page_question};
ghost use Rattle.desk_page.specs.Telling.{IsAnswerByEmptiness, IsAnswerToGiven, IsDigestedAnswer};
ghost use Rattle.desk_page.specs.Telling.{IsPageOfDeals, IsPageOfFinding};
ghost use Rattle.record_verdict.specs.BeforeRule.{IsJudgeable};
ghost use Rattle.record_verdict.specs.RecordVerdict.{as_verdict};
ghost use Rattle.symbol_offences.specs.Telling.{are_none};

use crate::drawings::Drawing;
use crate::page_logs::{digits_of, named_logs};
use crate::pages::{page_before_rule, page_of_market, verdict_finding};
use crate::requests::PageRequest;
use audit_base::faults::NoMemory;
use audit_base::findings::Finding;
use audit_base::orders::Deal;
use audit_base::terms::Which;
use audit_report::statuses::Status;
use command_run::answers::{Answer, answer_without};
use log_digests::digest_shelf::DigestShelf;
use log_digests::digests::LogDigests;
use log_source::shelf::Shelf;
use log_verdict::both_logs::read_both;
use log_verdict::sources::Source;
use log_verdict::stops::Stop;
use matching_core::deals_draft::ResolvedTrades;
use order_list::lists::OrderList;
use page_parts::repeats::PageLogs;
use record_verdict::before_rule::BeforeRule;
use record_verdict::questions::Question;
use record_verdict::verdicts::{RecordVerdict, verdict_after};
use std::alloc::Global;
use symbol_offences::answers::absent_answer;
use symbol_offences::laws::absent_symbols_have_nothing;

/// What is asked of the logs: the verdict of the rule on the symbol.
fn question_of(request: &PageRequest) -> Question
    ensures { result ≡ page_question request.now }
{
    Question {
        rule: request.rule,
        symbol: request.symbol,
        table: false,
    }
}

/// The answer to a finding before the rule.
fn answer_found(
    alloc: Global,
    question: &Question,
    finding: &Finding,
    named: &PageLogs<'_>,
) -> Result<Answer, NoMemory>
    ensures { IfOk result
        (IsAnswerOfKind (IsPageOfFinding question.now named.now finding.now)) }
{
    let text = page_before_rule(alloc, question, finding, named)?;
    Ok(Answer {
        status: Status::Rejected,
        text,
        stop: None,
    })
}

/// The answer to the orders and deals of a symbol, of which this is the verdict: their page.
fn answer_market<D: Drawing>(
    alloc: Global,
    question: &Question,
    orders: &OrderList<'_>,
    deals: &[Deal],
    judged: &RecordVerdict,
    named: &PageLogs<'_>,
) -> Result<Answer, NoMemory>
    requires order_list { IsOrderList orders.now }
    requires deal_list { IsDealList orders.now deals.now }
    ensures { IfOk result (IsAnswerOfKind (IsPageOfDeals D.is_picture question.now named.now
        orders.now deals.now (as_verdict judged.now))) }
{
    let finding = verdict_finding(judged);
    let text = page_of_market::<D>(alloc, question, orders, deals, &finding, named)?;
    Ok(Answer {
        status: judged.status(),
        text,
        stop: None,
    })
}

/// The answer to sound trades of which this is the verdict: that the symbol is absent, where it has
/// no order and no trade, or else their page.
fn answer_sound<D: Drawing>(
    alloc: Global,
    question: &Question,
    sound: &ResolvedTrades,
    judged: &RecordVerdict,
    named: &PageLogs<'_>,
) -> Result<Answer, NoMemory>
    requires { IsDealList sound.now.history sound.now.deals.items }
    ensures { let none = are_none sound.now.history sound.now.deals.items in
        let told = IsAnswerByEmptiness none D.is_picture question.now named.now sound.now.history in
        IfOk result (IsAnswerOfKind (told sound.now.deals.items (as_verdict judged.now))) }
{
    let orders = sound.history.orders();
    if orders.len() == 0 && sound.deals.is_empty() {
        return absent_answer(alloc, &question.symbol);
    }
    answer_market::<D>(alloc, question, &orders, &sound.deals, judged, named)
}

/// The answer to what two logs give before the rule is looked at.
fn answer_after<D: Drawing>(
    alloc: Global,
    question: &Question,
    given: &BeforeRule,
    named: &PageLogs<'_>,
) -> Result<Answer, NoMemory>
    requires { IsJudgeable given.now }
    ensures { IfOk result (IsAnswerToGiven D.is_picture question.now named.now given.now) }
{
    // A law that the answer rests on. It computes nothing.
    absent_symbols_have_nothing();
    let judged = verdict_after(alloc, question, given)?;
    match given {
        BeforeRule::Found(finding) => answer_found(alloc, question, finding, named),
        BeforeRule::Sound(sound) => answer_sound::<D>(alloc, question, sound, &judged, named),
    }
}

/// The answer to what two logs give, on a page that names them with these digests.
fn answer_digested<D: Drawing>(
    alloc: Global,
    request: &PageRequest,
    given: &BeforeRule,
    digests: &LogDigests,
) -> Result<Answer, NoMemory>
    requires { IsJudgeable given.now }
    ensures { IfOk result
        (IsDigestedAnswer D.is_picture request.now digests.now given.now) }
{
    let digits = digits_of(digests);
    let named = named_logs(&request.logs, digests, &digits);
    let question = question_of(request);
    answer_after::<D>(alloc, &question, given, &named)
}

/// The page of the verdict on a symbol of two logs, as a status and a text, or why there is
/// none. The status is that of the verdict; the page has the totals and the picture of the rule
/// where the trades are sound, and the digests of the very bytes that the verdict is on. A
/// symbol that no record of two good logs has, whose reports pair, is told to be absent, with
/// status `Rejected`. A log that is not in its grammar is answered by its first bad place, with
/// status `Malformed`.
///
/// The order log is read first, piece by piece, and the trade log only where that is in its
/// grammar; each is read once. Both have one limit. `ReadFault` comes only where a log could not be
/// read, `TooLong` only where one has more bytes than the limit, and `Memory` where memory ran out.
pub(crate) fn page_on<'a, D: Drawing, F: Shelf>(
    alloc: Global,
    shelf: &mut DigestShelf<'a, F>,
    request: &PageRequest,
    orders: &Source<'_>,
    trades: &Source<'_>,
) -> Result<Answer, Stop>
    requires limit { HaveOneLimit orders.now trades.now }
    ensures logs { KeepsShelfLogs ⟦<DigestShelf<'a, F> as Shelf>⟧ shelf.old shelf.new }
    ensures later { let shelves = ⟦<DigestShelf<'a, F> as Shelf>⟧ in
        FaultsNeverFall (reading_by orders.now shelves shelf.old shelf.new) }
    ensures decides { let shelves = ⟦<DigestShelf<'a, F> as Shelf>⟧ in
        GivesPageOrStop D.is_picture (reading_by orders.now shelves shelf.old shelf.new)
        request.now orders.now trades.now result }
    ensures within { let shelves = ⟦<DigestShelf<'a, F> as Shelf>⟧ in
        StaysWithin (reading_by orders.now shelves shelf.old shelf.new) result }
{
    match read_both(alloc, shelf, &question_of(request).scope(), orders, trades) {
        Ok(given) => {
            let digests = LogDigests {
                orders: shelf.digest(Which::Orders),
                trades: shelf.digest(Which::Trades),
            };
            Ok(answer_digested::<D>(alloc, request, &given, &digests)?)
        }
        Err(why) => answer_without(alloc, why),
    }
}
