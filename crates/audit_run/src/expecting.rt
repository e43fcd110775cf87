//! The command `expect`: the Expected trades of an order log, as a trade log.
ghost use Rattle.std.specs.Prelude.{◌≡◌, ◌≤◌, List, None, IfOk, IsTrue};
ghost use Rattle.audit_base.specs.declared.records.OrderRecord.{OrderRecord};
ghost use Rattle.audit_base.specs.declared.terms.Which.{Which};
ghost use Rattle.audit_base.specs.Deals.{IsDealList};
ghost use Rattle.audit_base.specs.Expected.{IsExpected};
ghost use Rattle.audit_base.specs.RuleKinds.{has_table};
ghost use Rattle.audit_base.specs.Histories.{Regular};
ghost use Rattle.audit_base.specs.Orders.{OrdersInRange, HaveOwnKeys, IsOrderList};
ghost use Rattle.audit_base.specs.Rules.{Conforms};
ghost use Rattle.audit_base.specs.Verdicts as spec;
ghost use Rattle.instruction_history.specs.HistoryDraft.{IsHistoryDraft};
ghost use Rattle.log_source.specs.Collectors.{HasPlace};
ghost use Rattle.log_source.specs.Sources.{longest_read};
ghost use Rattle.log_verdict.specs.BothLogs.{StaysWithinAt};
ghost use Rattle.log_verdict.specs.Collecting.{TouchesOnly};
ghost use Rattle.command_run.specs.Deciding.{IsAnswerOfKind};
ghost use Rattle.audit_run.specs.Expecting.{IsConformingLog, IsLogOfOrders};
ghost use Rattle.command_run.specs.Deciding.{DecidesLog};
ghost use Rattle.audit_run.specs.OtherTexts.{ExpectsRecords, IsExpectAnswer};
ghost use Rattle.log_verdict.specs.Steps.{reading_by, KeepsShelfLogs};

use audit_base::faults::NoMemory;
use audit_base::names::Name;
use audit_base::orders::Deal;
use audit_base::ranges::trades_in_range;
use audit_base::terms::{Rule, VolumeRule, Which};
use call_laws::existence::extremes_exist;
use call_laws::laws::only_quantities;
use call_laws::optimum::maximum_trades_are_expected;
use canonical_form::trades::{trades_give_their_deals_back, trades_of_deals};
use command_run::answers::{Answer, done_answer, finding_answer, unread_answer};
use continuous_audit::expecting::continuous_matching;
use continuous_laws::laws::continuous_uniqueness;
use csv_logs::writers::write_trades;
use instruction_history::history_draft::{HistoryDraft, SymbolGhost};
use log_source::shelf::Shelf;
use log_verdict::reading::collect_orders;
use log_verdict::sources::Source;
use log_verdict::stops::Stop;
use maximum_audit::expecting::greatest_matching;
use order_list::lists::OrderList;
use record_verdict::judging::instant_finding_of_rule;
use record_verdict::laws::sound_trades_have_verdict;
use std::alloc::Global;
use std::marker::Brand;
use uniform_audit::expecting::expected_uniform;

/// The Expected trades of a rule that has such.
fn expected_deals(alloc: Global, rule: Rule, orders: &OrderList<'_>) -> Result<Vec<Deal>, NoMemory>
    requires rule { IsTrue (has_table rule) }
    requires order_list { IsOrderList orders.now }
    requires regular { Regular orders.now }
    ensures expected { IfOk result (λ deals. IsExpected rule orders.now deals.items) }
    ensures conforms { IfOk result (λ deals. Conforms rule orders.now deals.items) }
    ensures deal_list { IfOk result (λ deals. IsDealList orders.now deals.items) }
{
    // The rule that determines quantities and is none of these two is continuous trading.
    match rule.volume_rule() {
        Some(VolumeRule::Uniform) => expected_uniform(alloc, orders),
        Some(VolumeRule::Maximum) => greatest_matching(alloc, orders),
        None => continuous_matching(alloc, orders),
    }
}

/// The trade log of the Expected trades.
fn conforming_log(
    alloc: Global,
    rule: Rule,
    symbol: &Name,
    orders: &OrderList<'_>,
) -> Result<Vec<u8>, NoMemory>
    requires rule { IsTrue (has_table rule) }
    requires order_list { IsOrderList orders.now }
    requires regular { Regular orders.now }
    ensures { IfOk result (λ text. IsConformingLog rule symbol.now orders.now text.items) }
{
    let deals = expected_deals(alloc, rule, orders)?;
    let trades = trades_of_deals(alloc, orders, &deals, symbol)?;
    trades_in_range(&trades);
    let mut text = Vec::new(alloc);
    write_trades(alloc, &trades, &mut text)?;
    Ok(text)
}

/// The trade log of the Expected trades of a history, which an audit accepts.
fn expected_log(
    alloc: Global,
    rule: Rule,
    symbol: &Name,
    orders: &OrderList<'_>,
) -> Result<Vec<u8>, NoMemory>
    requires rule { IsTrue (has_table rule) }
    requires order_list { IsOrderList orders.now }
    requires regular { Regular orders.now }
    requires numbers { OrdersInRange orders.now }
    requires keys { HaveOwnKeys orders.now }
    requires admits { spec.instant_finding_of_rule rule orders.now ≡ None }
    ensures { IfOk result (λ text. IsLogOfOrders rule symbol.now orders.now text.items) }
{
    // Laws that the answer rests on. They compute nothing.
    trades_give_their_deals_back();
    extremes_exist();
    maximum_trades_are_expected();
    only_quantities();
    continuous_uniqueness();
    sound_trades_have_verdict();
    conforming_log(alloc, rule, symbol, orders)
}

/// The answer to the records of an order log.
fn answer_records<S: SymbolGhost>(
    alloc: Global,
    rule: Rule,
    symbol: &Name,
    draft: HistoryDraft<S>,
) -> Result<Answer, NoMemory>
    requires rule { IsTrue (has_table rule) }
    requires symbol { symbol.now ≡ S.symbol }
    requires place { HasPlace (IsHistoryDraft S.symbol) draft }
    ensures { IfOk result (λ answer. (entries : List OrderRecord)
        → IsHistoryDraft S.symbol draft entries
        → IsAnswerOfKind (ExpectsRecords rule symbol.now entries) answer) }
{
    let history = match draft.end() {
        Ok(history) => history,
        Err(finding) => return finding_answer(alloc, finding),
    };
    let orders = history.orders();
    match instant_finding_of_rule(rule, &orders) {
        Some(finding) => finding_answer(alloc, finding),
        None => Ok(done_answer(expected_log(alloc, rule, symbol, &orders)?)),
    }
}

/// The answer to `expect`, by the history of the symbol.
fn answer_about<S: SymbolGhost, F: Shelf>(
    alloc: Global,
    shelf: &mut F,
    rule: Rule,
    symbol: &Name,
    orders: &Source<'_>,
) -> Result<Answer, Stop>
    requires rule { IsTrue (has_table rule) }
    requires limit { orders.now.limit ≤ longest_read }
    requires symbol { symbol.now ≡ S.symbol }
    ensures logs { KeepsShelfLogs F.Shelf shelf.old shelf.new }
    ensures only { TouchesOnly (reading_by orders.now F.Shelf shelf.old shelf.new) Which.Orders }
    ensures decides { DecidesLog (reading_by orders.now F.Shelf shelf.old shelf.new)
        Which.Orders orders.now (IsExpectAnswer rule symbol.now) result }
    ensures within { StaysWithinAt (reading_by orders.now F.Shelf shelf.old shelf.new)
        Which.Orders result }
{
    let draft = HistoryDraft::<S>::new(alloc, orders.seed, *symbol);
    match collect_orders::<F, HistoryDraft<S>>(alloc, shelf, orders, draft) {
        Ok(draft) => Ok(answer_records(alloc, rule, symbol, draft)?),
        Err(unread) => unread_answer(alloc, Which::Orders, unread),
    }
}

/// The answer to `expect`: the trade log of the Expected trades; or that of the bad place or
/// the finding for which there are none.
pub(crate) fn answer_expect<F: Shelf>(
    alloc: Global,
    shelf: &mut F,
    rule: Rule,
    symbol: &Name,
    orders: &Source<'_>,
) -> Result<Answer, Stop>
    requires rule { IsTrue (has_table rule) }
    requires limit { orders.now.limit ≤ longest_read }
    ensures logs { KeepsShelfLogs F.Shelf shelf.old shelf.new }
    ensures only { TouchesOnly (reading_by orders.now F.Shelf shelf.old shelf.new) Which.Orders }
    ensures decides { DecidesLog (reading_by orders.now F.Shelf shelf.old shelf.new)
        Which.Orders orders.now (IsExpectAnswer rule symbol.now) result }
    ensures within { StaysWithinAt (reading_by orders.now F.Shelf shelf.old shelf.new)
        Which.Orders result }
{
    answer_about::<Brand, F>(alloc, shelf, rule, symbol, orders)
}
