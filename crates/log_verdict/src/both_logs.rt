//! Reading two logs up to the rule: each is handed record by record to what is kept of it, and
//! what they give is answered, or why that is not known.
ghost use Rattle.std.specs.Prelude.{◌≡◌, ◌≤◌, [], List, IfOk, Result, Some};
ghost use Rattle.audit_base.specs.declared.findings.Finding.{Finding};
ghost use Rattle.audit_base.specs.declared.records.OrderRecord.{OrderRecord};
ghost use Rattle.audit_base.specs.declared.records.TradeRecord.{TradeRecord};
ghost use Rattle.audit_base.specs.declared.terms.Which.{Which};
ghost use Rattle.instruction_history.specs.HistoryDraft.{IsHistoryDraft};
ghost use Rattle.log_source.specs.Sources.{longest_read};
ghost use Rattle.record_verdict.specs.Scopes.{finding_before_rule_in_scope};
ghost use Rattle.log_verdict.specs.BothLogs.{AreLogsBeforeRule, GivesOfRecords, GivesOfTrades};
ghost use Rattle.log_verdict.specs.BothLogs.{HaveOneLimit, IsAdmitted};
ghost use Rattle.log_verdict.specs.BothLogs.{ReadsWithin, ReadsWithinAt};
ghost use Rattle.log_verdict.specs.Collecting.{TouchesOnly};
ghost use Rattle.log_verdict.specs.Steps.{reading_by, KeepsShelfLogs, FaultsNeverFall};
ghost use Rattle.record_verdict.specs.BeforeRule.{IsBeforeRule, IsJudgeable};

use crate::both::Both;
use crate::reading::{CollectedTrades, collect_orders, collect_trades};
use crate::sources::Source;
use crate::stops::NoRecords;
use audit_base::findings::Finding;
use audit_base::records::{OrderRecord, TradeRecord};
use audit_base::terms::Which;
use instruction_history::history::History;
use instruction_history::history_draft::{HistoryDraft, SymbolGhost};
use log_source::collector::Collector;
use log_source::counter::Counter;
use log_source::shelf::Shelf;
use matching_core::deals_draft::{DealsDraft, HistoryGhost};
use record_verdict::before_rule::BeforeRule;
use record_verdict::scopes::Scope;
use std::alloc::Global;
use std::marker::Brand;

/// What two logs give before the rule is looked at, and what was kept of them beside it.
#[derive(Drop)]
pub struct LogsBeforeRule<X, Y> {
    pub given: BeforeRule,
    /// What was kept of the order log.
    pub orders: X,
    /// What was kept of the trade log, or that a report has no partner.
    pub trades: CollectedTrades<Y>,
}

/// What is known where a finding about the orders decides: of the trade log is only kept what is
/// kept beside it.
fn after_finding<F: Shelf, X: Collector<Entry = OrderRecord>, Y: Collector<Entry = TradeRecord>>(
    alloc: Global,
    shelf: &mut F,
    scope: &Scope,
    trades: &Source<'_>,
    finding: Finding,
    kept: (X, Y),
) -> Result<LogsBeforeRule<X, Y>, NoRecords>
    requires limit { trades.now.limit ≤ longest_read }
    requires fresh { Y.has_taken kept.1 [] }
    ensures logs { KeepsShelfLogs F.Shelf shelf.old shelf.new }
    ensures only { TouchesOnly (reading_by trades.now F.Shelf shelf.old shelf.new) Which.Trades }
    ensures decides { (entries : List OrderRecord) → X.has_taken kept.0 entries
        → ((paired : Result (List TradeRecord) Finding)
        → finding_before_rule_in_scope scope.now entries paired ≡ Some finding)
        → GivesOfTrades (AreLogsBeforeRule scope.now X.has_taken Y.has_taken entries)
        (reading_by trades.now F.Shelf shelf.old shelf.new) trades.now result }
    ensures judgeable { IfOk result (λ read. IsJudgeable read.given) }
    ensures within { ReadsWithinAt (reading_by trades.now F.Shelf shelf.old shelf.new)
        Which.Trades result }
{
    let (orders, kept) = kept;
    match collect_trades::<F, Y>(alloc, shelf, trades, kept) {
        Ok(trades) => Ok(LogsBeforeRule {
            given: BeforeRule::Found(finding),
            orders,
            trades,
        }),
        Err(unread) => Err(NoRecords::at(Which::Trades, unread)),
    }
}

/// What is known where the history has no finding: its trades decide.
fn after_history<
    M: HistoryGhost,
    F: Shelf,
    X: Collector<Entry = OrderRecord>,
    Y: Collector<Entry = TradeRecord>,
>(
    alloc: Global,
    shelf: &mut F,
    scope: &Scope,
    trades: &Source<'_>,
    history: History,
    kept: (X, Y),
) -> Result<LogsBeforeRule<X, Y>, NoRecords>
    requires limit { trades.now.limit ≤ longest_read }
    requires symbol { scope.now.symbol ≡ M.symbol }
    requires orders { history ≡ M.orders }
    requires fresh { Y.has_taken kept.1 [] }
    ensures logs { KeepsShelfLogs F.Shelf shelf.old shelf.new }
    ensures only { TouchesOnly (reading_by trades.now F.Shelf shelf.old shelf.new) Which.Trades }
    ensures decides { (entries : List OrderRecord) → X.has_taken kept.0 entries
        → IsAdmitted scope.now entries history
        → GivesOfTrades (AreLogsBeforeRule scope.now X.has_taken Y.has_taken entries)
        (reading_by trades.now F.Shelf shelf.old shelf.new) trades.now result }
    ensures judgeable { IfOk result (λ read. IsJudgeable read.given) }
    ensures within { ReadsWithinAt (reading_by trades.now F.Shelf shelf.old shelf.new)
        Which.Trades result }
{
    let (orders, kept) = kept;
    let deals = DealsDraft::<M>::new(alloc, trades.seed, scope.symbol, history);
    let both = Both {
        first: deals,
        second: kept,
    };
    match collect_trades::<F, Both<DealsDraft<M>, Y>>(alloc, shelf, trades, both) {
        Ok(CollectedTrades::Trades(both)) => {
            let Both { first, second } = both;
            Ok(LogsBeforeRule {
                given: BeforeRule::of(first.end()),
                orders,
                trades: CollectedTrades::Trades(second),
            })
        }
        Ok(CollectedTrades::Alone(finding)) => {
            let alone = &finding;
            Ok(LogsBeforeRule {
                given: BeforeRule::Found(*alone),
                orders,
                trades: CollectedTrades::Alone(*alone),
            })
        }
        Err(unread) => Err(NoRecords::at(Which::Trades, unread)),
    }
}

/// What is known where the order log has been read: the trade log is read.
fn after_orders<
    S: SymbolGhost,
    F: Shelf,
    X: Collector<Entry = OrderRecord>,
    Y: Collector<Entry = TradeRecord>,
>(
    alloc: Global,
    shelf: &mut F,
    scope: &Scope,
    trades: &Source<'_>,
    orders: Both<HistoryDraft<S>, X>,
    kept: Y,
) -> Result<LogsBeforeRule<X, Y>, NoRecords>
    requires limit { trades.now.limit ≤ longest_read }
    requires symbol { scope.now.symbol ≡ S.symbol }
    requires place { (entries : List OrderRecord) × IsHistoryDraft S.symbol orders.first entries }
    requires fresh { Y.has_taken kept [] }
    ensures logs { KeepsShelfLogs F.Shelf shelf.old shelf.new }
    ensures only { TouchesOnly (reading_by trades.now F.Shelf shelf.old shelf.new) Which.Trades }
    ensures decides { (entries : List OrderRecord) → IsHistoryDraft S.symbol orders.first entries
        → X.has_taken orders.second entries
        → GivesOfTrades (AreLogsBeforeRule scope.now X.has_taken Y.has_taken entries)
        (reading_by trades.now F.Shelf shelf.old shelf.new) trades.now result }
    ensures judgeable { IfOk result (λ read. IsJudgeable read.given) }
    ensures within { ReadsWithinAt (reading_by trades.now F.Shelf shelf.old shelf.new)
        Which.Trades result }
{
    let Both { first, second } = orders;
    let kept = (second, kept);
    match first.end() {
        Ok(history) => {
            let unadmitted = scope.admission.first_unadmitted(&history.orders());
            match unadmitted {
                Some(finding) => after_finding(alloc, shelf, scope, trades, finding, kept),
                None => {
                    after_history::<Brand, F, X, Y>(alloc, shelf, scope, trades, history, kept)
                }
            }
        }
        Err(finding) => after_finding(alloc, shelf, scope, trades, finding, kept),
    }
}

/// What two logs give before the rule is looked at, and what these two collectors keep of them
/// beside it, the first of the orders and the second of the trades; or why that is not known. The
/// order log is read first, and the trade log only where that is in its grammar; each is read once.
pub fn read_keeping<
    S: SymbolGhost,
    F: Shelf,
    X: Collector<Entry = OrderRecord>,
    Y: Collector<Entry = TradeRecord>,
>(
    alloc: Global,
    shelf: &mut F,
    scope: &Scope,
    orders: &Source<'_>,
    trades: &Source<'_>,
    kept: (X, Y),
) -> Result<LogsBeforeRule<X, Y>, NoRecords>
    requires symbol { scope.now.symbol ≡ S.symbol }
    requires limit { HaveOneLimit orders.now trades.now }
    requires no_orders { X.has_taken kept.0 [] }
    requires no_trades { Y.has_taken kept.1 [] }
    ensures logs { KeepsShelfLogs F.Shelf shelf.old shelf.new }
    ensures later { FaultsNeverFall (reading_by orders.now F.Shelf shelf.old shelf.new) }
    ensures decides { GivesOfRecords (AreLogsBeforeRule scope.now X.has_taken Y.has_taken)
        (reading_by orders.now F.Shelf shelf.old shelf.new) orders.now trades.now result }
    ensures judgeable { IfOk result (λ read. IsJudgeable read.given) }
    ensures within { ReadsWithin (reading_by orders.now F.Shelf shelf.old shelf.new) result }
{
    let (of_orders, of_trades) = kept;
    let both = Both {
        first: HistoryDraft::<S>::new(alloc, orders.seed, scope.symbol),
        second: of_orders,
    };
    match collect_orders::<F, Both<HistoryDraft<S>, X>>(alloc, shelf, orders, both) {
        Ok(read) => after_orders(alloc, shelf, scope, trades, read, of_trades),
        Err(unread) => Err(NoRecords::at(Which::Orders, unread)),
    }
}

/// What two logs give before the rule is looked at, or why that is not known. The order log is
/// read first, and the trade log only where that is in its grammar.
pub fn read_both<F: Shelf>(
    alloc: Global,
    shelf: &mut F,
    scope: &Scope,
    orders: &Source<'_>,
    trades: &Source<'_>,
) -> Result<BeforeRule, NoRecords>
    requires limit { HaveOneLimit orders.now trades.now }
    ensures logs { KeepsShelfLogs F.Shelf shelf.old shelf.new }
    ensures later { FaultsNeverFall (reading_by orders.now F.Shelf shelf.old shelf.new) }
    ensures decides { GivesOfRecords (IsBeforeRule scope.now)
        (reading_by orders.now F.Shelf shelf.old shelf.new) orders.now trades.now result }
    ensures judgeable { IfOk result IsJudgeable }
    ensures within { ReadsWithin (reading_by orders.now F.Shelf shelf.old shelf.new) result }
{
    let kept = (Counter::new(), Counter::new());
    match read_keeping::<Brand, F, Counter<OrderRecord>, Counter<TradeRecord>>(
        alloc, shelf, scope, orders, trades, kept,
    ) {
        Ok(read) => Ok(read.given),
        Err(why) => Err(why),
    }
}
