//! Reading the two logs of a symbol: what its verdict is judged by, and what is kept of it beside
//! that.
ghost use Rattle.std.specs.Prelude.{◌≡◌, List, IfOk, Ok, Result};
ghost use Rattle.audit_base.specs.declared.findings.Finding.{Finding};
ghost use Rattle.audit_base.specs.declared.records.TradeRecord.{TradeRecord};
ghost use Rattle.audit_base.specs.Verdicts.{paired_trades};
ghost use Rattle.log_verdict.specs.BothLogs.{GivesOfRecords, HaveOneLimit, ReadsWithin};
ghost use Rattle.log_verdict.specs.Collecting.{HasCollected};
ghost use Rattle.log_verdict.specs.Steps.{reading_by, KeepsShelfLogs, FaultsNeverFall};
ghost use Rattle.symbol_offences.specs.SymbolBeforeRule.{IsReadyToTell, IsSymbolBeforeRule};
ghost use Rattle.symbol_offences.specs.TradeLog.{GivesSymbolBeforeRule, IsTradesOfSymbol};

use crate::order_log::OrdersOfSymbol;
use crate::questions::{KeepingOptions, QuestionGhost};
use crate::symbol_before_rule::{QuotedRecords, SymbolBeforeRule};
use crate::trade_log::TradesOfSymbol;
use audit_base::names::Name;
use log_source::shelf::Shelf;
use log_verdict::both_logs::{LogsBeforeRule, read_keeping};
use log_verdict::reading::CollectedTrades;
use log_verdict::sources::Source;
use log_verdict::stops::NoRecords;
use record_verdict::scopes::Scope;
use std::alloc::Global;
use std::marker::Brand;

/// What was kept of the trades; where a report has no partner, nothing.
fn kept_trades<Q: QuestionGhost>(
    alloc: Global,
    symbol: Name,
    keeping: KeepingOptions,
    trades: CollectedTrades<TradesOfSymbol<Q>>,
) -> TradesOfSymbol<Q>
    requires symbol { symbol ≡ Q.symbol }
    requires keeping { keeping ≡ Q.keeping }
    ensures { let has_taken = IsTradesOfSymbol Q.symbol Q.keeping in
        (paired : Result (List TradeRecord) Finding) → HasCollected has_taken trades (Ok paired)
        → has_taken result (paired_trades paired) }
{
    match trades {
        CollectedTrades::Trades(kept) => kept,
        CollectedTrades::Alone(_) => TradesOfSymbol::new(alloc, symbol, keeping),
    }
}

/// What both logs give of the symbol.
fn logs_of<Q: QuestionGhost>(
    alloc: Global,
    symbol: Name,
    keeping: KeepingOptions,
    read: LogsBeforeRule<OrdersOfSymbol<Q>, TradesOfSymbol<Q>>,
) -> SymbolBeforeRule
    requires symbol { symbol ≡ Q.symbol }
    requires keeping { keeping ≡ Q.keeping }
    ensures given { result.given ≡ read.given }
    ensures gives { GivesSymbolBeforeRule Q.symbol Q.keeping read result }
{
    let LogsBeforeRule {
        given,
        orders,
        trades,
    } = read;
    let OrdersOfSymbol { records, .. } = orders;
    let kept = kept_trades(alloc, symbol, keeping, trades);
    let TradesOfSymbol {
        times,
        records: trades,
        ..
    } = kept;
    let quoted = QuotedRecords {
        orders: records,
        trades,
    };
    SymbolBeforeRule {
        given,
        times,
        quoted,
    }
}

/// What both logs give of the symbol that is asked about.
fn read_asked<Q: QuestionGhost, F: Shelf>(
    alloc: Global,
    shelf: &mut F,
    scope: &Scope,
    keeping: KeepingOptions,
    orders: &Source<'_>,
    trades: &Source<'_>,
) -> Result<SymbolBeforeRule, NoRecords>
    requires symbol { scope.now.symbol ≡ Q.symbol }
    requires keeping { keeping ≡ Q.keeping }
    requires limit { HaveOneLimit orders.now trades.now }
    ensures logs { KeepsShelfLogs F.Shelf shelf.old shelf.new }
    ensures later { FaultsNeverFall (reading_by orders.now F.Shelf shelf.old shelf.new) }
    ensures decides { GivesOfRecords (IsSymbolBeforeRule scope.now keeping)
        (reading_by orders.now F.Shelf shelf.old shelf.new) orders.now trades.now result }
    ensures ready { IfOk result (IsReadyToTell keeping) }
    ensures within { ReadsWithin (reading_by orders.now F.Shelf shelf.old shelf.new) result }
{
    let kept = (
        OrdersOfSymbol::<Q>::new(alloc, scope.symbol, keeping.records),
        TradesOfSymbol::<Q>::new(alloc, scope.symbol, keeping),
    );
    match read_keeping::<Brand, F, OrdersOfSymbol<Q>, TradesOfSymbol<Q>>(
        alloc, shelf, scope, orders, trades, kept,
    ) {
        Ok(read) => Ok(logs_of(alloc, scope.symbol, keeping, read)),
        Err(why) => Err(why),
    }
}

/// What two logs give of the symbol, or why that is not known. The order log is read first, and the
/// trade log only where that is in its grammar; each is read once.
pub fn read_symbol<F: Shelf>(
    alloc: Global,
    shelf: &mut F,
    scope: &Scope,
    keeping: KeepingOptions,
    orders: &Source<'_>,
    trades: &Source<'_>,
) -> Result<SymbolBeforeRule, NoRecords>
    requires limit { HaveOneLimit orders.now trades.now }
    ensures logs { KeepsShelfLogs F.Shelf shelf.old shelf.new }
    ensures later { FaultsNeverFall (reading_by orders.now F.Shelf shelf.old shelf.new) }
    ensures decides { GivesOfRecords (IsSymbolBeforeRule scope.now keeping)
        (reading_by orders.now F.Shelf shelf.old shelf.new) orders.now trades.now result }
    ensures ready { IfOk result (IsReadyToTell keeping) }
    ensures within { ReadsWithin (reading_by orders.now F.Shelf shelf.old shelf.new) result }
{
    read_asked::<Brand, F>(alloc, shelf, scope, keeping, orders, trades)
}
