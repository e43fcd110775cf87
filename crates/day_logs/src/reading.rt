//! Reading two logs of a day up to the rule: each is handed record by record to what is kept of
//! all symbols.
ghost use Rattle.std.specs.Prelude.{◌≡◌, ◌≤◌, [], List, IfOk};
ghost use Rattle.audit_base.specs.declared.records.OrderRecord.{OrderRecord as OrderRecordSpec};
ghost use Rattle.audit_base.specs.declared.terms.Which.{Which};
ghost use Rattle.day_records.specs.DayOrders.{HasOrders};
ghost use Rattle.day_records.specs.DayTrades.{IsDayTrades};
ghost use Rattle.log_source.specs.Sources.{longest_read};
ghost use Rattle.log_verdict.specs.BothLogs.{GivesOfRecords, GivesOfTrades, HaveOneLimit, ReadsWithin, ReadsWithinAt};
ghost use Rattle.log_verdict.specs.Collecting.{TouchesOnly};
ghost use Rattle.log_verdict.specs.Steps.{reading_by, KeepsShelfLogs, FaultsNeverFall};
ghost use Rattle.day_logs.specs.DayBeforeRule.{IsDayBeforeRule, IsDayWithFewTrades};

use crate::before_rule::DayBeforeRule;
use audit_base::terms::Which;
use day_records::day_orders::{DayOrderLog, DayOrders, ShareGhost};
use day_records::day_trades::{DayGhost, DayTrades};
use day_symbols::shares::DayShare;
use log_source::shelf::Shelf;
use log_verdict::reading::{CollectedTrades, collect_orders, collect_trades};
use log_verdict::sources::Source;
use log_verdict::stops::{NoRecords, Stop};
use record_verdict::scopes::Admission;
use std::alloc::Global;
use std::marker::Brand;

/// What is known where the trade log is read by a day that has been handed no trade yet.
fn read_trades<M: DayGhost, F: Shelf>(
    alloc: Global,
    shelf: &mut F,
    trades: &Source<'_>,
    day: DayTrades<M>,
) -> Result<DayBeforeRule, NoRecords>
    requires limit { trades.now.limit ≤ longest_read }
    requires fresh { IsDayTrades M.share M.admission M.may_have day [] }
    ensures logs { KeepsShelfLogs F.Shelf shelf.old shelf.new }
    ensures only { TouchesOnly (reading_by trades.now F.Shelf shelf.old shelf.new) Which.Trades }
    ensures decides { (entries : List OrderRecordSpec) → M.may_have entries
        → GivesOfTrades (IsDayBeforeRule M.share M.admission entries)
        (reading_by trades.now F.Shelf shelf.old shelf.new) trades.now result }
    ensures fits_places { IfOk result (IsDayWithFewTrades M.share M.admission) }
    ensures within { ReadsWithinAt (reading_by trades.now F.Shelf shelf.old shelf.new)
        Which.Trades result }
{
    match collect_trades::<F, DayTrades<M>>(alloc, shelf, trades, day) {
        Ok(CollectedTrades::Trades(day)) => Ok(DayBeforeRule::Read(day.end())),
        Ok(CollectedTrades::Alone(finding)) => Ok(DayBeforeRule::Unpaired(finding)),
        Err(unread) => Err(NoRecords::at(Which::Trades, unread)),
    }
}

/// What is known where the order log has been read: the trade log is read after it.
fn after_orders<M: DayGhost, F: Shelf>(
    alloc: Global,
    shelf: &mut F,
    share: DayShare,
    admission: Admission,
    trades: &Source<'_>,
    orders: DayOrderLog,
) -> Result<DayBeforeRule, NoRecords>
    requires limit { trades.now.limit ≤ longest_read }
    requires share { share ≡ M.share }
    requires admission { admission ≡ M.admission }
    requires orders { (entries : List OrderRecordSpec)
        → M.may_have entries → HasOrders M.share orders entries }
    requires some { (entries : List OrderRecordSpec) × M.may_have entries }
    ensures logs { KeepsShelfLogs F.Shelf shelf.old shelf.new }
    ensures only { TouchesOnly (reading_by trades.now F.Shelf shelf.old shelf.new) Which.Trades }
    ensures decides { (entries : List OrderRecordSpec) → M.may_have entries
        → GivesOfTrades (IsDayBeforeRule share admission entries)
        (reading_by trades.now F.Shelf shelf.old shelf.new) trades.now result }
    ensures fits_places { IfOk result (IsDayWithFewTrades share admission) }
    ensures within { (F.slot shelf.old Which.Trades).taken ≤ trades.now.limit
        → ReadsWithinAt (reading_by trades.now F.Shelf shelf.old shelf.new) Which.Trades result }
{
    match DayTrades::<M>::new(alloc, trades.seed, share, admission, orders) {
        Ok(day) => read_trades::<M, F>(alloc, shelf, trades, day),
        Err(_) => Err(NoRecords::Stopped(Stop::Memory)),
    }
}

/// What two logs of a day give before a rule is looked at, by the orders of the share.
fn read_share<D: ShareGhost, F: Shelf>(
    alloc: Global,
    shelf: &mut F,
    share: DayShare,
    admission: Admission,
    orders: &Source<'_>,
    trades: &Source<'_>,
) -> Result<DayBeforeRule, NoRecords>
    requires share { share ≡ D.share }
    requires limit { HaveOneLimit orders.now trades.now }
    ensures logs { KeepsShelfLogs F.Shelf shelf.old shelf.new }
    ensures later { FaultsNeverFall (reading_by orders.now F.Shelf shelf.old shelf.new) }
    ensures decides { GivesOfRecords (IsDayBeforeRule share admission)
        (reading_by orders.now F.Shelf shelf.old shelf.new) orders.now trades.now result }
    ensures fits_places { IfOk result (IsDayWithFewTrades share admission) }
    ensures within { ReadsWithin (reading_by orders.now F.Shelf shelf.old shelf.new) result }
{
    let day = DayOrders::<D>::new(alloc, orders.seed, share);
    match collect_orders::<F, DayOrders<D>>(alloc, shelf, orders, day) {
        Ok(day) => after_orders::<Brand, F>(alloc, shelf, share, admission, trades, day.end()),
        Err(unread) => Err(NoRecords::at(Which::Orders, unread)),
    }
}

/// What two logs of a day give before a rule is looked at, or why that is not known. The order
/// log is read first, and the trade log only where that is in its grammar; each is read once,
/// whatever the number of symbols.
pub fn read_day<F: Shelf>(
    alloc: Global,
    shelf: &mut F,
    share: DayShare,
    admission: Admission,
    orders: &Source<'_>,
    trades: &Source<'_>,
) -> Result<DayBeforeRule, NoRecords>
    requires limit { HaveOneLimit orders.now trades.now }
    ensures logs { KeepsShelfLogs F.Shelf shelf.old shelf.new }
    ensures later { FaultsNeverFall (reading_by orders.now F.Shelf shelf.old shelf.new) }
    ensures decides { GivesOfRecords (IsDayBeforeRule share admission)
        (reading_by orders.now F.Shelf shelf.old shelf.new) orders.now trades.now result }
    ensures fits_places { IfOk result (IsDayWithFewTrades share admission) }
    ensures within { ReadsWithin (reading_by orders.now F.Shelf shelf.old shelf.new) result }
{
    read_share::<Brand, F>(alloc, shelf, share, admission, orders, trades)
}
