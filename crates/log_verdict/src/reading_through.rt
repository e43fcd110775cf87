//! Reading two logs through, to learn whether they can be read: nothing of them is kept.
ghost use Rattle.std.specs.Prelude.{◌≤◌};
ghost use Rattle.audit_base.specs.declared.terms.Which.{Which};
ghost use Rattle.log_source.specs.Sources.{longest_read};
ghost use Rattle.log_verdict.specs.BothLogs.{HaveOneLimit, ReadsThrough, ReadsTradesThrough, ReadsWithin, ReadsWithinAt};
ghost use Rattle.log_verdict.specs.Collecting.{TouchesOnly};
ghost use Rattle.log_verdict.specs.Steps.{reading_by, KeepsShelfLogs, FaultsNeverFall};

use crate::reading::{collect_orders, collect_trades};
use crate::sources::Source;
use crate::stops::NoRecords;
use audit_base::records::{OrderRecord, TradeRecord};
use audit_base::terms::Which;
use log_source::counter::Counter;
use log_source::shelf::Shelf;
use std::alloc::Global;

/// Reads a trade log through.
fn read_trades_through<F: Shelf>(
    alloc: Global,
    shelf: &mut F,
    trades: &Source<'_>,
) -> Result<(), NoRecords>
    requires limit { trades.now.limit ≤ longest_read }
    ensures logs { KeepsShelfLogs F.Shelf shelf.old shelf.new }
    ensures only { TouchesOnly (reading_by trades.now F.Shelf shelf.old shelf.new) Which.Trades }
    ensures decides { ReadsTradesThrough (reading_by trades.now F.Shelf shelf.old shelf.new)
        trades.now result }
    ensures within { ReadsWithinAt (reading_by trades.now F.Shelf shelf.old shelf.new)
        Which.Trades result }
{
    match collect_trades::<F, Counter<TradeRecord>>(alloc, shelf, trades, Counter::new()) {
        Ok(_) => Ok(()),
        Err(unread) => Err(NoRecords::at(Which::Trades, unread)),
    }
}

/// Reads two logs to their ends, the order log first, and the trade log only where that is in its
/// grammar; or says why they were not read into records: the first bad place, or where reading
/// stopped. Of the order log nothing is kept, and of a FIX trade log only the reports that wait for
/// their second one. Each log is started once.
pub fn read_through<F: Shelf>(
    alloc: Global,
    shelf: &mut F,
    orders: &Source<'_>,
    trades: &Source<'_>,
) -> Result<(), NoRecords>
    requires limit { HaveOneLimit orders.now trades.now }
    ensures logs { KeepsShelfLogs F.Shelf shelf.old shelf.new }
    ensures later { FaultsNeverFall (reading_by orders.now F.Shelf shelf.old shelf.new) }
    ensures decides { ReadsThrough (reading_by orders.now F.Shelf shelf.old shelf.new)
        orders.now trades.now result }
    ensures within { ReadsWithin (reading_by orders.now F.Shelf shelf.old shelf.new) result }
{
    match collect_orders::<F, Counter<OrderRecord>>(alloc, shelf, orders, Counter::new()) {
        Ok(_) => read_trades_through(alloc, shelf, trades),
        Err(unread) => Err(NoRecords::at(Which::Orders, unread)),
    }
}
