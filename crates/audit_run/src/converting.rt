//! The command `convert`: a log in any form, as a CSV log.
ghost use Rattle.std.specs.Prelude.{◌≤◌};
ghost use Rattle.audit_base.specs.declared.terms.Which.{Which};
ghost use Rattle.log_source.specs.Sources.{longest_read};
ghost use Rattle.log_verdict.specs.BothLogs.{StaysWithinAt};
ghost use Rattle.log_verdict.specs.Collecting.{TouchesOnly};
ghost use Rattle.command_run.specs.Deciding.{DecidesLog};
ghost use Rattle.audit_run.specs.OtherTexts.{IsConvertAnswer};
ghost use Rattle.log_verdict.specs.Steps.{reading_by, KeepsShelfLogs};

use audit_base::records::{OrderRecord, TradeRecord};
use audit_base::terms::Which;
use command_run::answers::{Answer, done_answer, finding_answer, unread_answer};
use csv_logs::log_text::ConvertedLog;
use log_source::shelf::Shelf;
use log_verdict::reading::{CollectedTrades, collect_orders, collect_trades};
use log_verdict::sources::Source;
use log_verdict::stops::Stop;
use std::alloc::Global;

/// The answer to an order log: its records, of all symbols, as they come.
fn convert_orders<F: Shelf>(
    alloc: Global,
    shelf: &mut F,
    source: &Source<'_>,
) -> Result<Answer, Stop>
    requires limit { source.now.limit ≤ longest_read }
    ensures logs { KeepsShelfLogs F.Shelf shelf.old shelf.new }
    ensures only { TouchesOnly (reading_by source.now F.Shelf shelf.old shelf.new) Which.Orders }
    ensures decides { DecidesLog (reading_by source.now F.Shelf shelf.old shelf.new)
        Which.Orders source.now (IsConvertAnswer Which.Orders) result }
    ensures within { (F.slot shelf.old Which.Orders).taken ≤ source.now.limit
        → StaysWithinAt (reading_by source.now F.Shelf shelf.old shelf.new) Which.Orders result }
{
    let log = ConvertedLog::new(alloc)?;
    match collect_orders::<F, ConvertedLog<OrderRecord>>(alloc, shelf, source, log) {
        Ok(log) => Ok(done_answer(log.end()?)),
        Err(unread) => unread_answer(alloc, Which::Orders, unread),
    }
}

/// The answer to a trade log: its trades, of all symbols, as they come.
fn convert_trades<F: Shelf>(
    alloc: Global,
    shelf: &mut F,
    source: &Source<'_>,
) -> Result<Answer, Stop>
    requires limit { source.now.limit ≤ longest_read }
    ensures logs { KeepsShelfLogs F.Shelf shelf.old shelf.new }
    ensures only { TouchesOnly (reading_by source.now F.Shelf shelf.old shelf.new) Which.Trades }
    ensures decides { DecidesLog (reading_by source.now F.Shelf shelf.old shelf.new)
        Which.Trades source.now (IsConvertAnswer Which.Trades) result }
    ensures within { (F.slot shelf.old Which.Trades).taken ≤ source.now.limit
        → StaysWithinAt (reading_by source.now F.Shelf shelf.old shelf.new) Which.Trades result }
{
    let log = ConvertedLog::new(alloc)?;
    match collect_trades::<F, ConvertedLog<TradeRecord>>(alloc, shelf, source, log) {
        Ok(CollectedTrades::Trades(log)) => Ok(done_answer(log.end()?)),
        Ok(CollectedTrades::Alone(finding)) => Ok(finding_answer(alloc, finding)?),
        Err(unread) => unread_answer(alloc, Which::Trades, unread),
    }
}

/// The answer to `convert`: the CSV log; or that of the bad place, or of an execution report
/// without its partner.
pub(crate) fn answer_convert<F: Shelf>(
    alloc: Global,
    shelf: &mut F,
    log: Which,
    source: &Source<'_>,
) -> Result<Answer, Stop>
    requires limit { source.now.limit ≤ longest_read }
    ensures logs { KeepsShelfLogs F.Shelf shelf.old shelf.new }
    ensures only { TouchesOnly (reading_by source.now F.Shelf shelf.old shelf.new) log }
    ensures decides { DecidesLog (reading_by source.now F.Shelf shelf.old shelf.new)
        log source.now (IsConvertAnswer log) result }
    ensures within { (F.slot shelf.old log).taken ≤ source.now.limit
        → StaysWithinAt (reading_by source.now F.Shelf shelf.old shelf.new) log result }
{
    match log {
        Which::Orders => convert_orders(alloc, shelf, source),
        Which::Trades => convert_trades(alloc, shelf, source),
    }
}
