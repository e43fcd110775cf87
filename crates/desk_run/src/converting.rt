//! The answer to `convert`: the records of a log, written in another form.
ghost use Rattle.command_run.specs.Deciding.{DecidesAnswer, DecidesLog};
ghost use Rattle.desk_run.specs.Converting.{request_to_convert};
ghost use Rattle.desk_run.specs.Requests.{desk_command_of};
ghost use Rattle.desk_run.specs.WrittenLogs.{IsWrittenLogAnswer};
ghost use Rattle.log_source.specs.Sources.{longest_read};
ghost use Rattle.log_verdict.specs.BothLogs.{StaysWithin, StaysWithinAt};
ghost use Rattle.log_verdict.specs.Collecting.{TouchesOnly};
ghost use Rattle.log_verdict.specs.Steps.{reading_by, FaultsNeverFall, KeepsShelfLogs};
ghost use Rattle.std.specs.Prelude.{◌≤◌};

use super::program::Desk;
use audit_base::terms::{Form, Which};
use command_run::answers::{Answer, done_answer, finding_answer, unread_answer};
use command_run::laws::one_log_decides;
use log_source::shelf::Shelf;
use log_verdict::reading::CollectedTrades;
use log_verdict::sources::Source;
use log_verdict::stops::Stop;
use std::alloc::Global;
use written_logs::converting::{convert_orders, convert_trades};

/// The answer to an order log: its records in this form.
fn answer_orders<F: Shelf>(
    alloc: Global,
    shelf: &mut F,
    source: &Source<'_>,
    into: Form,
) -> Result<Answer, Stop>
    requires limit { source.now.limit ≤ longest_read }
    ensures logs { KeepsShelfLogs F.Shelf shelf.old shelf.new }
    ensures only { TouchesOnly (reading_by source.now F.Shelf shelf.old shelf.new) Which.Orders }
    ensures decides { DecidesLog (reading_by source.now F.Shelf shelf.old shelf.new)
        Which.Orders source.now (IsWrittenLogAnswer Which.Orders into) result }
    ensures within { (F.slot shelf.old Which.Orders).taken ≤ source.now.limit
        → StaysWithinAt (reading_by source.now F.Shelf shelf.old shelf.new) Which.Orders result }
{
    match convert_orders(alloc, shelf, source, into) {
        Ok(text) => Ok(done_answer(text)),
        Err(unread) => unread_answer(alloc, Which::Orders, unread),
    }
}

/// The answer to a trade log: its trades in this form.
fn answer_trades<F: Shelf>(
    alloc: Global,
    shelf: &mut F,
    source: &Source<'_>,
    into: Form,
) -> Result<Answer, Stop>
    requires limit { source.now.limit ≤ longest_read }
    ensures logs { KeepsShelfLogs F.Shelf shelf.old shelf.new }
    ensures only { TouchesOnly (reading_by source.now F.Shelf shelf.old shelf.new) Which.Trades }
    ensures decides { DecidesLog (reading_by source.now F.Shelf shelf.old shelf.new)
        Which.Trades source.now (IsWrittenLogAnswer Which.Trades into) result }
    ensures within { (F.slot shelf.old Which.Trades).taken ≤ source.now.limit
        → StaysWithinAt (reading_by source.now F.Shelf shelf.old shelf.new) Which.Trades result }
{
    match convert_trades(alloc, shelf, source, into) {
        Ok(CollectedTrades::Trades(text)) => Ok(done_answer(text)),
        Ok(CollectedTrades::Alone(finding)) => Ok(finding_answer(alloc, finding)?),
        Err(unread) => unread_answer(alloc, Which::Trades, unread),
    }
}

/// The answer to `convert`.
pub(crate) fn answer_convert<F: Shelf>(
    alloc: Global,
    shelf: &mut F,
    log: Which,
    source: &Source<'_>,
    into: Form,
) -> Result<Answer, Stop>
    requires limit { source.now.limit ≤ longest_read }
    ensures logs { KeepsShelfLogs F.Shelf shelf.old shelf.new }
    ensures later { FaultsNeverFall (reading_by source.now F.Shelf shelf.old shelf.new) }
    ensures decides { DecidesAnswer (reading_by source.now F.Shelf shelf.old shelf.new)
        (desk_command_of (request_to_convert log source.now into)) result }
    ensures within { StaysWithin (reading_by source.now F.Shelf shelf.old shelf.new) result }
{
    // A law that the answer rests on. It computes nothing.
    one_log_decides::<Desk>();
    match log {
        Which::Orders => answer_orders(alloc, shelf, source, into),
        Which::Trades => answer_trades(alloc, shelf, source, into),
    }
}
